// The whole image, section by section, in a buffer with room for every record that a table could have.
#![tactic(auto, using(crate::proofs::Sizes::message_size), unfolding(image::specs::Writer::bytes_of_all))]

ghost use Rattle.std.specs.Prelude.{◌≡◌, ◌+◌, ◌≤◌, ◌++◌, [], length};
ghost use Rattle.image.specs.Stored.{FULL as ROOM_FOR_ALL, REMOTE_BYTES, HEAP_BYTES, CELLS_BYTES, AIR_BYTES, heap_records, cells_records, air_records};
ghost use Rattle.image.specs.Writer.{image, remote_record, bytes_of_all};
ghost use Rattle.writer.specs.Appended.{Appended};

use crate::buffer::Buffer;
use crate::records::{
    count_record, directory_record, end_record, message_record, object_record, remote_record,
    roots_record,
};
use entry::Entry;
use heap::Heap;
use table::Table;

// Room for a record of everything that could have one, and 20 bytes more, since a record is copied with all its room.
pub(crate) const ROOM: usize = 12808;

// The live objects, then the roots of every node. Here and below each sort of record has a loop of its own: one function that takes what makes a
// record as a closure was tried, and needs a contract at each closure that is longer than the loop.
fn append_heap(image: &mut Buffer<ROOM>, heap: &Heap)
    requires { length image.old + HEAP_BYTES ≤ ROOM_FOR_ALL }
    ensures { Appended HEAP_BYTES (heap_records heap.now) image.old image.new }
{
    // The casts lose nothing: there are 64 objects and eight nodes.
    for (o, object) in heap.objects.iter().enumerate() {
        image.append_record(&object_record(o as u8, *object));
    }
    for (p, roots) in heap.roots.iter().enumerate() {
        image.append_record(&roots_record(p as u8, *roots));
    }
}

// What stands at a node for an object, if it is no directory. In most tables mostly nothing does, and then no record is made.
fn append_remote(image: &mut Buffer<ROOM>, p: u8, o: u8, entry: Entry)
    requires { length image.old + REMOTE_BYTES ≤ ROOM_FOR_ALL }
    ensures { image.new ≡ image.old ++ bytes_of_all (remote_record p o entry) }
{
    match entry {
        Entry::Absent | Entry::AtOwner(_) => {}
        Entry::Elsewhere(_) => image.append_record(&remote_record(p, o, entry)),
    }
}

// The directories by object, then the other entries by node and object.
fn append_entries(image: &mut Buffer<ROOM>, t: &Table)
    requires { length image.old + CELLS_BYTES ≤ ROOM_FOR_ALL }
    ensures { Appended CELLS_BYTES (cells_records t.now.cells) image.old image.new }
{
    for o in 0..Table::OBJECTS {
        let entry = t.entry_at(o / Entry::OWNED, o);
        image.append_record(&directory_record(o, entry));
    }
    for p in 0..Table::NODES {
        for o in 0..Table::OBJECTS {
            append_remote(image, p, o, t.entry_at(p, o));
        }
    }
}

// The messages by place.
fn append_messages(image: &mut Buffer<ROOM>, t: &Table)
    requires { length image.old + AIR_BYTES ≤ ROOM_FOR_ALL }
    ensures { Appended AIR_BYTES (air_records t.now.air) image.old image.new }
{
    for s in 0..Table::PLACES {
        image.append_record(&message_record(s, t.message_at(s)));
    }
}

// The image of any table, in one pass over it, into an empty buffer. The buffer is lent: one that is handed back would be copied, with all its room.
pub(crate) fn append_image(all: &mut Buffer<ROOM>, t: &Table)
    requires { all.old ≡ [] }
    ensures all { all.new ≡ image t.now }
    ensures small { length all.new ≤ ROOM_FOR_ALL }
{
    all.append_record(&count_record(t.count));
    append_heap(all, &t.heap);
    append_entries(all, t);
    append_messages(all, t);
    all.append_record(&end_record());
}
