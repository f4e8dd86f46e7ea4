// An image read into a table.
ghost use Rattle.std.specs.Prelude.{◌≡◌, true, ◌+◌, ◌≤◌, length, OnOk, IfErr};
ghost use Rattle.terms.specs.Numbers.{ACCEPTED};
ghost use Rattle.terms.specs.Refusals.{number_of};
ghost use Rattle.image.specs.Content.{fits_record, with_record};
ghost use Rattle.image.specs.Front.{key_of};
ghost use Rattle.image.specs.Order.{first_turn};
ghost use Rattle.image.specs.Reader.{loaded_of, payload, read, read_from, refused_read};
ghost use Rattle.image.specs.Records.{HEAD as HEAD_BYTES, length_of};

use crate::contents::{decrement_in, directory_in, object_in, reference_in, remote_in, roots_in};
use crate::fronts::front_of;
use crate::numbers::number_at;
use entry::Entry;
use image::{Front, HEAD, Loaded, RecordKind, Turn};
use table::Table;
use terms::Refusal;

// The record at the front of the bytes goes into the table.
#[tactic(auto, using(crate::proofs::Reading::key_below), unfolding(image::specs::Content::with_record))]
fn put(table: &mut Table, front: Front, l: &[u8])
    requires long { HEAD_BYTES + length_of front.kind ≤ length l.now }
    requires key { front.key ≡ key_of front.kind (payload front.kind l.now) }
    requires fits { fits_record front.kind (payload front.kind l.now) ≡ true }
    ensures { table.new ≡ with_record table.old front.kind (payload front.kind l.now) }
{
    let key = front.key;
    match front.kind {
        RecordKind::Count => table.count = number_at(l, HEAD),
        RecordKind::Live => table.heap.objects[key] = object_in(l),
        RecordKind::NodeRoots => table.heap.roots[key] = roots_in(l),
        RecordKind::Directory => table.cells[key].set_entry(l[4] / Entry::OWNED, directory_in(l)),
        RecordKind::Remote => table.cells[key].set_entry(l[4], remote_in(l)),
        RecordKind::Reference => table.air[key].held = reference_in(l),
        RecordKind::Decrement => table.air[key].held = decrement_in(l),
        RecordKind::End | RecordKind::Unknown => {}
    }
}

// The records of an image go into the table. After a refusal the table counts for nothing.
fn fill(table: &mut Table, bytes: &[u8]) -> Result<(), Refusal>
    ensures ok { OnOk result (read_from (length bytes.now) first_turn table.old bytes.now ≡ record { answer = ACCEPTED; table = table.new }) }
    ensures err { IfErr result (λ r. read_from (length bytes.now) first_turn table.old bytes.now ≡ refused_read (number_of r)) }
{
    let mut turn = Turn::FIRST;
    let mut rest = bytes;
    // No `for`: how far a turn goes stands in the record.
    loop {
        let front = front_of(turn, rest)?;
        if front.kind == RecordKind::End {
            return Ok(());
        }
        put(table, front, rest);
        turn = front.next;
        rest = &rest[front.length..];
    }
}

// The table whose image the bytes are, or the first refusal.
#[tactic(auto, unfolding(image::specs::Reader::read))]
pub fn read(bytes: &[u8]) -> Loaded
    ensures { loaded_of result ≡ read bytes.now }
{
    let mut table = Table::fresh();
    match fill(&mut table, bytes) {
        Ok(()) => Loaded {
            refusal: None,
            table,
        },
        Err(refusal) => Loaded {
            refusal: Some(refusal),
            table: Table::fresh(),
        },
    }
}
