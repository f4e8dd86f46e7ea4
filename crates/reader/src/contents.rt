// What the numbers of a record stand for, and whether the shape allows it. Each function reads the record of one kind at the front of the bytes.
// No struct keeps kind and bytes together: in place of the length each would ask for the kind.
ghost use Rattle.std.specs.Prelude.{◌≡◌, ◌+◌, ◌≤◌, length};
ghost use Rattle.image.specs.Content.{live_object, roots_of_node, directory_entry, remote_entry, reference_message, decrement_message, fits_record};
ghost use Rattle.image.specs.Find.{held_in, size_of};
ghost use Rattle.image.specs.Front.{trails};
ghost use Rattle.image.specs.Reader.{payload};
ghost use Rattle.image.specs.Records.{HEAD as HEAD_BYTES, length_of};
ghost use Rattle.image.specs.declared.RecordKind.TheVariants.{Live, NodeRoots, Reference, Decrement};
ghost use Rattle.image.specs.declared.RecordKind.TheVariants.{Directory as DirectoryKind, Remote as RemoteKind};

use crate::numbers::{number_at, returns_at};
use entry::{Directory, Entry, Remote, Weight};
use heap::{Object, Roots};
use image::{HEAD, Held, RecordKind};
use table::{Message, Table};

// Byte by byte, here and below: `try_into` of a slice would hand back a Result that cannot fail.
pub(crate) fn object_in(l: &[u8]) -> Object
    requires { HEAD_BYTES + length_of Live ≤ length l.now }
    ensures { result ≡ live_object (payload Live l.now) }
{
    Object {
        live: true,
        fields: [l[5], l[6], l[7], l[8]],
    }
}

pub(crate) fn roots_in(l: &[u8]) -> Roots
    requires { HEAD_BYTES + length_of NodeRoots ≤ length l.now }
    ensures { result ≡ roots_of_node (payload NodeRoots l.now) }
{
    Roots {
        at: [l[5], l[6], l[7], l[8], l[9], l[10], l[11], l[12]],
    }
}

pub(crate) fn directory_in(l: &[u8]) -> Entry
    requires { HEAD_BYTES + length_of DirectoryKind ≤ length l.now }
    ensures { result ≡ directory_entry (payload DirectoryKind l.now) }
{
    Entry::AtOwner(Directory {
        rc: number_at(l, 5),
        msg_ctr: returns_at(l, 9),
    })
}

pub(crate) fn remote_in(l: &[u8]) -> Entry
    requires { HEAD_BYTES + length_of RemoteKind ≤ length l.now }
    ensures { result ≡ remote_entry (payload RemoteKind l.now) }
{
    Entry::Elsewhere(Remote {
        rc: number_at(l, 6),
        parent: l[10],
        presence: l[11] == 1,
        msg_ctr: returns_at(l, 12),
        ref_weight: Weight(number_at(l, 16)),
    })
}

pub(crate) fn reference_in(l: &[u8]) -> Message
    requires { HEAD_BYTES + length_of Reference ≤ length l.now }
    ensures { result ≡ reference_message (payload Reference l.now) }
{
    Message::Reference {
        from: l[5],
        to: l[6],
        object: l[7],
    }
}

pub(crate) fn decrement_in(l: &[u8]) -> Message
    requires { HEAD_BYTES + length_of Decrement ≤ length l.now }
    ensures { result ≡ decrement_message (payload Decrement l.now) }
{
    Message::Decrement {
        from: l[5],
        to: l[6],
        object: l[7],
        m: returns_at(l, 8),
        n: Weight(number_at(l, 12)),
    }
}

// What the record tells.
#[tactic(auto, unfolding(image::specs::Find::size_of))]
pub(crate) fn held_in(kind: RecordKind, l: &[u8]) -> Held
    requires { HEAD_BYTES + length_of kind ≤ length l.now }
    ensures held { result ≡ held_in kind (payload kind l.now) }
    ensures small { size_of result ≤ HEAD_BYTES + length_of kind }
{
    match kind {
        RecordKind::Count => Held::Count(number_at(l, HEAD)),
        RecordKind::Live => Held::Object(object_in(l)),
        RecordKind::NodeRoots => Held::Roots(roots_in(l)),
        RecordKind::Directory => Held::Entry(directory_in(l)),
        RecordKind::Remote => Held::Entry(remote_in(l)),
        RecordKind::Reference => Held::Message(reference_in(l)),
        RecordKind::Decrement => Held::Message(decrement_in(l)),
        RecordKind::End | RecordKind::Unknown => Held::Nothing,
    }
}

// Whether the shape allows it.
#[tactic(auto, unfolding(image::specs::Content::fits_record))]
pub(crate) fn fits_record(kind: RecordKind, l: &[u8]) -> bool
    requires { HEAD_BYTES + length_of kind ≤ length l.now }
    ensures { result ≡ fits_record kind (payload kind l.now) }
{
    match kind {
        RecordKind::Count => number_at(l, HEAD) <= Table::EVENTS,
        RecordKind::Live => l[4] < Table::OBJECTS && object_in(l).fits(),
        RecordKind::NodeRoots => l[4] < Table::NODES && roots_in(l).fits(),
        RecordKind::Directory => {
            l[4] < Table::OBJECTS && directory_in(l).fits(l[4] / Entry::OWNED, l[4])
        }
        RecordKind::Remote => {
            l[4] < Table::NODES
                && l[5] < Table::OBJECTS
                && l[11] <= 1
                && remote_in(l).fits(l[4], l[5])
        }
        RecordKind::Reference => l[4] < Table::PLACES && reference_in(l).fits(),
        RecordKind::Decrement => l[4] < Table::PLACES && decrement_in(l).fits(),
        RecordKind::End => true,
        RecordKind::Unknown => false,
    }
}

// Bytes stand behind the end.
pub(crate) fn trails(kind: RecordKind, l: &[u8]) -> bool
    ensures { result ≡ trails kind l.now }
{
    kind == RecordKind::End && HEAD < l.len()
}
