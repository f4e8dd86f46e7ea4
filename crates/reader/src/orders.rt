// The order of records: where each stands, and what may come after it.
ghost use Rattle.std.specs.Prelude.{◌≡◌, [], ◌∷◌, ◌+◌, ◌<◌, ◌≤◌, length};
ghost use Rattle.image.specs.Front.{spot, up_to, spot_of};
ghost use Rattle.image.specs.Order.{position_of};
ghost use Rattle.image.specs.Reader.{payload};
ghost use Rattle.image.specs.Records.{HEAD as HEAD_BYTES, length_of};
ghost use Rattle.image.specs.declared.RecordKind.TheVariants.{NodeRoots};

use image::{HEAD, RecordKind, Spot, Turn};
use table::Table;

// The positions of a section of the image.
const SECTION: u32 = 65536;

// The first position of each section; the event count stands before them.
const OBJECTS: u32 = SECTION;

const ROOTS: u32 = 2 * SECTION;

const DIRECTORIES: u32 = 3 * SECTION;

const REMOTES: u32 = 4 * SECTION;

const MESSAGES: u32 = 5 * SECTION;

const END: u32 = 6 * SECTION;

// No record stands from here on.
const PAST: u32 = 7 * SECTION;

const LAST_NODE: u8 = Table::NODES - 1;

// At a position, before a section that has a first position of its own.
fn before(at: u32, key: u8, first: u32, last: u32) -> Spot
    ensures { result ≡ spot at key first last }
{
    Spot {
        at,
        key: usize::from(key),
        next: Turn { first, last },
    }
}

// The thing of this number in a section, before whatever rises from it up to the last.
fn up_to(section: u32, key: u8, last: u32) -> Spot
    requires { section < 458752 }
    ensures { result ≡ up_to section key last }
{
    let at = section + u32::from(key);
    before(at, key, at + 1, last)
}

// A node's roots: the next node's come after them, and after the last node's all that follows.
fn roots_spot(p: u8) -> Spot
    ensures { result ≡ spot_of NodeRoots (p ∷ []) }
{
    let at = ROOTS + u32::from(p);
    if p < LAST_NODE {
        before(at, p, at + 1, at + 1)
    } else {
        before(at, p, DIRECTORIES, END)
    }
}

// The spot of a record by its kind and its first two bytes.
fn spot_at(kind: RecordKind, a: u8, b: u8) -> Spot
    ensures { result ≡ spot_of kind (a ∷ b ∷ []) }
{
    match kind {
        RecordKind::Count => before(0, 0, OBJECTS, ROOTS),
        RecordKind::Live => up_to(OBJECTS, a, ROOTS),
        RecordKind::NodeRoots => roots_spot(a),
        RecordKind::Directory => up_to(DIRECTORIES, a, END),
        RecordKind::Remote => up_to(REMOTES + 256 * u32::from(a), b, END),
        RecordKind::Reference | RecordKind::Decrement => up_to(MESSAGES, a, END),
        RecordKind::End => before(END, 0, PAST, END),
        RecordKind::Unknown => before(PAST, 0, PAST, END),
    }
}

// The position of a record by its kind and its first two bytes.
pub fn place_of(kind: RecordKind, a: u8, b: u8) -> u32
    ensures { result ≡ position_of kind (a ∷ b ∷ []) }
{
    spot_at(kind, a, b).at
}

// The spot of the record at the front of the bytes.
pub(crate) fn spot_of(kind: RecordKind, l: &[u8]) -> Spot
    requires { HEAD_BYTES + length_of kind ≤ length l.now }
    ensures { result ≡ spot_of kind (payload kind l.now) }
{
    match kind {
        // Their payload is empty.
        RecordKind::End | RecordKind::Unknown => spot_at(kind, 0, 0),
        _ => spot_at(kind, l[HEAD], l[HEAD + 1]),
    }
}
