// The saved image of a table: the types that its definitions, in specs/, and its reader and writer, two crates above this one, speak of.
#![tactic(auto)]

mod kinds; // kinds.rt: the kinds of record, and how many bytes each has
mod told; // told.rt: what a record tells, taken apart

use entry::Entry;
use heap::{Object, Roots};
pub use kinds::HEAD;
use table::{Message, Table};
use terms::Refusal;

// A table, or why there is none. No `Result`, since a refused read hands back the fresh table.
#[derive(Clone, Copy)]
pub struct Loaded {
    pub refusal: Option<Refusal>,
    pub table: Table,
}

// What a record tells of the field. The definitions of specs/Find.antt name `Nothing`, so there is no `Option` round it.
#[derive(Clone, Copy)]
pub enum Held {
    Nothing,
    Count(u32),
    Object(Object),
    Roots(Roots),
    Entry(Entry),
    Message(Message),
}

// What stands at a position of the image order: from where to where in the bytes, and what it tells. Where nothing stands, from and to are
// the place where it would.
#[derive(Clone, Copy)]
pub struct Found {
    pub at: usize,
    pub after: usize,
    pub held: Held,
}

// The bytes of one record, and how many of them count: no slice, since the record is made where the caller has no buffer, and `Tells` of
// specs/RecordBytes.antt names both.
#[derive(Clone, Copy)]
pub struct RecordBytes {
    pub bytes: [u8; 20],
    pub length: usize,
}

// The kinds of record; a number that stands for none is of kind `Unknown`, which the definitions of specs/Records.antt name.
#[derive(Clone, Copy, Debug, PartialEq, Eq)]
pub enum RecordKind {
    Count = 0x0100,
    Live = 0x0101,
    NodeRoots = 0x0102,
    Directory = 0x0103,
    Remote = 0x0104,
    Reference = 0x0105,
    Decrement = 0x0106,
    End = 0x01FF,
    Unknown = 0,
}

// The records that may come next: from one position of the image order up to another, both included. No `RangeInclusive`, which is not `Copy`;
// and the definitions of the order name it.
#[derive(Clone, Copy)]
pub struct Turn {
    pub first: u32,
    pub last: u32,
}

// Where a record stands in the image order, the number of the thing that it is about, and what may come after it.
#[derive(Clone, Copy)]
pub struct Spot {
    pub at: u32,
    pub key: usize,
    pub next: Turn,
}

// The record at the front of the bytes: its kind, the number of the thing that it is about, what may come after it, and how many bytes it has.
#[derive(Clone, Copy)]
pub struct Front {
    pub kind: RecordKind,
    pub key: usize,
    pub next: Turn,
    pub length: usize,
}

impl Turn {
    // An image begins with the event count.
    pub const FIRST: Turn = Turn { first: 0, last: 0 };
}
