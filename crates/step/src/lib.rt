// One event on a field table. The types that an event and its deed have; what each event does stands in specs/.
#![tactic(auto)]

use heap::{Heap, Marks};

mod collect; // collect.rt: COLLECT
mod deeds; // deeds.rt: what is read of a deed
mod drop; // drop.rt: DROP
mod fields; // fields.rt: LOAD and STORE
mod kinds; // kinds.rt: the kind of an event and the ranges of its operands
mod new; // new.rt: NEW
mod receive; // receive.rt: RECEIVE
mod records; // records.rt: an event as a record of bytes
mod roots; // roots.rt: MOVE and CLEAR
mod send; // send.rt: SEND
mod settle; // settle.rt: SETTLE
mod steps; // steps.rt: one step

pub use drop::last_words;
pub use receive::{receipt, reply};
pub use steps::step;

// As it is written in a record: the kind has two bytes, each operand one. The kind stays a number, and the operands have their names, since a
// record may say any of them and the definitions `event` and `kind_of` take them so.
#[derive(Clone, Copy, Debug, PartialEq, Eq)]
pub struct Event {
    pub kind: u16,
    pub a: u8,
    pub b: u8,
    pub c: u8,
    pub d: u8,
}

// Unknown, in place of an `Option`, is what the definition `kind_of` names.
#[derive(Clone, Copy, Debug, PartialEq, Eq)]
pub enum Kind {
    New = 1,
    Move = 2,
    Clear = 3,
    Load = 4,
    Store = 5,
    Send = 6,
    Receive = 7,
    Settle = 8,
    Collect = 9,
    Drop = 10,
    Unknown = 0,
}

// How many values each operand may take, from 0 on. Named as an event's operands are, which `fits_ranges` compares one by one.
#[derive(Clone, Copy, Debug, PartialEq, Eq)]
pub struct Ranges {
    pub a: u8,
    pub b: u8,
    pub c: u8,
    pub d: u8,
}

// What an accepted event did. Its value and the summary of a run are read from this, and from nothing else.
#[derive(Clone, Copy, Debug, PartialEq, Eq)]
pub enum Deed {
    // roots and fields only: MOVE, CLEAR, LOAD, STORE
    Arranged,
    // NEW: the object
    Born(u8),
    // SEND: the place of the reference
    Sent(u8),
    // RECEIVE at the owner
    CameHome,
    // RECEIVE where no entry stood: one was made
    Made,
    // RECEIVE from the Parent: merged into RefWeight
    Merged,
    // RECEIVE from another sender: answered with a decrement in this place
    Answered(u8),
    // SETTLE
    Settled,
    // COLLECT: how many objects were reclaimed
    Collected(u32),
    // DROP of a remote entry: the place of its decrement
    Dropped(u8),
    // DROP of a directory
    Cleared,
}

// COLLECT at a node: what is asked there before anything goes, and by which it goes.
#[derive(Clone, Copy)]
pub struct Collection {
    pub heap: Heap,
    pub node: u8,
    // for each object, whether the node has an entry for it with Presence true
    pub present: Marks,
    // the node's objects that are started from or reached, on that node only
    pub kept: Marks,
    // what a root of the node or a kept object holds
    pub held: Marks,
}
