// An entry of the field table: what one node knows of one object. At the owner it is a directory, elsewhere a remote entry.
#![tactic(auto)]

mod acts; // acts.rt: what an act hands back
mod at_node; // at_node.rt: the acts on whatever stands for an object
mod at_owner; // at_owner.rt: the acts on a directory
mod elsewhere; // elsewhere.rt: the acts on a remote entry
mod returns; // returns.rt: return counts and weights

use terms::Refusal;

// References sent home less those that came home, so a directory's may be below zero.
#[derive(Clone, Copy, Debug, PartialEq, Eq)]
pub struct ReturnCount(pub i32);

// How many references of its Parent's count an entry or a decrement stands for.
#[derive(Clone, Copy, Debug, PartialEq, Eq)]
pub struct Weight(pub u32);

// The owner's entry.
#[derive(Clone, Copy, Debug, PartialEq, Eq)]
pub struct Directory {
    pub rc: u32,
    pub msg_ctr: ReturnCount,
}

// Any other node's entry.
#[derive(Clone, Copy, Debug, PartialEq, Eq)]
pub struct Remote {
    pub rc: u32,
    pub parent: u8,
    pub presence: bool,
    pub msg_ctr: ReturnCount,
    pub ref_weight: Weight,
}

// At most one entry stands for a node and an object. Where none stands there are no numbers either.
// Three cases, as every definition and law has them; an Option of two sorts would be no plainer.
#[derive(Clone, Copy, Debug, PartialEq, Eq)]
pub enum Entry {
    Absent,
    AtOwner(Directory),
    Elsewhere(Remote),
}

// What an act hands back: the entry, and beside it the refusal, if there is one; the entry is then unchanged. The rules want the refusal
// beside the entry, and not in its place as a Result would have it.
#[derive(Clone, Copy, Debug, PartialEq, Eq)]
pub struct Act<E> {
    pub refusal: Option<Refusal>,
    pub entry: E,
}

impl Entry {
    pub const NODES: u8 = terms::NODES;

    pub const OWNED: u8 = terms::OWNED;
}
