// What an event comes to on an image, asked where it lies: no table is made of it, and nothing is changed yet, so that the rules of step, which
// change one, are no twins of these. Any bytes are taken; on an accepted image a plan is what the event's rule does on the table that the image
// tells of (specs/Plans.antt, specs/SweepLaws.antt).
#![tactic(auto)]

mod changes; // changes.rt: the parts that a plan is made of
mod heap_plans; // heap_plans.rt: what NEW, MOVE, CLEAR, LOAD and STORE come to
mod lookups; // lookups.rt: what an image tells, looked for from a place on
mod message_plans; // message_plans.rt: what SEND, RECEIVE, SETTLE and DROP come to
mod plans; // plans.rt: the plan of an event, kind by kind
mod sweeps; // sweeps.rt: what COLLECT comes to

ghost use Rattle.std.specs.Prelude.{◌<◌};
ghost use Rattle.terms.specs.Limits.{NODES};

pub use changes::replaced;
use heap::Heap;
use image::Held;
pub use lookups::{entry_from, object_from};
pub use plans::plan_of;
use step::Deed;
pub use sweeps::sweep_of;

// A part of the image replaced by another record: from where to where in the bytes, and what is to stand there of object, node or place a, or
// of object b at node a. The numbers stand side by side, as `To at after a b held` has them.
#[derive(Clone, Copy)]
pub struct Replacement {
    pub at: usize,
    pub after: usize,
    pub a: u8,
    pub b: u8,
    pub held: Held,
}

// What an accepted event comes to on an image: the deed as it is of the table, and the changes besides the event count, in the order of the image.
#[derive(Clone, Copy)]
pub struct Plan {
    pub deed: Deed,
    pub object: Option<Replacement>,
    pub roots: Option<Replacement>,
    pub entry: Option<Replacement>,
    pub message: Option<Replacement>,
}

// What an accepted COLLECT comes to on an image: at which node, how many objects are reclaimed, which they are, and for which objects of other
// nodes the entry is no longer used: lists, as the definitions of specs/Sweep.antt take them.
#[derive(Clone, Copy)]
pub struct Sweep {
    pub node: u8,
    pub reclaimed: u32,
    pub gone: [bool; Heap::OBJECTS as usize],
    pub unused: [bool; Heap::OBJECTS as usize],
    pub ghost is_node: { node < NODES },
}
