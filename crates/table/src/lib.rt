// The field table: the event count, what the controllers hold, who knows of what, and the messages in the air.
#![tactic(auto)]

mod access; // access.rt: what stands where, and one thing in the table changed
mod distance; // distance.rt: how far the owner is along Parent
mod fits; // fits.rt: the shape that every table must have

ghost use Rattle.std.specs.Prelude.{◌≡◌};
ghost use Rattle.table.specs.Table.{fresh_table};

use entry::{Entry, ReturnCount, Weight};
use heap::Heap;

// What a message place holds. A decrement's return count and weight travel side by side and cannot be exchanged. The way, from a node to another,
// is no struct of its own: the definitions `fits_message` and `is_reference_of` have its numbers side by side. Empty is a case, as they have it: an
// Option of two sorts would be no plainer.
#[derive(Clone, Copy)]
pub enum Message {
    Empty,
    Reference {
        from: u8,
        to: u8,
        object: u8,
    },
    Decrement {
        from: u8,
        to: u8,
        object: u8,
        m: ReturnCount,
        n: Weight,
    },
}

// A struct, since the definitions of specs/Table.antt write `record { held = .. }`. A slot is another, since the definitions of an image and of a
// plan name the two apart.
#[derive(Clone, Copy)]
pub struct Place {
    pub held: Message,
}

#[derive(Clone, Copy)]
pub struct Slot {
    pub held: Entry,
}

// All that is known of one object: an entry for each node, or none. The length is a constant, which takes no `From`: so `as`, here and below.
#[derive(Clone, Copy)]
pub struct Cell {
    pub at: [Slot; Table::NODES as usize],
}

#[derive(Clone, Copy)]
pub struct Table {
    pub count: u32,
    pub heap: Heap,
    pub cells: [Cell; Table::OBJECTS as usize],
    pub air: [Place; Table::PLACES as usize],
}

impl Table {
    pub const NODES: u8 = Heap::NODES;

    pub const OBJECTS: u8 = Heap::OBJECTS;

    pub const PLACES: u8 = 64;

    pub const EVENTS: u32 = 1_000_000_000;

    // The most steps from a remote entry along Parent to the owner.
    pub const STEPS: u8 = 7;

    // Nothing live, all roots and fields empty, no entry, no message, count 0.
    pub fn fresh() -> Table
        ensures { result ≡ fresh_table }
    {
        Table {
            count: 0,
            heap: Heap::fresh(),
            cells: [Cell {
                at: [Slot {
                    held: Entry::Absent,
                }; Table::NODES as usize],
            }; Table::OBJECTS as usize],
            air: [Place {
                held: Message::Empty,
            }; Table::PLACES as usize],
        }
    }
}
