// What stands for an object at every node of an image, and how far its owner is from one of them.
ghost use Rattle.std.specs.Prelude.{◌≡◌, ◌≤◌, unwrap_or, IfSome};
ghost use Rattle.terms.specs.Counted.{list};
ghost use Rattle.terms.specs.Limits.{NODES, STEPS, UNREACHED};
ghost use Rattle.table.specs.declared.Table.{Table as FieldTable};
ghost use Rattle.table.specs.Depth.{depth_report};
ghost use Rattle.plan.specs.Plan.{entry_of};
ghost use Rattle.plan.specs.Told.{Told};

use plan::entry_from;
use std::array;
use table::{Cell, Slot, Table};

// The entries of the object, node by node.
fn cell_in(image: &[u8], o: u8) -> Cell
    ensures { result.at ≡ list NODES (λ p. record { held = entry_of image.now p o }) }
{
    // The cast loses nothing: there are eight nodes.
    Cell {
        at: array::from_fn(|p| Slot {
            held: entry_from(image, 0, p as u8, o).held.entry(),
        }),
    }
}

// How far the owner is along Parent in the table that the image tells of; none, too, for a number out of range.
pub(crate) fn depth_in(image: &[u8], p: u8, o: u8) -> Option<u8>
    ensures report { (t : FieldTable) → Told image.now t → unwrap_or result UNREACHED ≡ depth_report t p o }
    ensures reached { IfSome result (λ d. d ≤ STEPS) }
{
    if Table::NODES <= p || Table::OBJECTS <= o {
        return None;
    }
    cell_in(image, o).depth(p)
}
