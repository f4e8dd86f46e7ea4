// How far the owner is along Parent.
ghost use Rattle.std.specs.Prelude.{◌≡◌, ℕ, ◌<◌, ◌≤◌, IfSome};
ghost use Rattle.terms.specs.Limits.{STEPS};
ghost use Rattle.table.specs.declared.Table.{Table};
ghost use Rattle.table.specs.Table.{cell_at};
ghost use Rattle.table.specs.Depth.{depth_of, depth_by, depth, depth_report};

use crate::{Cell, Table};
use entry::Entry;

impl Cell {
    // The depth of the object whose cell it is at node p, for every table that has this cell.
    pub fn depth(&self, p: u8) -> Option<u8>
        ensures { (t : Table) (o : ℕ) → cell_at t o ≡ self.now → depth_of result ≡ depth t p o }
    {
        self.depth_by(p, Table::STEPS)
    }

    // By at most `left` steps, which fall with each call, as the definition has it.
    #[tactic(auto, unfolding(crate::specs::Depth::depth_by))]
    fn depth_by(&self, p: u8, left: u8) -> Option<u8>
        ensures steps { (t : Table) (o : ℕ) → cell_at t o ≡ self.now → depth_of result ≡ depth_by left t o p }
        ensures bound { IfSome result (λ d. d ≤ left) }
    {
        match self.entry_in(p) {
            Entry::AtOwner(_) => Some(0),
            Entry::Elsewhere(e) if 0 < left => Some(self.depth_by(e.parent, left - 1)? + 1),
            _ => None,
        }
    }
}

impl Table {
    // What the report says where there is no depth: its definition fixes the number.
    pub const UNREACHED: u8 = 255;

    // The depth of object o at node p.
    #[tactic(auto, unfolding(crate::specs::Depth::depth_by))]
    pub fn depth(&self, p: u8, o: u8) -> Option<u8>
        ensures { depth_of result ≡ depth self.now p o }
    {
        self.cells.get(usize::from(o))?.depth(p)
    }

    // The depth as a number for the outside, for whoever has a table (the host call asks the image): UNREACHED where there is none, for a number out of range, and for a table that breaks the shape.
    #[tactic(auto, unfolding(crate::specs::Depth::depth_report))]
    pub fn depth_report(&self, p: u8, o: u8) -> u8
        ensures { result ≡ depth_report self.now p o }
    {
        if p < Table::NODES && o < Table::OBJECTS && self.fits() {
            self.depth(p, o).unwrap_or(Table::UNREACHED)
        } else {
            Table::UNREACHED
        }
    }
}
