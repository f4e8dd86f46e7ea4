// The shape that every table must have.
ghost use Rattle.std.specs.Prelude.{◌≡◌};
ghost use Rattle.terms.specs.Counted.{every};
ghost use Rattle.terms.specs.Limits.{OBJECTS, PLACES};
ghost use Rattle.table.specs.Shape.{fits_way, fits_message, fits_cell, fits_table};
ghost use Rattle.table.specs.Table.{cell_at, message_at};

use crate::{Cell, Message, Table};

impl Message {
    // A way through the air: from a node to another, of an object.
    fn fits_way(from: u8, to: u8, object: u8) -> bool
        ensures { result ≡ fits_way from to object }
    {
        from < Table::NODES && to < Table::NODES && from != to && object < Table::OBJECTS
    }

    #[tactic(auto, unfolding(crate::specs::Shape::fits_message))]
    pub fn fits(self) -> bool
        ensures { result ≡ fits_message self }
    {
        match self {
            Message::Empty => true,
            Message::Reference { from, to, object } => Message::fits_way(from, to, object),
            Message::Decrement {
                from,
                to,
                object,
                m,
                n,
            } => Message::fits_way(from, to, object) && m.fits() && n.fits(),
        }
    }
}

impl Cell {
    // As what is known of object o.
    #[tactic(auto, unfolding(crate::specs::Shape::fits_cell))]
    pub fn fits(&self, o: u8) -> bool
        ensures { result ≡ fits_cell o self.now }
    {
        (0..Table::NODES)
            .zip(&self.at)
            .all(|(p, slot)| slot.held.fits(p, o))
    }
}

impl Table {
    fn cells_fit(&self) -> bool
        ensures { result ≡ every OBJECTS (λ o. fits_cell o (cell_at self.now o)) }
    {
        (0..Table::OBJECTS)
            .zip(&self.cells)
            .all(|(o, cell)| cell.fits(o))
    }

    fn messages_fit(&self) -> bool
        ensures { result ≡ every PLACES (λ s. fits_message (message_at self.now s)) }
    {
        self.air.iter().all(|place| place.held.fits())
    }

    #[tactic(auto, unfolding(crate::specs::Shape::fits_table))]
    pub fn fits(&self) -> bool
        ensures { result ≡ fits_table self.now }
    {
        self.count <= Table::EVENTS && self.heap.fits() && self.cells_fit() && self.messages_fit()
    }
}
