// What stands where, and one thing in the table changed. A number out of range reads as nothing, and changes nothing.
// A getter and a setter for each array, in one line each: what they share is the library's `get`.
ghost use Rattle.std.specs.Prelude.{◌≡◌, ◌<◌, unwrap_or, IfSome};
ghost use Rattle.terms.specs.Limits.{PLACES};
ghost use Rattle.table.specs.Table.{entry_in, entry_at, message_at, cell_with, with_entry, with_message, is_empty, empty_place};

use crate::{Cell, Message, Table};
use entry::Entry;

impl Message {
    pub fn is_empty(self) -> bool
        ensures { result ≡ is_empty self }
    {
        matches!(self, Message::Empty)
    }
}

impl Cell {
    // The entry at node p.
    pub fn entry_in(&self, p: u8) -> Entry
        ensures { result ≡ entry_in self.now p }
    {
        self.at
            .get(usize::from(p))
            .map_or(Entry::Absent, |slot| slot.held)
    }

    pub fn set_entry(&mut self, p: u8, e: Entry)
        ensures { self.new ≡ cell_with self.old p e }
    {
        // Not by `get_mut`, here and below: after it a proof knows the array's length and no element.
        if p < Table::NODES {
            self.at[usize::from(p)].held = e;
        }
    }
}

impl Table {
    // The entry of object o at node p.
    pub fn entry_at(&self, p: u8, o: u8) -> Entry
        ensures { result ≡ entry_at self.now p o }
    {
        self.cells
            .get(usize::from(o))
            .map_or(Entry::Absent, |cell| cell.entry_in(p))
    }

    pub fn set_entry(&mut self, p: u8, o: u8, e: Entry)
        ensures { self.new ≡ with_entry self.old p o e }
    {
        if o < Table::OBJECTS {
            self.cells[usize::from(o)].set_entry(p, e);
        }
    }

    // The message in place s.
    pub fn message_at(&self, s: u8) -> Message
        ensures { result ≡ message_at self.now s }
    {
        self.air
            .get(usize::from(s))
            .map_or(Message::Empty, |place| place.held)
    }

    pub fn set_message(&mut self, s: u8, m: Message)
        ensures { self.new ≡ with_message self.old s m }
    {
        if s < Table::PLACES {
            self.air[usize::from(s)].held = m;
        }
    }

    // The lowest empty place.
    pub fn empty_place(&self) -> Option<u8>
        ensures lowest { unwrap_or result PLACES ≡ empty_place self.now }
        ensures place { IfSome result (λ s. s < PLACES) }
    {
        (0..Table::PLACES).find(|&s| self.message_at(s).is_empty())
    }
}
