// What the summary of a run counts in a table.
ghost use Rattle.std.specs.Prelude.{◌≡◌, not};
ghost use Rattle.terms.specs.Counted.{how_many, sum};
ghost use Rattle.terms.specs.Limits.{OBJECTS, PLACES};
ghost use Rattle.heap.specs.Heap.{is_live};
ghost use Rattle.table.specs.Table.{is_empty, message_at};
ghost use Rattle.run.specs.Run.{entries_of};

use heap::Heap;
use table::Table;

// The casts below lose nothing: there are 64 at most of each sort.
pub(crate) fn live_objects(h: &Heap) -> u32
    ensures { result ≡ how_many OBJECTS (is_live h.now) }
{
    (0..Heap::OBJECTS).filter(|&o| h.is_live(o)).count() as u32
}

// The entries of one object.
fn entries_of(t: &Table, o: u8) -> u32
    ensures { result ≡ entries_of t.now o }
{
    (0..Table::NODES)
        .filter(|&p| !t.entry_at(p, o).is_absent())
        .count() as u32
}

pub(crate) fn entries(t: &Table) -> u32
    ensures { result ≡ sum OBJECTS (entries_of t.now) }
{
    (0..Table::OBJECTS).map(|o| entries_of(t, o)).sum()
}

pub(crate) fn messages(t: &Table) -> u32
    ensures { result ≡ how_many PLACES (λ s. not (is_empty (message_at t.now s))) }
{
    (0..Table::PLACES)
        .filter(|&s| !t.message_at(s).is_empty())
        .count() as u32
}
