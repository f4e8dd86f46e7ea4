// MOVE and CLEAR: what changes roots alone. Also what other events ask of a root.
ghost use Rattle.std.specs.Prelude.{◌≡◌};
ghost use Rattle.step.specs.Clear.{clear};
ghost use Rattle.step.specs.Move.{move};
ghost use Rattle.step.specs.Named.{named};
ghost use Rattle.step.specs.Outcome.{by, outcome_of};

use crate::Deed;
use heap::Heap;
use table::Table;
use terms::Refusal;

// The object in root q of p.
pub(crate) fn named(h: &Heap, p: u8, q: u8) -> Result<u8, Refusal>
    ensures { result ≡ named h.now p q }
{
    match h.root(p, q) {
        Heap::NONE => Err(Refusal::Empty),
        o => Ok(o),
    }
}

// MOVE P r q: root r takes what root q holds, empty too.
pub(crate) fn move_root(t: &mut Table, p: u8, r: u8, q: u8) -> Result<Deed, Refusal>
    ensures { outcome_of result t.new ≡ by t.old (move t.old p r q) }
{
    t.heap.set_root(p, r, t.heap.root(p, q));
    Ok(Deed::Arranged)
}

// CLEAR P r: root r becomes empty.
#[tactic(auto, unfolding(crate::specs::Clear::clear))]
pub(crate) fn clear_root(t: &mut Table, p: u8, r: u8) -> Result<Deed, Refusal>
    ensures { outcome_of result t.new ≡ by t.old (clear t.old p r) }
{
    t.heap.set_root(p, r, Heap::NONE);
    Ok(Deed::Arranged)
}
