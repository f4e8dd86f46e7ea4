// NEW P r: the lowest object of P that isn't live becomes live, and the empty root r names it.
ghost use Rattle.std.specs.Prelude.{◌≡◌, ◌<◌};
ghost use Rattle.terms.specs.Limits.{NODES};
ghost use Rattle.step.specs.New.{new};
ghost use Rattle.step.specs.Outcome.{by, outcome_of};

use crate::Deed;
use heap::Heap;
use table::Table;
use terms::Refusal;

#[tactic(auto, unfolding(crate::specs::New::new))]
pub(crate) fn new(t: &mut Table, p: u8, r: u8) -> Result<Deed, Refusal>
    requires { p < NODES }
    ensures { outcome_of result t.new ≡ by t.old (new t.old p r) }
{
    if t.heap.root(p, r) != Heap::NONE {
        return Err(Refusal::Root);
    }
    let o = Heap::OWNED * p + t.heap.free_own(p).ok_or(Refusal::NoRoom)?;
    if !t.entry_at(p, o).is_absent() {
        return Err(Refusal::Torn);
    }
    t.heap.set_born(o);
    t.heap.set_root(p, r, o);
    Ok(Deed::Born(o))
}
