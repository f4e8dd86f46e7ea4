// LOAD and STORE: a field of the object in root q, which must be P's own and live. What they ask is one function; what they set differs.
ghost use Rattle.std.specs.Prelude.{◌≡◌};
ghost use Rattle.step.specs.Load.{load};
ghost use Rattle.step.specs.Named.{in_reach};
ghost use Rattle.step.specs.Outcome.{by, outcome_of};
ghost use Rattle.step.specs.Store.{store};

use crate::Deed;
use crate::roots::named;
use heap::Heap;
use table::Table;
use terms::Refusal;

// The object in root q of p, if its fields are in p's reach.
fn in_reach(h: &Heap, p: u8, q: u8) -> Result<u8, Refusal>
    ensures { result ≡ in_reach h.now p q }
{
    let o = named(h, p, q)?;
    if o / Heap::OWNED != p {
        return Err(Refusal::Away);
    }
    if !h.is_live(o) {
        return Err(Refusal::Torn);
    }
    Ok(o)
}

// LOAD P r q f: root r takes field f of the object in root q.
#[tactic(auto, unfolding(crate::specs::Load::load))]
pub(crate) fn load(t: &mut Table, p: u8, r: u8, q: u8, f: u8) -> Result<Deed, Refusal>
    ensures { outcome_of result t.new ≡ by t.old (load t.old p r q f) }
{
    let o = in_reach(&t.heap, p, q)?;
    t.heap.set_root(p, r, t.heap.field(o, f));
    Ok(Deed::Arranged)
}

// STORE P q f r: field f of the object in root q takes what root r holds.
#[tactic(auto, unfolding(crate::specs::Store::store))]
pub(crate) fn store(t: &mut Table, p: u8, q: u8, f: u8, r: u8) -> Result<Deed, Refusal>
    ensures { outcome_of result t.new ≡ by t.old (store t.old p q f r) }
{
    let o = in_reach(&t.heap, p, q)?;
    t.heap.set_field(o, f, t.heap.root(p, r));
    Ok(Deed::Arranged)
}
