// SEND P r Q: the reference in root r goes into the lowest empty place; root r keeps it.
ghost use Rattle.std.specs.Prelude.{◌≡◌};
ghost use Rattle.step.specs.Outcome.{by, outcome_of};
ghost use Rattle.step.specs.Send.{is_dead_own, send};

use crate::Deed;
use crate::roots::named;
use heap::Heap;
use table::{Message, Table};
use terms::Refusal;

// An object of p that isn't live.
pub(crate) fn is_dead_own(t: &Table, p: u8, o: u8) -> bool
    ensures { result ≡ is_dead_own t.now p o }
{
    o / Heap::OWNED == p && !t.heap.is_live(o)
}

#[tactic(auto, unfolding(crate::specs::Send::send))]
pub(crate) fn send(t: &mut Table, p: u8, r: u8, q: u8) -> Result<Deed, Refusal>
    ensures { outcome_of result t.new ≡ by t.old (send t.old p r q) }
{
    if p == q {
        return Err(Refusal::ToItself);
    }
    let o = named(&t.heap, p, r)?;
    // Own object not live, no entry with Presence true for another's, or a count that would leave its range.
    let act = t.entry_at(p, o).sent(p, q, o);
    if is_dead_own(t, p, o) || act.refuses() {
        return Err(Refusal::Torn);
    }
    let s = t.empty_place().ok_or(Refusal::Full)?;
    t.set_entry(p, o, act.entry);
    t.set_message(
        s,
        Message::Reference {
            from: p,
            to: q,
            object: o,
        },
    );
    Ok(Deed::Sent(s))
}
