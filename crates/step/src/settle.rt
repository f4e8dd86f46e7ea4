// SETTLE s: the decrement in s reaches its node.
ghost use Rattle.std.specs.Prelude.{◌≡◌};
ghost use Rattle.step.specs.Outcome.{by, outcome_of};
ghost use Rattle.step.specs.Settle.{settle};

use crate::Deed;
use table::{Message, Table};
use terms::Refusal;

#[tactic(auto, unfolding(crate::specs::Settle::settle_of))]
pub(crate) fn settle(t: &mut Table, s: u8) -> Result<Deed, Refusal>
    ensures { outcome_of result t.new ≡ by t.old (settle t.old s) }
{
    let Message::Decrement {
        to,
        object,
        m,
        n,
        ..
    } = t.message_at(s)
    else {
        return Err(Refusal::NoMessage);
    };
    let act = t.entry_at(to, object).settled(m, n);
    if act.refuses() {
        return Err(Refusal::Torn);
    }
    t.set_message(s, Message::Empty);
    t.set_entry(to, object, act.entry);
    Ok(Deed::Settled)
}
