// DROP P o: the entry of o at P is deleted; a remote one sends its MsgCtr and RefWeight to its Parent.
ghost use Rattle.std.specs.Prelude.{◌≡◌};
ghost use Rattle.step.specs.Drop.{drop, last_words};
ghost use Rattle.step.specs.Outcome.{by, outcome_of};

use crate::Deed;
use entry::{Entry, Remote};
use table::{Message, Table};
use terms::Refusal;

// What a remote entry says as it goes: its return count and its whole weight, to its Parent.
pub fn last_words(p: u8, o: u8, e: Remote) -> Message
    ensures { result ≡ last_words p o e }
{
    Message::Decrement {
        from: p,
        to: e.parent,
        object: o,
        m: e.msg_ctr,
        n: e.ref_weight,
    }
}

#[tactic(auto, unfolding(crate::specs::Drop::drop_of))]
pub(crate) fn drop(t: &mut Table, p: u8, o: u8) -> Result<Deed, Refusal>
    ensures { outcome_of result t.new ≡ by t.old (drop t.old p o) }
{
    let e = t.entry_at(p, o);
    let deed = match e {
        Entry::Absent => return Err(Refusal::NoEntry),
        _ if !e.may_go() => return Err(Refusal::Busy),
        Entry::AtOwner(_) => Deed::Cleared,
        Entry::Elsewhere(remote) => {
            let s = t.empty_place().ok_or(Refusal::Full)?;
            t.set_message(s, last_words(p, o, remote));
            Deed::Dropped(s)
        }
    };
    t.set_entry(p, o, Entry::Absent);
    Ok(deed)
}
