// RECEIVE s r: the reference in s reaches its node, into the empty root r of that node.
ghost use Rattle.std.specs.Prelude.{◌≡◌};
ghost use Rattle.step.specs.Deed.{deed_of};
ghost use Rattle.step.specs.Outcome.{by, outcome_of};
ghost use Rattle.step.specs.Receive.{receive, reply, receipt};

use crate::Deed;
use crate::send::is_dead_own;
use entry::{Entry, ReturnCount, Weight};
use heap::Heap;
use table::{Message, Table};
use terms::Refusal;

// What is left in the place: a decrement to a sender that isn't the Parent, else nothing.
pub fn reply(from: u8, to: u8, o: u8, e: Entry) -> Message
    ensures { result ≡ reply from to o e }
{
    match e {
        Entry::Elsewhere(remote) if remote.parent != from => Message::Decrement {
            from: to,
            to: from,
            object: o,
            m: ReturnCount(0),
            n: Weight(1),
        },
        _ => Message::Empty,
    }
}

// What the receipt was, by the entry that it found.
pub fn receipt(s: u8, from: u8, e: Entry) -> Deed
    ensures { deed_of result ≡ receipt s from e }
{
    match e {
        Entry::Absent => Deed::Made,
        Entry::AtOwner(_) => Deed::CameHome,
        Entry::Elsewhere(remote) if remote.parent == from => Deed::Merged,
        Entry::Elsewhere(_) => Deed::Answered(s),
    }
}

#[tactic(auto, unfolding(crate::specs::Receive::receive_of))]
pub(crate) fn receive(t: &mut Table, s: u8, r: u8) -> Result<Deed, Refusal>
    ensures { outcome_of result t.new ≡ by t.old (receive t.old s r) }
{
    let Message::Reference { from, to, object } = t.message_at(s) else {
        return Err(Refusal::NoMessage);
    };
    if t.heap.root(to, r) != Heap::NONE {
        return Err(Refusal::Root);
    }
    // At the owner, the object not live or no directory; or a count that would leave its range.
    let e = t.entry_at(to, object);
    let act = e.received(from, to, object);
    if is_dead_own(t, to, object) || act.refuses() {
        return Err(Refusal::Torn);
    }
    t.set_message(s, reply(from, to, object, e));
    t.set_entry(to, object, act.entry);
    t.heap.set_root(to, r, object);
    Ok(receipt(s, from, e))
}
