// What SEND, RECEIVE, SETTLE and DROP come to on an image, asked where it lies.
ghost use Rattle.std.specs.Prelude.{◌≡◌, ◌<◌, MatchOption};
ghost use Rattle.terms.specs.Limits.{PLACES};
ghost use Rattle.plan.specs.Made.{plan_made};
ghost use Rattle.plan.specs.Plan.{entry_of, message_of, message_spot, empty_place_in, send_plan, receive_plan, settle_plan, drop_plan};

use crate::Plan;
use crate::changes::replaced;
use crate::lookups::{entry_from, is_dead_own, message_from, roots_from};
use entry::Entry;
use heap::Heap;
use image::{Found, Held};
use step::{Deed, last_words, receipt, reply};
use table::{Message, Table};
use terms::Refusal;

// The lowest place without a message and what stands there, in one pass over the messages: each is looked for from the end of the one before it,
// so no `find`. Nothing stands there where it begins and ends at one place, as `empty_place_in` asks it.
fn empty_place(l: &[u8]) -> Option<(u8, Found)>
    ensures { MatchOption result (empty_place_in l.now ≡ PLACES)
        (λ x. (x.0 < PLACES) × (x.0 ≡ empty_place_in l.now) × (x.1 ≡ message_spot l.now x.0)) }
{
    let mut from = 0;
    for s in 0..Table::PLACES {
        let found = message_from(l, from, s);
        if found.at == found.after {
            return Some((s, found));
        }
        from = found.after;
    }
    None
}

// SEND P r Q, o the object in root r
#[tactic(auto, unfolding(crate::specs::Plan::send_plan))]
pub(crate) fn send_plan(l: &[u8], p: u8, q: u8, o: u8) -> Result<Plan, Refusal>
    ensures { plan_made result ≡ send_plan l.now p q o }
{
    if p == q {
        return Err(Refusal::ToItself);
    }
    if o == Heap::NONE {
        return Err(Refusal::Empty);
    }
    if is_dead_own(l, p, o) {
        return Err(Refusal::Torn);
    }
    let found = entry_from(l, 0, p, o);
    let act = found.held.entry().sent(p, q, o);
    if act.refuses() {
        return Err(Refusal::Torn);
    }
    let (s, place) = empty_place(l).ok_or(Refusal::Full)?;
    let message = Message::Reference {
        from: p,
        to: q,
        object: o,
    };
    Ok(Plan {
        entry: Some(replaced(found, p, o, Held::Entry(act.entry))),
        message: Some(replaced(place, s, 0, Held::Message(message))),
        ..Plan::of(Deed::Sent(s))
    })
}

// RECEIVE s r
#[tactic(auto, unfolding(crate::specs::Plan::receive_plan))]
pub(crate) fn receive_plan(l: &[u8], s: u8, r: u8) -> Result<Plan, Refusal>
    ensures { plan_made result ≡ receive_plan l.now s r (message_of l.now s) }
{
    let place = message_from(l, 0, s);
    let Message::Reference {
        from,
        to,
        object: o,
    } = place.held.message()
    else {
        return Err(Refusal::NoMessage);
    };
    let rooted = roots_from(l, 0, to);
    let mut roots = rooted.held.roots();
    if roots.root(r) != Heap::NONE {
        return Err(Refusal::Root);
    }
    if is_dead_own(l, to, o) {
        return Err(Refusal::Torn);
    }
    let found = entry_from(l, 0, to, o);
    let e = found.held.entry();
    let act = e.received(from, to, o);
    if act.refuses() {
        return Err(Refusal::Torn);
    }
    let left = reply(from, to, o, e);
    roots.set_root(r, o);
    Ok(Plan {
        roots: Some(replaced(rooted, to, 0, Held::Roots(roots))),
        entry: Some(replaced(found, to, o, Held::Entry(act.entry))),
        message: Some(replaced(place, s, 0, Held::Message(left))),
        ..Plan::of(receipt(s, from, e))
    })
}

// SETTLE s
#[tactic(auto, unfolding(crate::specs::Plan::settle_plan))]
pub(crate) fn settle_plan(l: &[u8], s: u8) -> Result<Plan, Refusal>
    ensures { plan_made result ≡ settle_plan l.now s (message_of l.now s) }
{
    let place = message_from(l, 0, s);
    let Message::Decrement {
        to,
        object: o,
        m,
        n,
        ..
    } = place.held.message()
    else {
        return Err(Refusal::NoMessage);
    };
    let found = entry_from(l, 0, to, o);
    let act = found.held.entry().settled(m, n);
    if act.refuses() {
        return Err(Refusal::Torn);
    }
    Ok(Plan {
        entry: Some(replaced(found, to, o, Held::Entry(act.entry))),
        message: Some(replaced(place, s, 0, Held::Nothing)),
        ..Plan::of(Deed::Settled)
    })
}

// DROP P o
#[tactic(auto, unfolding(crate::specs::Plan::drop_plan))]
pub(crate) fn drop_plan(l: &[u8], p: u8, o: u8) -> Result<Plan, Refusal>
    ensures { plan_made result ≡ drop_plan l.now p o (entry_of l.now p o) }
{
    let found = entry_from(l, 0, p, o);
    let e = found.held.entry();
    if e.is_absent() {
        return Err(Refusal::NoEntry);
    }
    if !e.may_go() {
        return Err(Refusal::Busy);
    }
    let gone = Some(replaced(found, p, o, Held::Nothing));
    let Entry::Elsewhere(remote) = e else {
        return Ok(Plan {
            entry: gone,
            ..Plan::of(Deed::Cleared)
        });
    };
    let (s, place) = empty_place(l).ok_or(Refusal::Full)?;
    Ok(Plan {
        entry: gone,
        message: Some(replaced(place, s, 0, Held::Message(last_words(p, o, remote)))),
        ..Plan::of(Deed::Dropped(s))
    })
}
