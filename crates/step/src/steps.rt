// One step: what any event may be refused for, then the event's own rule, and the count.
ghost use Rattle.std.specs.Prelude.{true, ◌≡◌};
ghost use Rattle.step.specs.Event.{fits_event};
ghost use Rattle.step.specs.Outcome.{by, outcome_of};
ghost use Rattle.step.specs.Step.{rule_of, step};

use crate::collect::collect;
use crate::drop::drop;
use crate::fields::{load, store};
use crate::new::new;
use crate::receive::receive;
use crate::roots::{clear_root, move_root};
use crate::send::send;
use crate::settle::settle;
use crate::{Deed, Event, Kind};
use table::Table;
use terms::Refusal;

// The rule of the event's kind. Its operands go one by one, as the definition of each rule takes them.
#[tactic(auto, unfolding(crate::specs::Step::rule_for))]
fn by_rule(t: &mut Table, e: Event) -> Result<Deed, Refusal>
    requires { fits_event e ≡ true }
    ensures { outcome_of result t.new ≡ by t.old (rule_of t.old e) }
{
    match Kind::from(e.kind) {
        Kind::New => new(t, e.a, e.b),
        Kind::Move => move_root(t, e.a, e.b, e.c),
        Kind::Clear => clear_root(t, e.a, e.b),
        Kind::Load => load(t, e.a, e.b, e.c, e.d),
        Kind::Store => store(t, e.a, e.b, e.c, e.d),
        Kind::Send => send(t, e.a, e.b, e.c),
        Kind::Receive => receive(t, e.a, e.b),
        Kind::Settle => settle(t, e.a),
        Kind::Collect => collect(t, e.a),
        Kind::Drop => drop(t, e.a, e.b),
        Kind::Unknown => Err(Refusal::Event),
    }
}

// Every table and every event is answered. An accepted event adds 1 to the count; a refused one leaves the table as it was.
#[tactic(auto, unfolding(crate::specs::Step::step))]
pub fn step(t: &mut Table, e: Event) -> Result<Deed, Refusal>
    ensures { outcome_of result t.new ≡ step t.old e }
{
    if !t.fits() {
        return Err(Refusal::Shape);
    }
    if !e.fits() {
        return Err(Refusal::Event);
    }
    if Table::EVENTS <= t.count {
        return Err(Refusal::Ended);
    }
    // Taken before, since a rule's promise is of the whole table.
    let n = t.count;
    let deed = by_rule(t, e)?;
    t.count = n + 1;
    Ok(deed)
}
