// One event on an accepted image: the tests that any event meets, what it comes to, and the new image.
ghost use Rattle.std.specs.Prelude.{◌≡◌, ◌≢◌, ◌+◌, ◌≤◌, length};
ghost use Rattle.terms.specs.Numbers.{ACCEPTED};
ghost use Rattle.image.specs.Reader.{read};
ghost use Rattle.image.specs.Stored.{FULL};
ghost use Rattle.step.specs.declared.Kind.TheVariants.{Collect};
ghost use Rattle.step.specs.Event.{kind_of};
ghost use Rattle.plan.specs.Made.{accepted_plan, accepted_sweep};
ghost use Rattle.plan.specs.Plan.{changes_of};
ghost use Rattle.plan.specs.Sweep.{sweep_changes};
ghost use Rattle.etzvanul.specs.Amended.{Back, Asked};
ghost use Rattle.etzvanul.specs.Comes.{plan_call, sweep_call};
ghost use Rattle.etzvanul.specs.HostCall.{number_in, buffer_in};
ghost use Rattle.etzvanul.specs.Made.{number_made};
ghost use Rattle.etzvanul.specs.Orderly.{Orderly};
ghost use Rattle.etzvanul.specs.SweepOnward.{Resumes};

use crate::Done;
use crate::puts::{length_after, put_plan};
use crate::sweep_puts::{put_sweep, swept_length};
use plan::{Plan, Sweep, plan_of, sweep_of};
use reader::look_from;
use step::{Event, Kind};
use table::Table;
use terms::Refusal;

// The call that a plan makes; n is the event count after the event.
fn planned(image: &[u8], plan: &Plan, n: u32, out: &mut [u8]) -> Result<Done, Refusal>
    requires small { length image.now + 100 ≤ FULL }
    requires orderly { Orderly 0 (changes_of n (accepted_plan plan.now)) (length image.now) }
    ensures number { number_made result ≡ number_in (plan_call n (accepted_plan plan.now) image.now out.old) }
    ensures bytes { out.new ≡ buffer_in (plan_call n (accepted_plan plan.now) image.now out.old) out.old }
{
    let size = length_after(image.len(), plan);
    if out.len() < size {
        return Err(Refusal::Room);
    }
    put_plan(out, image, n, plan);
    // The cast loses nothing, here and below: `small` bounds the size.
    Ok(Done {
        value: plan.deed.value(),
        length: size as u32,
    })
}

// The call that a COLLECT makes. It goes as `planned` does: one function for both would take a closure that writes, and be no shorter with the
// clauses that say where and what.
#[tactic(auto, unfolding(plan::specs::Sweep::sweep_changes))]
fn swept(image: &[u8], s: &Sweep, n: u32, out: &mut [u8]) -> Result<Done, Refusal>
    requires small { length image.now + 100 ≤ FULL }
    requires orderly { Orderly 0 (sweep_changes n image.now s.now.node (accepted_sweep s.now)) (length image.now) }
    requires resumes { Resumes image.now s.now.node (accepted_sweep s.now) }
    ensures number { number_made result ≡ number_in (sweep_call n s.now.node (accepted_sweep s.now) image.now out.old) }
    ensures bytes { out.new ≡ buffer_in (sweep_call n s.now.node (accepted_sweep s.now) image.now out.old) out.old }
{
    let size = swept_length(image, s);
    if out.len() < size {
        return Err(Refusal::Room);
    }
    put_sweep(out, image, n, s);
    Ok(Done {
        value: s.reclaimed,
        length: size as u32,
    })
}

// Every event but COLLECT.
#[tactic(auto, unfolding(step::specs::Event::kind_of))]
fn change(image: &[u8], e: Event, count: u32, out: &mut [u8]) -> Result<Done, Refusal>
    requires asked { Asked image.now e count }
    requires other { kind_of e.kind ≢ Collect }
    ensures { Back image.now e out.old (number_made result) out.new }
{
    let plan = plan_of(image, e)?;
    planned(image, &plan, count + 1, out)
}

// COLLECT.
#[tactic(auto, unfolding(step::specs::Event::kind_of))]
fn collect(image: &[u8], e: Event, count: u32, out: &mut [u8]) -> Result<Done, Refusal>
    requires asked { Asked image.now e count }
    requires kind { kind_of e.kind ≡ Collect }
    ensures { Back image.now e out.old (number_made result) out.new }
{
    let s = sweep_of(image, e.a)?;
    swept(image, &s, count + 1, out)
}

// What the host call promises of this event, whatever record it was read from.
pub(crate) fn amend(image: &[u8], e: Event, out: &mut [u8]) -> Result<Done, Refusal>
    requires { (read image.now).answer ≡ ACCEPTED }
    ensures { Back image.now e out.old (number_made result) out.new }
{
    if !e.fits() {
        return Err(Refusal::Event);
    }
    let count = look_from(image, 0, 0).held.count();
    if Table::EVENTS <= count {
        return Err(Refusal::Ended);
    }
    match Kind::from(e.kind) {
        Kind::Collect => collect(image, e, count, out),
        _ => change(image, e, count, out),
    }
}
