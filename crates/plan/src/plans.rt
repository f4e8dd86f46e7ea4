// The plan of an event on an image, kind by kind.
ghost use Rattle.std.specs.Prelude.{◌≡◌, ◌<◌};
ghost use Rattle.terms.specs.Limits.{NODES};
ghost use Rattle.step.specs.declared.Kind.TheVariants.{New};
ghost use Rattle.plan.specs.Made.{plan_made};
ghost use Rattle.plan.specs.Plan.{plan_for, plan_of};

use crate::Plan;
use crate::heap_plans::{clear_plan, load_plan, move_plan, new_plan, store_plan};
use crate::lookups::root_of;
use crate::message_plans::{drop_plan, receive_plan, send_plan, settle_plan};
use step::{Event, Kind};
use terms::Refusal;

#[tactic(auto, unfolding(crate::specs::Plan::plan_for))]
fn plan_for(l: &[u8], kind: Kind, e: Event) -> Result<Plan, Refusal>
    requires { kind ≡ New → e.a < NODES }
    ensures { plan_made result ≡ plan_for kind l.now e }
{
    match kind {
        Kind::New => new_plan(l, e.a, e.b),
        Kind::Move => Ok(move_plan(l, e.a, e.b, e.c)),
        Kind::Clear => Ok(clear_plan(l, e.a, e.b)),
        Kind::Load => load_plan(l, e.a, e.b, e.c, e.d),
        Kind::Store => store_plan(l, e.a, e.b, e.c, e.d),
        Kind::Send => send_plan(l, e.a, e.c, root_of(l, e.a, e.b)),
        Kind::Receive => receive_plan(l, e.a, e.b),
        Kind::Settle => settle_plan(l, e.a),
        Kind::Drop => drop_plan(l, e.a, e.b),
        Kind::Collect | Kind::Unknown => Err(Refusal::Event),
    }
}

// What isn't an event of its kind's shape is refused, and so is COLLECT, which has no plan.
pub fn plan_of(l: &[u8], e: Event) -> Result<Plan, Refusal>
    ensures { plan_made result ≡ plan_of l.now e }
{
    if !e.fits() {
        return Err(Refusal::Event);
    }
    plan_for(l, Kind::from(e.kind), e)
}
