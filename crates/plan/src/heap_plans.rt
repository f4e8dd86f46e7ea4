// What NEW, MOVE, CLEAR, LOAD and STORE come to on an image: each refusal in the order in which it is tried, then the changes.
ghost use Rattle.std.specs.Prelude.{◌≡◌, ◌+◌, ◌*◌, ◌<◌};
ghost use Rattle.terms.specs.Limits.{NODES, NONE, OWNED};
ghost use Rattle.heap.specs.Heap.{with_root_in};
ghost use Rattle.image.specs.Find.{of_roots};
ghost use Rattle.plan.specs.Made.{accepted_plan, plan_made, Reaches};
ghost use Rattle.plan.specs.Plan.{roots_spot, roots_of, free_own_in, root_of, root_plan, new_plan, load_plan, store_plan};

use crate::Plan;
use crate::changes::replaced;
use crate::lookups::{entry_from, free_own, object_from, roots_from};
use heap::{Heap, Object};
use image::{Found, Held};
use step::Deed;
use terms::Refusal;

// Root r of p takes a name, where the roots of p were found.
#[tactic(auto, unfolding(crate::specs::Plan::root_plan))]
fn root_changed(l: &[u8], found: Found, p: u8, r: u8, name: u8) -> Plan
    requires { found ≡ roots_spot l.now p }
    ensures { accepted_plan result ≡ root_plan l.now p r name }
{
    let mut roots = found.held.roots();
    roots.set_root(r, name);
    Plan {
        roots: Some(replaced(found, p, 0, Held::Roots(roots))),
        ..Plan::of(Deed::Arranged)
    }
}

// MOVE P r q
pub(crate) fn move_plan(l: &[u8], p: u8, r: u8, q: u8) -> Plan
    ensures { accepted_plan result ≡ root_plan l.now p r (root_of l.now p q) }
{
    let found = roots_from(l, 0, p);
    root_changed(l, found, p, r, found.held.roots().root(q))
}

// CLEAR P r
pub(crate) fn clear_plan(l: &[u8], p: u8, r: u8) -> Plan
    ensures { accepted_plan result ≡ root_plan l.now p r NONE }
{
    root_changed(l, roots_from(l, 0, p), p, r, Heap::NONE)
}

// NEW P r
#[tactic(auto, unfolding(crate::specs::Plan::new_plan))]
pub(crate) fn new_plan(l: &[u8], p: u8, r: u8) -> Result<Plan, Refusal>
    requires { p < NODES }
    ensures { plan_made result ≡ new_plan l.now p r (OWNED * p + free_own_in l.now p) }
{
    let found = roots_from(l, 0, p);
    let mut roots = found.held.roots();
    if roots.root(r) != Heap::NONE {
        return Err(Refusal::Root);
    }
    let k = free_own(l, p).ok_or(Refusal::NoRoom)?;
    let o = Heap::OWNED * p + k;
    if !entry_from(l, 0, p, o).held.entry().is_absent() {
        return Err(Refusal::Torn);
    }
    let spot = object_from(l, 0, o);
    roots.set_root(r, o);
    Ok(Plan {
        object: Some(replaced(spot, o, 0, Held::Object(Object::born()))),
        roots: Some(replaced(found, p, 0, Held::Roots(roots))),
        ..Plan::of(Deed::Born(o))
    })
}

// What stands for object o, if its fields are in p's reach.
fn in_reach(l: &[u8], p: u8, o: u8) -> Result<Found, Refusal>
    ensures { Reaches l.now p o result }
{
    if o == Heap::NONE {
        return Err(Refusal::Empty);
    }
    if o / Heap::OWNED != p {
        return Err(Refusal::Away);
    }
    let found = object_from(l, 0, o);
    if !found.held.object().live {
        return Err(Refusal::Torn);
    }
    Ok(found)
}

// LOAD P r q f
#[tactic(auto, unfolding(crate::specs::Plan::load_plan))]
pub(crate) fn load_plan(l: &[u8], p: u8, r: u8, q: u8, f: u8) -> Result<Plan, Refusal>
    ensures { plan_made result ≡ load_plan l.now p r (root_of l.now p q) f }
{
    let found = roots_from(l, 0, p);
    let spot = in_reach(l, p, found.held.roots().root(q))?;
    Ok(root_changed(l, found, p, r, spot.held.object().field(f)))
}

// STORE P q f r
#[tactic(auto, unfolding(crate::specs::Plan::store_plan))]
pub(crate) fn store_plan(l: &[u8], p: u8, q: u8, f: u8, r: u8) -> Result<Plan, Refusal>
    ensures { plan_made result ≡ store_plan l.now p (root_of l.now p q) f r }
{
    let named = roots_from(l, 0, p).held.roots();
    let o = named.root(q);
    let spot = in_reach(l, p, o)?;
    let mut stored = spot.held.object();
    stored.set_field(f, named.root(r));
    Ok(Plan {
        object: Some(replaced(spot, o, 0, Held::Object(stored))),
        ..Plan::of(Deed::Arranged)
    })
}
