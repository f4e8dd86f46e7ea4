// COLLECT on an image, where it lies: what it asks of the bytes, each scan going on where the last thing found ends, and what is decided of the
// answers.
ghost use Rattle.std.specs.Prelude.{◌≡◌, ◌<◌, IfOk};
ghost use Rattle.terms.specs.Limits.{NODES};
ghost use Rattle.plan.specs.Made.{accepted_sweep, sweep_made, tested};
ghost use Rattle.plan.specs.Sweep.{heap_in, counted_in, present_in, sweep_of};

use crate::Sweep;
use crate::lookups::{entry_from, object_from, roots_from};
use heap::{Heap, Marks};
use std::array;
use step::Collection;
use terms::Refusal;

// ---- what the image tells, in loops, since each turn hands on the place where it ends: a closure would change what it captures

// All objects and roots: in the image the objects come first, then the roots.
fn heap_in(image: &[u8]) -> Heap
    ensures { result ≡ heap_in image.now }
{
    let mut h = Heap::fresh();
    let mut at = 0;
    for o in 0..Heap::OBJECTS {
        let found = object_from(image, at, o);
        h.objects[usize::from(o)] = found.held.object();
        at = found.after;
    }
    for p in 0..Heap::NODES {
        let found = roots_from(image, at, p);
        h.roots[usize::from(p)] = found.held.roots();
        at = found.after;
    }
    h
}

// For each object of p, whether its directory has RC above 0 or MsgCtr not 0.
fn counted_in(image: &[u8], p: u8) -> [bool; Heap::OWNED as usize]
    requires { p < NODES }
    ensures { result ≡ counted_in image.now p }
{
    let mut tests = [false; Heap::OWNED as usize];
    let mut at = 0;
    for k in 0..Heap::OWNED {
        let found = entry_from(image, at, p, Heap::OWNED * p + k);
        tests[usize::from(k)] = !found.held.entry().is_clear();
        at = found.after;
    }
    tests
}

// For each object of another node, whether p has an entry for it with Presence true.
fn present_in(image: &[u8], p: u8) -> Marks
    ensures { result.seen ≡ present_in image.now p }
{
    let mut seen = [false; Heap::OBJECTS as usize];
    let mut at = 0;
    for o in 0..Heap::OBJECTS {
        if p != o / Heap::OWNED {
            let found = entry_from(image, at, p, o);
            seen[usize::from(o)] = found.held.entry().is_present();
            at = found.after;
        }
    }
    Marks { seen }
}

// ---- what is decided

// What goes, and what is no longer used.
fn swept(collection: &Collection) -> Sweep
    requires { collection.now.node < NODES }
    ensures node { result.node ≡ collection.now.node }
    ensures tests { accepted_sweep result ≡ tested collection.now }
{
    // The casts lose nothing: there are 64 objects.
    Sweep {
        node: collection.node,
        reclaimed: collection.reclaimed(),
        gone: array::from_fn(|o| collection.is_reclaimed(o as u8)),
        unused: array::from_fn(|o| collection.is_unused(o as u8)),
    }
}

// The objects that go, and the other nodes' objects whose entry at p is no longer used. What isn't a node is refused.
pub fn sweep_of(image: &[u8], p: u8) -> Result<Sweep, Refusal>
    ensures sweep { sweep_made result ≡ sweep_of image.now p }
    ensures node { IfOk result (λ s. s.node ≡ p) }
{
    if Heap::NODES <= p {
        return Err(Refusal::Event);
    }
    let collection = Collection::new(
        heap_in(image),
        p,
        counted_in(image, p),
        present_in(image, p),
    )?;
    Ok(swept(&collection))
}
