// COLLECT P: objects of P that nothing starts from or reaches stop being live, and remote entries at P that nothing holds get Presence false.
ghost use Rattle.std.specs.Prelude.{◌≡◌, IfErr, IfOk, length, not, [], ◌<◌, if◌then◌else◌};
ghost use Rattle.terms.specs.Choose.{◌or◌};
ghost use Rattle.terms.specs.Counted.{all, how_many};
ghost use Rattle.terms.specs.Limits.{NODES, OBJECTS};
ghost use Rattle.terms.specs.Refusals.{number_of};
ghost use Rattle.heap.specs.Heap.{fields_of, is_live, roots_of};
ghost use Rattle.heap.specs.Walk.{is_marked};
ghost use Rattle.step.specs.Collect.{collect, counted};
ghost use Rattle.step.specs.CollectParts.{collection_at, collection_of, is_whole, is_unused, may_hold_by, present_at, reclaims, without_reclaimed};
ghost use Rattle.step.specs.Outcome.{by, outcome_of, refused};

use crate::{Collection, Deed};
use entry::Entry;
use heap::{Heap, Marks};
use std::array;
use table::{Cell, Table};
use terms::Refusal;

impl Collection {
    // Counted are those of the node's objects whose directory has RC above 0 or MsgCtr not 0: with the roots, they are what is started from.
    // Refused where a kept object isn't live, or where the node holds what it may not.
    #[tactic(auto, unfolding(crate::specs::CollectParts::collection_of))]
    pub fn new(
        heap: Heap,
        node: u8,
        counted: [bool; Heap::OWNED as usize],
        present: Marks,
    ) -> Result<Collection, Refusal>
        ensures { result ≡ collection_of heap node counted present }
    {
        let kept = heap.reached(node, counted);
        let held = heap.held(node, &kept);
        let collection = Collection {
            heap,
            node,
            present,
            kept,
            held,
        };
        if collection.is_whole() {
            Ok(collection)
        } else {
            Err(Refusal::Torn)
        }
    }

    // What is asked of node p of a table. That p is a node stands in three contracts here and in `new`'s, all private, and the event's range shows it: a type of nodes
    // would go through every definition, whose arguments are numbers.
    fn at(t: &Table, p: u8) -> Result<Collection, Refusal>
        requires { p < NODES }
        ensures made { IfOk result (λ c. (c ≡ collection_at t.now p) × (by t.now (collect t.now p) ≡ (collect t.now p).effect)) }
        ensures torn { IfErr result (λ e. refused t.now (number_of e) ≡ by t.now (collect t.now p)) }
        ensures cells { length t.now.cells ≡ OBJECTS }
    {
        Collection::new(t.heap, p, counted(t, p), present(t, p))
    }

    // What the node may hold: nothing, an object of its own, or another's for which it has an entry with Presence true.
    fn may_hold(&self, x: u8) -> bool
        ensures { result ≡ may_hold_by self.now.present.seen self.now.node x }
    {
        x == Heap::NONE || x / Heap::OWNED == self.node || self.present.is_marked(x)
    }

    // Every root of the node holds what it may.
    fn roots_allowed(&self) -> bool
        ensures { result ≡ all (may_hold_by self.now.present.seen self.now.node) (roots_of self.now.heap self.now.node) }
    {
        (0..Heap::ROOTS).all(|r| self.may_hold(self.heap.root(self.node, r)))
    }

    // Every field of the object, if it is kept; the fields of one that isn't are not asked.
    #[tactic(auto, unfolding(terms::specs::Counted::all))]
    fn fields_allowed(&self, o: u8) -> bool
        ensures { result ≡ all (may_hold_by self.now.present.seen self.now.node)
            (if is_marked self.now.kept.seen o then fields_of self.now.heap o else []) }
    {
        !self.kept.is_marked(o) || (0..Heap::FIELDS).all(|f| self.may_hold(self.heap.field(o, f)))
    }

    // The object is live, if it is kept.
    fn live_if_kept(&self, o: u8) -> bool
        ensures { result ≡ (not (is_marked self.now.kept.seen o) or is_live self.now.heap o) }
    {
        !self.kept.is_marked(o) || self.heap.is_live(o)
    }

    // Every kept object is live, and the node holds only what it may.
    pub fn is_whole(&self) -> bool
        ensures { result ≡ is_whole self.now.heap self.now.node self.now.present.seen self.now.kept.seen }
    {
        (0..Heap::OBJECTS).all(|o| self.live_if_kept(o))
            && self.roots_allowed()
            && (0..Heap::OBJECTS).all(|o| self.fields_allowed(o))
    }

    // A live object of the node that is not kept.
    pub fn is_reclaimed(&self, o: u8) -> bool
        ensures { result ≡ reclaims self.now.heap self.now.node self.now.kept.seen o }
    {
        o / Heap::OWNED == self.node && self.heap.is_live(o) && !self.kept.is_marked(o)
    }

    // How many objects are reclaimed.
    pub fn reclaimed(&self) -> u32
        ensures { result ≡ how_many OBJECTS (reclaims self.now.heap self.now.node self.now.kept.seen) }
    {
        // The cast loses nothing: there are 64 at most.
        (0..Heap::OBJECTS).filter(|&o| self.is_reclaimed(o)).count() as u32
    }

    // An object of another node that the node has an entry for with Presence true, and that nothing at the node holds.
    pub fn is_unused(&self, o: u8) -> bool
        ensures { result ≡ is_unused self.now.node self.now.present.seen self.now.held.seen o }
    {
        o / Heap::OWNED != self.node && !self.held.is_marked(o) && self.present.is_marked(o)
    }

    // Reclaimed objects stop being live, their fields emptied.
    fn heap_after(self) -> Heap
        ensures { result ≡ without_reclaimed self.heap self.node self.kept.seen }
    {
        let mut heap = self.heap;
        // A loop: after a closure that changes the heap a proof would know nothing of it.
        for o in 0..Heap::OBJECTS {
            if self.is_reclaimed(o) {
                heap.set_idle(o);
            }
        }
        heap
    }
}

// For each object of p, whether its directory has RC above 0 or MsgCtr not 0.
#[tactic(auto, unfolding(crate::specs::Collect::counted))]
fn counted(t: &Table, p: u8) -> [bool; Heap::OWNED as usize]
    requires { p < NODES }
    ensures counted { result ≡ counted t.now p }
    ensures cells { length t.now.cells ≡ OBJECTS }
{
    let first = usize::from(Heap::OWNED * p);
    // As a slice, whose length a proof knows.
    let cells: &[Cell] = &t.cells;
    array::from_fn(|k| !cells[first + k].entry_in(p).is_clear())
}

// For each object, whether p has an entry for it with Presence true.
fn present(t: &Table, p: u8) -> Marks
    ensures { result.seen ≡ present_at t.now p }
{
    Marks {
        seen: array::from_fn(|o| t.cells[o].entry_in(p).is_present()),
    }
}

#[tactic(auto, unfolding(crate::specs::Collect::collect_keeping, crate::specs::Collect::collect_holding))]
pub(crate) fn collect(t: &mut Table, p: u8) -> Result<Deed, Refusal>
    requires { p < NODES }
    ensures { outcome_of result t.new ≡ by t.old (collect t.old p) }
{
    let collection = Collection::at(t, p)?;
    // A loop, as in `heap_after`.
    for o in 0..Heap::OBJECTS {
        if collection.is_reclaimed(o) {
            // The directory of a reclaimed object goes with it.
            t.set_entry(p, o, Entry::Absent);
        } else if collection.is_unused(o) {
            t.set_entry(p, o, t.entry_at(p, o).set_unused());
        }
    }
    t.heap = collection.heap_after();
    Ok(Deed::Collected(collection.reclaimed()))
}
