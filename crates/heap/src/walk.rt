// The walk from object to field and from field to object, and all that roots and objects hold.
ghost use Rattle.std.specs.Prelude.{true, [], ◌∷◌, ◌++◌, ◌≡◌, ◌-◌, ◌<◌, set};
ghost use Rattle.terms.specs.Counted.{holds, list, list_from};
ghost use Rattle.terms.specs.Limits.{NODES, OBJECTS, FIELDS};
ghost use Rattle.heap.specs.Heap.{field_at, fields_of, roots_of};
ghost use Rattle.heap.specs.Visit.{Visited};
ghost use Rattle.heap.specs.Walk.{owned_by, everywhere, is_marked, unmarked, mark, held_by, pointed, reached};

use crate::{Heap, Marks};

impl Marks {
    fn unmarked() -> Marks
        ensures { result.seen ≡ unmarked }
    {
        Marks {
            seen: [false; Heap::OBJECTS as usize],
        }
    }

    // Past the last object none is marked.
    pub fn is_marked(&self, o: u8) -> bool
        ensures { result ≡ is_marked self.now.seen o }
    {
        self.seen.get(usize::from(o)).copied().unwrap_or(false)
    }

    fn set_mark(&mut self, x: u8)
        ensures { self.new.seen ≡ set self.old.seen x true }
    {
        if x < Heap::OBJECTS {
            self.seen[usize::from(x)] = true;
        }
    }
}

// Marks o and what is reached from it, on p only, through objects that aren't marked yet. It and `visit_field` call each other, by a rule of the
// project: so no `for` over the fields, and no methods. That p is a node, which `reached` tests, stands in four contracts, all private: a type of
// nodes would go through every definition, whose arguments are numbers.
#[cycle(visit_field_visit_object)]
fn visit_object(heap: &Heap, p: u8, marks: &mut Marks, o: u8)
    requires { p < NODES }
    ensures { Visited heap.now (owned_by p) (o ∷ []) marks.old.seen marks.new.seen }
{
    let i = usize::from(o);
    if o / Heap::OWNED == p && !marks.seen[i] {
        marks.seen[i] = true;
        visit_field(heap, p, marks, o, 0);
    }
}

// Marks what is reached so from the fields of o, field f and those after it.
#[cycle(visit_field_visit_object)]
fn visit_field(heap: &Heap, p: u8, marks: &mut Marks, o: u8, f: u8)
    requires { p < NODES }
    ensures { Visited heap.now (owned_by p) (list_from f (FIELDS - f) (field_at heap.now o)) marks.old.seen marks.new.seen }
{
    if f < Heap::FIELDS {
        visit_object(heap, p, marks, heap.field(o, f));
        visit_field(heap, p, marks, o, f + 1);
    }
}

// The loops below change the marks that they are lent: after a closure that did so a proof would know nothing of them.
impl Heap {
    #[tactic(auto, unfolding(terms::specs::Counted::list_from))]
    fn visit_roots(&self, p: u8, marks: &mut Marks)
        requires { p < NODES }
        ensures { Visited self.now (owned_by p) (roots_of self.now p) marks.old.seen marks.new.seen }
    {
        for r in 0..Heap::ROOTS {
            visit_object(self, p, marks, self.root(p, r));
        }
    }

    #[tactic(auto, unfolding(crate::specs::Walk::pointed))]
    fn visit_pointed(&self, p: u8, tests: [bool; Heap::OWNED as usize], marks: &mut Marks)
        requires { p < NODES }
        ensures { Visited self.now (owned_by p) (pointed p tests) marks.old.seen marks.new.seen }
    {
        for k in 0..Heap::OWNED {
            if tests[usize::from(k)] {
                visit_object(self, p, marks, Heap::OWNED * p + k);
            }
        }
    }

    // What is reached, on p only, from its roots and from the objects of its own that `counted` points at.
    pub fn reached(&self, p: u8, counted: [bool; Heap::OWNED as usize]) -> Marks
        ensures { result.seen ≡ reached self.now (owned_by p) (roots_of self.now p ++ pointed p counted) }
    {
        let mut marks = Marks::unmarked();
        if p < Heap::NODES {
            self.visit_roots(p, &mut marks);
            self.visit_pointed(p, counted, &mut marks);
        }
        marks
    }

    #[tactic(auto, unfolding(terms::specs::Counted::list_from, crate::specs::Walk::mark))]
    fn mark_fields(&self, o: u8, marks: &mut Marks)
        ensures { marks.new.seen ≡ mark everywhere marks.old.seen (fields_of self.now o) }
    {
        for f in 0..Heap::FIELDS {
            marks.set_mark(self.field(o, f));
        }
    }

    #[tactic(auto, unfolding(terms::specs::Counted::gather_from, crate::specs::Walk::mark))]
    fn mark_held(&self, holders: &Marks, marks: &mut Marks)
        ensures { marks.new.seen ≡ mark everywhere marks.old.seen (held_by self.now holders.now.seen) }
    {
        for o in 0..Heap::OBJECTS {
            if holders.is_marked(o) {
                self.mark_fields(o, marks);
            }
        }
    }

    // For each object, whether a root of p or a marked object holds it.
    #[tactic(auto, unfolding(terms::specs::Counted::list_from, crate::specs::Walk::mark))]
    pub fn held(&self, p: u8, marks: &Marks) -> Marks
        ensures { result.seen ≡ list OBJECTS (holds (roots_of self.now p ++ held_by self.now marks.now.seen)) }
    {
        let mut held = Marks::unmarked();
        for r in 0..Heap::ROOTS {
            held.set_mark(self.root(p, r));
        }
        self.mark_held(marks, &mut held);
        held
    }
}
