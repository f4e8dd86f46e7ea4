// What the controllers hold: objects with their fields, and roots. Nothing here counts references.
#![tactic(auto)]

mod walk; // walk.rt: what is reached, and what is held

ghost use Rattle.std.specs.Prelude.{◌≡◌, ◌<◌, get_or, replicate, IfSome};
ghost use Rattle.std.specs.Option.{unwrap_or};
ghost use Rattle.terms.specs.Limits.{OWNED, ROOTS, NONE};
ghost use Rattle.heap.specs.Heap.{idle, born, fresh_heap, object_at, is_live, field_at, roots_at, root_at, with_object, with_field, with_root, free_own};
ghost use Rattle.heap.specs.Heap.{with_root_in, with_field_in};
ghost use Rattle.heap.specs.Heap.{fits_name, fits_field, fits_object, fits_roots, fits_heap};

// The lengths of arrays are constants, which take no `From`: so `as`, here and below.
#[derive(Clone, Copy)]
pub struct Object {
    pub live: bool,
    pub fields: [u8; Heap::FIELDS as usize],
}

// The roots of one node.
#[derive(Clone, Copy)]
pub struct Roots {
    pub at: [u8; Heap::ROOTS as usize],
}

#[derive(Clone, Copy)]
pub struct Heap {
    pub objects: [Object; Heap::OBJECTS as usize],
    pub roots: [Roots; Heap::NODES as usize],
}

// For each object, whether it is marked.
#[derive(Clone, Copy)]
pub struct Marks {
    pub seen: [bool; Heap::OBJECTS as usize],
}

impl Heap {
    pub const NODES: u8 = terms::NODES;

    pub const OBJECTS: u8 = 64;

    // Objects that one node owns. Whose an object is stands where it is asked, as `o / OWNED`: a function would be no shorter, and each proof would
    // have to cite its clause.
    pub const OWNED: u8 = terms::OWNED;

    pub const FIELDS: u8 = 4;

    pub const ROOTS: u8 = 8;

    // What an empty root or field holds: a number, and no Option, as the bytes of an image and the definition `fits_name` have it.
    pub const NONE: u8 = 255;

    // Nothing live, all roots and fields empty.
    pub fn fresh() -> Heap
        ensures { result ≡ fresh_heap }
    {
        Heap {
            objects: [Object::idle(); Heap::OBJECTS as usize],
            roots: [Roots::empty(); Heap::NODES as usize],
        }
    }

    // A getter for each array, here and in heap's parts, in one line: what they share is the library's `get`. Past the last object none is live.
    pub fn is_live(&self, o: u8) -> bool
        ensures { result ≡ is_live self.now o }
    {
        self.objects
            .get(usize::from(o))
            .is_some_and(|object| object.live)
    }

    // 0 where there is no such field: the definition fixes the 0, of a root below too.
    pub fn field(&self, o: u8, f: u8) -> u8
        ensures { result ≡ field_at self.now o f }
    {
        self.objects
            .get(usize::from(o))
            .map_or(0, |object| object.field(f))
    }

    // 0 where there is no such root.
    pub fn root(&self, p: u8, r: u8) -> u8
        ensures { result ≡ root_at self.now p r }
    {
        self.roots
            .get(usize::from(p))
            .map_or(0, |roots| roots.root(r))
    }

    // As it was where there is no such object. Not by `get_mut`, here and below: after it a proof knows the array's length and no element.
    fn set_object(&mut self, o: u8, object: Object)
        ensures { self.new ≡ with_object self.old o object }
    {
        if o < Heap::OBJECTS {
            self.objects[usize::from(o)] = object;
        }
    }

    // Object o has just been made. As it was where there is no such object.
    pub fn set_born(&mut self, o: u8)
        ensures { self.new ≡ with_object self.old o born }
    {
        self.set_object(o, Object::born());
    }

    // Object o is reclaimed, its fields empty. As it was where there is no such object.
    pub fn set_idle(&mut self, o: u8)
        ensures { self.new ≡ with_object self.old o idle }
    {
        self.set_object(o, Object::idle());
    }

    // As it was where there is no such field.
    pub fn set_field(&mut self, o: u8, f: u8, x: u8)
        ensures { self.new ≡ with_field self.old o f x }
    {
        if o < Heap::OBJECTS {
            self.objects[usize::from(o)].set_field(f, x);
        }
    }

    // As it was where there is no such root.
    pub fn set_root(&mut self, p: u8, r: u8, x: u8)
        ensures { self.new ≡ with_root self.old p r x }
    {
        if p < Heap::NODES {
            self.roots[usize::from(p)].set_root(r, x);
        }
    }

    // The lowest object of the node that isn't live, counted from 0 among its own; none where all are live.
    // Past the last node no object is live, so that 0 is the lowest there.
    pub fn free_own(&self, p: u8) -> Option<u8>
        ensures lowest { unwrap_or result OWNED ≡ free_own self.now p }
        ensures owned { IfSome result (λ k. k < OWNED) }
    {
        if p < Heap::NODES {
            (0..Heap::OWNED).find(|&k| !self.is_live(Heap::OWNED * p + k))
        } else {
            Some(0)
        }
    }

    pub fn fits(&self) -> bool
        ensures { result ≡ fits_heap self.now }
    {
        self.objects.iter().all(Object::fits) && self.roots.iter().all(Roots::fits)
    }
}

// A root or field holds an object number or nothing.
pub fn fits_name(x: u8) -> bool
    ensures { result ≡ fits_name x }
{
    x < Heap::OBJECTS || x == Heap::NONE
}

// A field of an object; of one that isn't live it is empty.
fn fits_field(live: bool, x: u8) -> bool
    ensures { result ≡ fits_field live x }
{
    if live { fits_name(x) } else { x == Heap::NONE }
}

impl Object {
    // Not live, its fields empty.
    pub fn idle() -> Object
        ensures { result ≡ idle }
    {
        Object {
            live: false,
            fields: [Heap::NONE; Heap::FIELDS as usize],
        }
    }

    // It has just been made.
    pub fn born() -> Object
        ensures { result ≡ born }
    {
        Object {
            live: true,
            fields: [Heap::NONE; Heap::FIELDS as usize],
        }
    }

    // 0 where there is no such field.
    pub fn field(&self, f: u8) -> u8
        ensures { result ≡ get_or self.now.fields f 0 }
    {
        self.fields.get(usize::from(f)).copied().unwrap_or(0)
    }

    // As it was where there is no such field.
    pub fn set_field(&mut self, f: u8, x: u8)
        ensures { self.new ≡ with_field_in self.old f x }
    {
        if f < Heap::FIELDS {
            self.fields[usize::from(f)] = x;
        }
    }

    pub fn fits(&self) -> bool
        ensures { result ≡ fits_object self.now }
    {
        self.fields.iter().all(|&x| fits_field(self.live, x))
    }
}

impl Roots {
    pub fn empty() -> Roots
        ensures { result ≡ record { at = replicate ROOTS NONE } }
    {
        Roots {
            at: [Heap::NONE; Heap::ROOTS as usize],
        }
    }

    // 0 where there is no such root.
    pub fn root(&self, r: u8) -> u8
        ensures { result ≡ get_or self.now.at r 0 }
    {
        self.at.get(usize::from(r)).copied().unwrap_or(0)
    }

    // As they were where there is no such root.
    pub fn set_root(&mut self, r: u8, x: u8)
        ensures { self.new ≡ with_root_in self.old r x }
    {
        if r < Heap::ROOTS {
            self.at[usize::from(r)] = x;
        }
    }

    pub fn fits(&self) -> bool
        ensures { result ≡ fits_roots self.now }
    {
        self.at.iter().all(|&x| fits_name(x))
    }
}
