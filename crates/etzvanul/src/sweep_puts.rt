// The new image of a COLLECT: the old one copied once without what goes and with the entries that are no longer used, and how long that becomes.
// Each thing that changes is looked for from where the last change ended.
ghost use Rattle.std.specs.Prelude.{◌≡◌, ℕ, List, ◌+◌, ◌*◌, ◌<◌, ◌≤◌, length};
ghost use Rattle.terms.specs.Bytes.{over};
ghost use Rattle.terms.specs.Limits.{OWNED, OBJECTS};
ghost use Rattle.image.specs.Order.{position};
ghost use Rattle.image.specs.Stored.{FULL};
ghost use Rattle.splice.specs.Onward.{From};
ghost use Rattle.etzvanul.specs.Orderly.{Orderly};
ghost use Rattle.plan.specs.Made.{accepted_sweep, change_of};
ghost use Rattle.plan.specs.Sweep.{object_gone, directory_gone, entry_unused, sweep_changes};
ghost use Rattle.etzvanul.specs.SweepOnward.{Resumes};
ghost use Rattle.etzvanul.specs.Spliced.{swept_image};

use crate::puts::{COUNTED, copy_part, length_changes, put_changes, put_count};
use heap::Heap;
use image::Held;
use plan::{Replacement, Sweep, entry_from, object_from, replaced};

// ---- the changes

// Own object number k goes.
fn object_gone(l: &[u8], from: usize, s: &Sweep, k: u8) -> Option<Replacement>
    requires own { k < OWNED }
    requires from { From l.now from (position 1 (OWNED * s.now.node + k)) }
    ensures { change_of result ≡ object_gone l.now s.now.node s.now.gone k }
{
    let o = Heap::OWNED * s.node + k;
    s.gone[usize::from(o)].then(|| replaced(object_from(l, from, o), o, 0, Held::Nothing))
}

// Its directory goes with it. As the object: what is looked for differs, and under which numbers, and each has its definition.
fn directory_gone(l: &[u8], from: usize, s: &Sweep, k: u8) -> Option<Replacement>
    requires own { k < OWNED }
    requires from { From l.now from (position 3 (OWNED * s.now.node + k)) }
    ensures { change_of result ≡ directory_gone l.now s.now.node s.now.gone k }
{
    let o = Heap::OWNED * s.node + k;
    s.gone[usize::from(o)].then(|| replaced(
        entry_from(l, from, s.node, o),
        s.node,
        o,
        Held::Nothing,
    ))
}

// The entry of another's object gets Presence false. `Resumes` goes with the image and the sweep: a ghost field of the one can't speak of the
// other.
fn entry_unused(l: &[u8], from: usize, s: &Sweep, o: u8) -> Option<Replacement>
    requires object { o < OBJECTS }
    requires from { From l.now from (position 4 (256 * s.now.node + o)) }
    requires resumes { Resumes l.now s.now.node (accepted_sweep s.now) }
    ensures { change_of result ≡ entry_unused l.now s.now.node s.now.unused o }
{
    if !s.unused[usize::from(o)] {
        return None;
    }
    let found = entry_from(l, from, s.node, o);
    let unused = found.held.entry().set_unused();
    Some(replaced(found, s.node, o, Held::Entry(unused)))
}

// ---- the image that they make

// The new image at the front of out.
pub(crate) fn put_sweep(out: &mut [u8], l: &[u8], count: u32, s: &Sweep)
    requires orderly { Orderly 0 (sweep_changes count l.now s.now.node (accepted_sweep s.now)) (length l.now) × (length (swept_image count l.now s.now.node (accepted_sweep s.now)) ≤ length out.old) }
    requires resumes { Resumes l.now s.now.node (accepted_sweep s.now) }
    ensures { out.new ≡ over (swept_image count l.now s.now.node (accepted_sweep s.now)) out.old }
{
    let first = put_count(out, l, count);
    let a = put_changes(
        out,
        l,
        first,
        Heap::OWNED,
        |from, k| object_gone(l, from, s, k),
    );
    let b = put_changes(
        out,
        l,
        a,
        Heap::OWNED,
        |from, k| directory_gone(l, from, s, k),
    );
    let c = put_changes(
        out,
        l,
        b,
        Heap::OBJECTS,
        |from, o| entry_unused(l, from, s, o),
    );
    copy_part(out, c.to, &l[c.from..]);
}

// How long it is; the record of the event count and the entries that are no longer used are as long as they were.
pub(crate) fn swept_length(l: &[u8], s: &Sweep) -> usize
    requires orderly { (length l.now ≤ FULL) × Orderly 0 (sweep_changes 0 l.now s.now.node (accepted_sweep s.now)) (length l.now) }
    requires resumes { Resumes l.now s.now.node (accepted_sweep s.now) }
    ensures { (count : ℕ) → result ≡ length (swept_image count l.now s.now.node (accepted_sweep s.now)) }
{
    let (n, at) = length_changes(
        l.len(),
        COUNTED,
        Heap::OWNED,
        |from, k| object_gone(l, from, s, k),
    );
    let (n, _) = length_changes(n, at, Heap::OWNED, |from, k| directory_gone(l, from, s, k));
    n
}
