// The new image of a plan: the old one copied once with the changes made, and how long that becomes.
ghost use Rattle.std.specs.Prelude.{◌≡◌, ℕ, List, [], ◌∷◌, ◌+◌, ◌*◌, ◌≤◌, length};
ghost use Rattle.terms.specs.Bytes.{over};
ghost use Rattle.image.specs.declared.Held.TheVariants as h;
ghost use Rattle.image.specs.Stored.{FULL, Stored};
ghost use Rattle.splice.specs.Onward.{From};
ghost use Rattle.plan.specs.Change.{Change, To};
ghost use Rattle.plan.specs.Made.{accepted_plan, change_of};
ghost use Rattle.plan.specs.Plan.{changes_of};
ghost use Rattle.etzvanul.specs.Going.{Going, Measured};
ghost use Rattle.etzvanul.specs.InTurn.{Puts, Measures};
ghost use Rattle.etzvanul.specs.Orderly.{Orderly, Cuts, Moved, passed, put, others, length_with, length_after};
ghost use Rattle.etzvanul.specs.Spliced.{new_image};

use crate::Cursor;
use image::Held;
use plan::{Plan, Replacement};
use writer::record_of;

// The bytes of the record of the event count, which stands first.
pub(crate) const COUNTED: usize = 8;

// Bytes, from a place of the new image on; the place after them comes back. Byte by byte, which becomes vector code: `copy_from_slice` would need
// `memmove` of the host, besides `memcpy` and `memset`.
pub(crate) fn copy_part(out: &mut [u8], to: usize, part: &[u8]) -> usize
    requires { to + length part.now ≤ length out.old }
    ensures { Stored out.old to part.now out.new result }
{
    for (i, byte) in part.iter().enumerate() {
        out[to + i] = *byte;
    }
    to + part.len()
}

// A change, if there is one: the old image up to a record, then the record that is to stand there. The buffer, the old image and the cursor stay
// apart, as `Moved` takes them: a struct that holds the lent buffer would need a clause for it in every contract.
fn put_change(out: &mut [u8], l: &[u8], c: Cursor, change: Option<Replacement>) -> Cursor
    requires { Orderly c.from (change_of change ∷ []) (length l.now) × (c.to + length (put c.from (change_of change) l.now) ≤ length out.old) }
    ensures { Moved l.now c (change_of change) out.old result out.new }
{
    let Some(new) = change else {
        return c;
    };
    let to = copy_part(out, c.to, &l[c.from..new.at]);
    let record = record_of(new.a, new.b, new.held);
    Cursor {
        from: new.after,
        to: copy_part(out, to, &record.bytes[..record.length]),
    }
}

// The first n changes that a function gives, each looked for from where the last one ended. No `fold`: its closure would change `out`.
pub(crate) fn put_changes<F: Fn(usize, u8) -> Option<Replacement>>(
    out: &mut [u8],
    l: &[u8],
    c: Cursor,
    n: u8,
    change: F,
) -> Cursor
    requires { (g : ℕ → Change) × (place : ℕ → ℕ) × (whole : List ℕ) × (rest : List Change)
        × Puts l.now n (F.pre change) (F.post change) g place whole rest c out.old }
    ensures { (g : ℕ → Change) (place : ℕ → ℕ) (whole : List ℕ) (rest : List Change)
        → Puts l.now n (F.pre change) (F.post change) g place whole rest c out.old
        → Going whole l.now rest result.from result.to out.new × From l.now result.from (place n) }
{
    let mut next = c;
    for k in 0..n {
        next = put_change(out, l, next, change(next.from, k));
    }
    next
}

// How long n bytes become by the first changes that a function gives, `many` of them, and where the last one ends. No `fold`: each turn asks for
// `Cuts`, which the loop's invariant has.
pub(crate) fn length_changes<F: Fn(usize, u8) -> Option<Replacement>>(
    n: usize,
    at: usize,
    many: u8,
    change: F,
) -> (usize, usize)
    requires { (l : List ℕ) × (g : ℕ → Change) × (place : ℕ → ℕ) × (old : ℕ) × (whole : ℕ) × (most : ℕ) × (rest : List Change)
        × Measures l many (F.pre change) (F.post change) g place old whole most rest at n }
    ensures { (l : List ℕ) (g : ℕ → Change) (place : ℕ → ℕ) (old whole most : ℕ) (rest : List Change)
        → Measures l many (F.pre change) (F.post change) g place old whole most rest at n
        → Measured old whole (most + 20 * many) rest result.0 × From l result.1 (place many) }
{
    let mut length = n;
    let mut from = at;
    for k in 0..many {
        let new = change(from, k);
        length = length_with(length, new);
        from = place_after(from, new);
    }
    (length, from)
}

// The event count, with which every image begins.
pub(crate) fn put_count(out: &mut [u8], l: &[u8], count: u32) -> Cursor
    requires { Orderly 0 (To 0 8 0 0 (h.Count count) ∷ []) (length l.now) × (length (put 0 (To 0 8 0 0 (h.Count count)) l.now) ≤ length out.old) }
    ensures { Moved l.now (record { from = 0; to = 0 }) (To 0 8 0 0 (h.Count count)) out.old result out.new }
{
    let counted = Replacement {
        at: 0,
        after: COUNTED,
        a: 0,
        b: 0,
        held: Held::Count(count),
    };
    put_change(out, l, Cursor { from: 0, to: 0 }, Some(counted))
}

// The new image at the front of out.
pub(crate) fn put_plan(out: &mut [u8], l: &[u8], count: u32, plan: &Plan)
    requires { Orderly 0 (changes_of count (accepted_plan plan.now)) (length l.now) × (length (new_image count (accepted_plan plan.now) l.now) ≤ length out.old) }
    ensures { out.new ≡ over (new_image count (accepted_plan plan.now) l.now) out.old }
{
    let mut c = put_count(out, l, count);
    // No `fold`, as in `put_changes`.
    for change in plan.changes() {
        c = put_change(out, l, c, change);
    }
    copy_part(out, c.to, &l[c.from..]);
}

// Where the next change may begin.
fn place_after(from: usize, change: Option<Replacement>) -> usize
    ensures { result ≡ passed from (change_of change) }
{
    change.map_or(from, |new| new.after)
}

// The length that a change leaves.
fn length_with(n: usize, change: Option<Replacement>) -> usize
    requires { (n ≤ FULL + 2000) × Cuts n (change_of change) }
    ensures { result ≡ length_with n (change_of change) }
{
    match change {
        None => n,
        Some(new) => n + new.held.size() - (new.after - new.at),
    }
}

// How long the new image of an image of n bytes is.
pub(crate) fn length_after(n: usize, plan: &Plan) -> usize
    requires { (n ≤ FULL) × Orderly 8 (others (accepted_plan plan.now)) n }
    ensures { result ≡ length_after n (others (accepted_plan plan.now)) }
{
    let mut length = n;
    // No `fold`, as in `length_changes`.
    for change in plan.changes() {
        length = length_with(length, change);
    }
    length
}
