// What an image tells, asked where it lies: each thing is looked for from a place in the bytes on.
ghost use Rattle.std.specs.Prelude.{◌≡◌, ◌<◌, IfSome};
ghost use Rattle.std.specs.Option.{unwrap_or};
ghost use Rattle.terms.specs.Limits.{NODES, OWNED};
ghost use Rattle.image.specs.Find.{found_from};
ghost use Rattle.image.specs.Spots.{object, roots, message, spot_position};
ghost use Rattle.splice.specs.Changed.{entry_spot};
ghost use Rattle.plan.specs.Plan.{root_of, object_of, is_dead_own_in, free_own_in};

use heap::Heap;
use image::{Found, RecordKind};
use reader::{look_from, place_of};

// ---- what stands there, in one line for each sort: the kind that stands for it. The image goes along as a slice, round which a struct of its own
// would be no plainer.

pub fn object_from(l: &[u8], from: usize, o: u8) -> Found
    ensures { result ≡ found_from from (spot_position (object o)) l.now }
{
    look_from(l, from, place_of(RecordKind::Live, o, 0))
}

pub(crate) fn roots_from(l: &[u8], from: usize, p: u8) -> Found
    ensures { result ≡ found_from from (spot_position (roots p)) l.now }
{
    look_from(l, from, place_of(RecordKind::NodeRoots, p, 0))
}

// An entry at the owner is a directory.
pub fn entry_from(l: &[u8], from: usize, p: u8, o: u8) -> Found
    ensures { result ≡ found_from from (spot_position (entry_spot p o)) l.now }
{
    if p == o / Heap::OWNED {
        look_from(l, from, place_of(RecordKind::Directory, o, 0))
    } else {
        look_from(l, from, place_of(RecordKind::Remote, p, o))
    }
}

// A message of either sort.
pub(crate) fn message_from(l: &[u8], from: usize, s: u8) -> Found
    ensures { result ≡ found_from from (spot_position (message s)) l.now }
{
    look_from(l, from, place_of(RecordKind::Reference, s, 0))
}

// What root r of p holds.
pub(crate) fn root_of(l: &[u8], p: u8, r: u8) -> u8
    ensures { result ≡ root_of l.now p r }
{
    roots_from(l, 0, p).held.roots().root(r)
}

// ---- objects that aren't live; that p is a node stands in three private contracts of this crate, as in step's

fn is_live(l: &[u8], o: u8) -> bool
    ensures { result ≡ (object_of l.now o).live }
{
    object_from(l, 0, o).held.object().live
}

// An object of p that isn't live.
#[tactic(auto, unfolding(crate::specs::Plan::is_dead_own_in))]
pub(crate) fn is_dead_own(l: &[u8], p: u8, o: u8) -> bool
    ensures { result ≡ is_dead_own_in l.now p o }
{
    o / Heap::OWNED == p && !is_live(l, o)
}

// The lowest object of p that isn't live, counted from 0 among its own.
pub(crate) fn free_own(l: &[u8], p: u8) -> Option<u8>
    requires { p < NODES }
    ensures lowest { unwrap_or result OWNED ≡ free_own_in l.now p }
    ensures owned { IfSome result (λ k. k < OWNED) }
{
    (0..Heap::OWNED).find(|&k| !is_live(l, Heap::OWNED * p + k))
}
