// What stands at a position of an image, found by a scan over the records as they lie in the bytes: no table is made, and a record that is
// passed costs one test of the length, one kind and one comparison.
ghost use Rattle.std.specs.Prelude.{◌≡◌, ◌+◌, ◌-◌, ◌≤◌, length, drop};
ghost use Rattle.image.specs.Find.{kind_of_low, offset, front_at, held_of, size_of, found_from};

use crate::contents::held_in;
use crate::frames::frame_of;
use crate::orders::{place_of, spot_of};
use image::{Found, Held, RecordKind};

// With fewer bytes than these no record but the end can be at the front.
const KEYED: usize = 6;

// The kind that the low byte of its number stands for; what is none of the others counts as the end, which `From<u16>` does not say.
#[tactic(auto, unfolding(image::specs::Find::kind_of_low))]
fn kind_of_low(k: u8) -> RecordKind
    ensures { result ≡ kind_of_low k }
{
    match k {
        0 => RecordKind::Count,
        1 => RecordKind::Live,
        2 => RecordKind::NodeRoots,
        3 => RecordKind::Directory,
        4 => RecordKind::Remote,
        5 => RecordKind::Reference,
        6 => RecordKind::Decrement,
        _ => RecordKind::End,
    }
}

// Where the records from a position on begin, looked for from a place on. Past the end nothing is looked at. No `for`: how far a step goes stands
// in the record.
#[tactic(auto, using(crate::proofs::Scanning::past, crate::proofs::Scanning::onward))]
fn find_from(bytes: &[u8], from: usize, position: u32) -> usize
    ensures { result ≡ from + offset position (drop from bytes.now) }
{
    if bytes.len() < from {
        return from;
    }
    let mut at = from;
    while at + KEYED <= bytes.len() {
        let kind = kind_of_low(bytes[at + 2]);
        if position <= place_of(kind, bytes[at + 4], bytes[at + 5]) {
            return at;
        }
        at += kind.size();
    }
    at
}

// What the record at a place tells, if it is whole and stands at this position.
#[tactic(auto, using(std::proofs::lemmas::List::drop_all), unfolding(image::specs::Front::frame_of, image::specs::Find::size_of))]
fn held_at(bytes: &[u8], at: usize, position: u32) -> Held
    ensures held { result ≡ held_of (front_at position (drop at bytes.now)) }
    ensures within { size_of result ≤ length bytes.now - at }
{
    let Some(rest) = bytes.get(at..) else {
        return Held::Nothing;
    };
    match frame_of(rest) {
        Ok(kind) if spot_of(kind, rest).at == position => held_in(kind, rest),
        _ => Held::Nothing,
    }
}

// What stands at a position, looked for from a place in the bytes on.
#[tactic(auto, unfolding(image::specs::Find::found_from))]
pub fn look_from(bytes: &[u8], from: usize, position: u32) -> Found
    ensures { result ≡ found_from from position bytes.now }
{
    let at = find_from(bytes, from, position);
    let held = held_at(bytes, at, position);
    Found {
        at,
        after: at + held.size(),
        held,
    }
}
