// The calls that the controller's host makes: byte slices in, one number back, nothing kept between calls. What each call comes to stands in
// specs/HostCall.antt. No call makes a table of the image: it is asked, and changed, where it lies. crates/etzvanul_c exports the calls to C;
// include/etzvanul.h tells a C programmer the same.
#![tactic(auto)]

mod amends; // amends.rt: what an event comes to on an accepted image, and the new image
mod depths; // depths.rt: how far the owner of an object is from a node
mod puts; // puts.rt: the new image, and how long it is
mod sweep_puts; // sweep_puts.rt: the new image of a COLLECT, and how long it is

ghost use Rattle.std.specs.Prelude.{◌≡◌};
ghost use Rattle.etzvanul.specs.HostCall.{host_number, host_bytes, start_number, start_bytes, check_number, depth_call};
ghost use Rattle.etzvanul.specs.Made.{number_made};

use amends::amend;
use depths::depth_in;
use puts::copy_part;
use reader::check;
use step::Event;
use table::Table;
use terms::Refusal;

// How far the copying of an image is: what is passed of the old one, and what stands of the new one.
#[derive(Clone, Copy)]
pub struct Cursor {
    pub from: usize,
    pub to: usize,
}

// What an accepted call comes to: its value, and how long the new image is.
#[derive(Clone, Copy)]
pub(crate) struct Done {
    pub value: u32,
    pub length: u32,
}

impl Done {
    // A value, and no image.
    fn of(value: u32) -> Done
        ensures { result ≡ record { value = value; length = 0 } }
    {
        Done { value, length: 0 }
    }
}

// Where the value and the length of the new image begin in the number.
const VALUE: u64 = 256;

const LENGTH: u64 = 16777216;

// The image of the fresh field: the event count, the roots of each node, all empty, and the end. No table is made for it: a host's stack is small.
const FRESH: [u8; 116] = [
    4, 0, 0, 1, 0, 0, 0, 0, 9, 0, 2, 1, 0, 255, 255, 255, 255, 255, 255, 255, 255, 9, 0, 2, 1, 1,
    255, 255, 255, 255, 255, 255, 255, 255, 9, 0, 2, 1, 2, 255, 255, 255, 255, 255, 255, 255, 255,
    9, 0, 2, 1, 3, 255, 255, 255, 255, 255, 255, 255, 255, 9, 0, 2, 1, 4, 255, 255, 255, 255, 255,
    255, 255, 255, 9, 0, 2, 1, 5, 255, 255, 255, 255, 255, 255, 255, 255, 9, 0, 2, 1, 6, 255, 255,
    255, 255, 255, 255, 255, 255, 9, 0, 2, 1, 7, 255, 255, 255, 255, 255, 255, 255, 255, 0, 0, 255,
    1,
];

// The one place where the number of a call is made.
fn number_of(call: Result<Done, Refusal>) -> u64
    ensures { result ≡ number_made call }
{
    match call {
        Ok(done) => VALUE * u64::from(done.value) + LENGTH * u64::from(done.length),
        Err(refusal) => u64::from(refusal.number()),
    }
}

// One event: the new image, or why there is none.
fn step(image: &[u8], event: &[u8], out: &mut [u8]) -> Result<Done, Refusal>
    ensures number { number_made result ≡ host_number image.now event.now out.old }
    ensures bytes { out.new ≡ host_bytes image.now event.now out.old }
{
    check(image)?;
    if !Event::is_record(event) {
        return Err(Refusal::Event);
    }
    amend(image, Event::from(event), out)
}

// One event on the field whose image this is: the new image goes to the front of out.
pub fn etzvanul_step(image: &[u8], event: &[u8], out: &mut [u8]) -> u64
    ensures number { result ≡ host_number image.now event.now out.old }
    ensures bytes { out.new ≡ host_bytes image.now event.now out.old }
{
    number_of(step(image, event, out))
}

// The image of the fresh field at the front of out.
fn put_fresh(out: &mut [u8]) -> Result<Done, Refusal>
    ensures number { number_made result ≡ start_number out.old }
    ensures bytes { out.new ≡ start_bytes out.old }
{
    if out.len() < FRESH.len() {
        return Err(Refusal::Room);
    }
    copy_part(out, 0, &FRESH);
    // The cast is of 116.
    Ok(Done {
        value: 0,
        length: FRESH.len() as u32,
    })
}

// Where a host starts: the image of the fresh field.
pub fn etzvanul_fresh(out: &mut [u8]) -> u64
    ensures number { result ≡ start_number out.old }
    ensures bytes { out.new ≡ start_bytes out.old }
{
    number_of(put_fresh(out))
}

// Whether an image is accepted.
pub fn etzvanul_check(image: &[u8]) -> u64
    ensures { result ≡ check_number image.now }
{
    number_of(check(image).map(|()| Done::of(0)))
}

// How far the owner is, or why the image is refused.
fn depth(image: &[u8], node: u8, object: u8) -> Result<Done, Refusal>
    ensures { number_made result ≡ depth_call image.now node object }
{
    check(image)?;
    let depth = depth_in(image, node, object).unwrap_or(Table::UNREACHED);
    Ok(Done::of(u32::from(depth)))
}

// How far the owner of an object is from a node.
pub fn etzvanul_depth(image: &[u8], node: u8, object: u8) -> u64
    ensures { result ≡ depth_call image.now node object }
{
    number_of(depth(image, node, object))
}
