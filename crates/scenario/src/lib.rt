// Event scenarios as a person writes them, one event a line, turned into event records. What a line and a text mean stands in specs/.
#![tactic(auto)]

mod lines; // lines.rt: one line
mod numbers; // numbers.rt: the small readers of a line

ghost use Rattle.std.specs.Prelude.{◌≡◌, ◌≤◌, length};
ghost use Rattle.terms.specs.Bytes.{over};
ghost use Rattle.scenario.specs.Text.{meaning_of, checked};
ghost use Rattle.scenario.specs.Records.{record_of, text_records, answer_of, written_of, buffer_of};

use lines::{BadLine, read_line};
use std::error::Error;
use std::fmt;
use step::Event;

// Why no records are written.
#[derive(Clone, Copy, Debug, PartialEq, Eq)]
pub enum Unwritten {
    // The number of the first bad line, counted from 1.
    BadLine(usize),
    TooManyEvents,
}

impl fmt::Display for Unwritten {
    ghost use Rattle.std.specs.Prelude.{Some};
    ghost use Rattle.scenario.specs.Unwritten.{text_of};

    ghost output = { λ why. Some (text_of why) };

    fn fmt<W: fmt::Write>(&self, f: &mut fmt::Formatter<W>) -> fmt::Result {
        match self {
            Unwritten::BadLine(line) => write!(
                f,
                "line {line}: expected five numbers, kind 0..65535 and operands 0..255"
            ),
            Unwritten::TooManyEvents => write!(f, "too many events"),
        }
    }
}

impl Error for Unwritten {}

const RECORD: usize = Event::RECORD;

// A first pass, which only reads: how many events the text tells.
fn check(text: &[u8]) -> Result<usize, Unwritten>
    ensures { result ≡ checked (meaning_of text.now) }
{
    let mut events = 0;
    for (i, line) in text.split(|&b| b == b'\n').enumerate() {
        match read_line(line) {
            Ok(None) => {}
            Ok(Some(_)) => events += 1,
            Err(BadLine) => return Err(Unwritten::BadLine(i + 1)),
        }
    }
    Ok(events)
}

// No `From<Event>`: such an impl would have to stand in step, and `record_of` stands here.
#[tactic(auto, unfolding(crate::specs::Records::record_of))]
fn record(e: Event) -> [u8; RECORD]
    ensures { result ≡ record_of e }
{
    let [length_low, length_high] = Event::OPERANDS.to_le_bytes();
    let [kind_low, kind_high] = e.kind.to_le_bytes();
    [
        length_low,
        length_high,
        kind_low,
        kind_high,
        e.a,
        e.b,
        e.c,
        e.d,
    ]
}

// A second pass, which writes the records of all lines, from the front.
fn put_all(text: &[u8], out: &mut [u8]) -> usize
    requires { length (text_records text.now) ≤ length out.old }
    ensures value { result ≡ length (text_records text.now) }
    ensures out_after { out.new ≡ over (text_records text.now) out.old }
{
    let mut to = 0;
    for line in text.split(|&b| b == b'\n') {
        if let Ok(Some(e)) = read_line(line) {
            out[to..to + RECORD].copy_from_slice(&record(e));
            to += RECORD;
        }
    }
    to
}

// The records of the scenario at the front of out, and how long they are. With a bad line, or too little room, out is as it was.
pub fn write_events(text: &[u8], out: &mut [u8]) -> Result<usize, Unwritten>
    ensures value { answer_of result ≡ written_of text.now (length out.old) }
    ensures out_after { out.new ≡ buffer_of text.now out.old }
{
    let events = check(text)?;
    if out.len() / RECORD < events {
        return Err(Unwritten::TooManyEvents);
    }
    Ok(put_all(text, out))
}
