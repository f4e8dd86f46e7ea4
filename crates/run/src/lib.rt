// A run of event records from the fresh state, and the text that tells of it.
#![tactic(auto)]

ghost use Rattle.std.specs.Prelude.{◌≡◌, ◌<◌, ◌↔◌, ◌+◌, ◌≤◌, length, Ok, IfOk, IsErr};
ghost use Rattle.run.specs.Buffer.{Wrote};
ghost use Rattle.run.specs.Ran.{ENDING, TEXT, Ended, ran, ran_of, run_bytes, told};
ghost use Rattle.run.specs.Run.{run_text};

use crate::line::{put_ending, put_line};
use crate::records::next_in;
use crate::text::Text;
use step::Event;
use table::Table;
use terms::Refusal;

mod advance; // advance.rt: how far a run has come
mod counts; // counts.rt: what the summary counts
mod line; // line.rt: the lines of a run
mod records; // records.rt: event records in a stream of bytes
mod text; // text.rt: text into a lent buffer

// The bytes that a buffer needs, so that any run's text fits: 4,096 lines of at most 64 bytes, and 256 for what ends a run.
pub const TEXT: usize = 262400;

// What stands at the front of the records that are left. Three names: `None`, `Some(Err(Broken))` and `Some(Ok(e))` would be no plainer.
#[derive(Clone, Copy, Debug, PartialEq, Eq)]
pub enum Next {
    // nothing: the run ends
    Nothing,
    // a record that is cut or of another length: the run stops
    Broken,
    Found(Event),
}

// How far a run has come: its table, its records so far, and the decrements sent and saved by them.
#[derive(Clone, Copy)]
pub struct Progress {
    pub table: Table,
    pub records: u32,
    pub sent: u32,
    pub saved: u32,
}

// Accepted events, live objects, entries of both sorts, messages of both sorts, decrements sent, decrements saved.
#[derive(Clone, Copy, Debug, PartialEq, Eq)]
pub struct Summary {
    pub events: u32,
    pub live: u32,
    pub entries: u32,
    pub messages: u32,
    pub sent: u32,
    pub saved: u32,
}

// What is told of a run: the bytes of its text, and its summary.
#[derive(Clone, Copy, Debug, PartialEq, Eq)]
pub struct Told {
    pub length: usize,
    pub summary: Summary,
}

// What ends a run: the last line, before it `stop` if something stands there that is not taken.
fn finish(text: &mut Text, p: &Progress, front: Next) -> Told
    requires { text.old.length + ENDING ≤ length text.old.out.now }
    ensures same_reference { text.new.out.ghost_name ≡ text.old.out.ghost_name }
    ensures ended { Ended p.now front text.old.out.now text.old.length text.new.out.now (ran_of (Ok result)) }
{
    let summary = p.summary();
    put_ending(text, summary, front);
    Told {
        length: text.length,
        summary,
    }
}

// A line for each event, and what ends the run.
fn tell(input: &[u8], text: &mut Text) -> Told
    requires empty { text.old.length ≡ 0 }
    requires room { TEXT ≤ length text.old.out.now }
    ensures same_reference { text.new.out.ghost_name ≡ text.old.out.ghost_name }
    ensures value { ran_of (Ok result) ≡ told input.now }
    ensures wrote { Wrote text.old.out.now 0 (run_text input.now) text.new.out.now result.length }
{
    let mut p = Progress::beginning();
    let mut rest = input;
    for number in 1..=Progress::RECORDS {
        let Next::Found(e) = next_in(rest) else {
            break;
        };
        let outcome = p.take(e);
        put_line(text, number, e, outcome);
        rest = &rest[Event::RECORD..];
    }
    finish(text, &p, next_in(rest))
}

// The run that the event records of `input` make, told at the front of `out`; what stands past the text stays.
// Nothing is written where `out` is too short for some run.
#[tactic(auto, unfolding(crate::specs::Ran::ran, crate::specs::Ran::run_bytes))]
pub fn run(input: &[u8], out: &mut [u8]) -> Result<Told, Refusal>
    ensures refused { IsErr result ↔ (length out.old < TEXT) }
    ensures value { ran_of result ≡ ran input.now out.old }
    ensures out_after { out.new ≡ run_bytes input.now out.old }
    ensures inside { IfOk result (λ t. t.length ≤ length out.new) }
{
    if out.len() < TEXT {
        return Err(Refusal::Room);
    }
    Ok(tell(input, &mut Text::new(out)))
}
