// Turns a scenario on standard input, one event a line, into event records on standard output. A bad line is refused with its number, on
// standard error, and nothing is written to standard output.
#![tactic(auto)]

ghost use Rattle.std.specs.Prelude.{◌≤◌, IfOk};

use input::read_full;
use scenario::{Unwritten, write_events};
use std::fmt;
use std::io::{self, Read};

// The most bytes of text that are taken; by one more it is seen that there are too many.
const TEXT: usize = 65536;

// Why the records of a scenario are not written, or not all of them.
#[derive(Clone, Copy, Debug, PartialEq, Eq)]
enum Failure {
    NotRead,
    TooLong,
    Unwritten(Unwritten),
    NotWritten,
}

impl fmt::Display for Failure {
    fn fmt<W: fmt::Write>(&self, f: &mut fmt::Formatter<W>) -> fmt::Result {
        match self {
            Failure::NotRead => write!(f, "standard input: not read to its end"),
            Failure::TooLong => write!(f, "standard input: more than {TEXT} bytes"),
            Failure::Unwritten(why) => write!(f, "{why}"),
            Failure::NotWritten => write!(f, "standard output: not all was written"),
        }
    }
}

impl From<Unwritten> for Failure {
    fn from(why: Unwritten) -> Failure {
        Failure::Unwritten(why)
    }
}

// Puts the whole input at the front of text, and tells how long it is.
fn read_text(input: &mut impl Read, text: &mut [u8; TEXT]) -> Result<usize, Failure>
    ensures { IfOk result (λ n. n ≤ TEXT) }
{
    let n = read_full(input, text).map_err(|_| Failure::NotRead)?;
    let mut more = [0u8; 1];
    match input.read(&mut more) {
        // The input has ended.
        Ok(0) => Ok(n),
        _ if n < TEXT => Err(Failure::NotRead),
        _ => Err(Failure::TooLong),
    }
}

#[tactic(auto, using(scenario::specs::RecordLaws::written_fits))]
fn run(rt: &(impl Input + Print)) -> Result<(), Failure> {
    let mut text = [0u8; TEXT];
    let n = read_text(&mut rt.reader(), &mut text)?;
    let mut out = [0u8; TEXT];
    let length = write_events(&text[..n], &mut out)?;
    rt.write_all(&out[..length])
        .map_err(|_| Failure::NotWritten)
}

fn main(rt: HostRuntime) -> io::Result<()> {
    match run(&rt) {
        Ok(()) => Ok(()),
        Err(failure) => eprintln!(rt; "{failure}"),
    }
}
