// The lines of a run: one for each event, `stop`, and the last one.
ghost use Rattle.std.specs.Prelude.{◌≡◌, ◌+◌, ◌≤◌, length};
ghost use Rattle.table.specs.declared.Table.{Table};
ghost use Rattle.step.specs.Outcome.{outcome_of, value_of};
ghost use Rattle.run.specs.Buffer.{RoomFor, Appends};
ghost use Rattle.run.specs.Ran.{LINE, ENDING};
ghost use Rattle.run.specs.Run.{RECORDS, line, last_line, stop, ending};

use crate::text::Text;
use crate::{Next, Summary};
use step::{Deed, Event};
use terms::Refusal;

// The answer, 0 or the refusal's number, and the value.
fn answer_and_value(outcome: Result<Deed, Refusal>) -> (u8, u32)
    ensures answer { (t : Table) → result.0 ≡ (outcome_of outcome t).answer }
    ensures value { (t : Table) → result.1 ≡ value_of (outcome_of outcome t).deed }
{
    match outcome {
        Ok(deed) => (0, deed.value()),
        Err(refusal) => (refusal.number(), 0),
    }
}

// Its number, kind, a b c d, answer, value.
#[tactic(auto, unfolding(crate::specs::Run::line))]
pub(crate) fn put_line(text: &mut Text, number: u32, e: Event, outcome: Result<Deed, Refusal>)
    requires few { number ≤ RECORDS }
    requires room { text.old.length + LINE ≤ length text.old.out.now }
    ensures wrote { (t : Table) → Appends text.old (line number e (outcome_of outcome t)) text.new }
    ensures short { text.new.length ≤ text.old.length + LINE }
{
    let (answer, value) = answer_and_value(outcome);
    text.line(&[
        ("", number),
        (": ", u32::from(e.kind)),
        (" ", u32::from(e.a)),
        (" ", u32::from(e.b)),
        (" ", u32::from(e.c)),
        (" ", u32::from(e.d)),
        (" = ", u32::from(answer)),
        (" ", value),
    ]);
}

// Accepted events, live objects, entries, messages in the air, decrements sent and saved.
#[tactic(auto, unfolding(crate::specs::Run::last_line))]
fn put_last_line(text: &mut Text, s: Summary)
    requires { RoomFor text.old (last_line s) }
    ensures { Appends text.old (last_line s) text.new }
{
    text.line(&[
        ("end events=", s.events),
        (" live=", s.live),
        (" entries=", s.entries),
        (" messages=", s.messages),
        (" sent=", s.sent),
        (" saved=", s.saved),
    ]);
}

// `stop`, where something stands that is not taken.
fn put_stop(text: &mut Text, front: Next)
    requires { RoomFor text.old (stop front) }
    ensures { Appends text.old (stop front) text.new }
{
    match front {
        Next::Nothing => {}
        Next::Broken | Next::Found(_) => text.text("stop\n"),
    }
}

// The end of a run: `stop` if it stopped, and the last line.
pub(crate) fn put_ending(text: &mut Text, s: Summary, front: Next)
    requires { text.old.length + ENDING ≤ length text.old.out.now }
    ensures { Appends text.old (ending s front) text.new }
{
    put_stop(text, front);
    put_last_line(text, s);
}
