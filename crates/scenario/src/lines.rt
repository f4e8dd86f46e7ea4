// One line: nothing, an event, or bad.
ghost use Rattle.std.specs.Prelude.{◌≡◌};
ghost use Rattle.scenario.specs.Line.{event_in, event_told, line_of, line_told, number_in, operand_most, without_return};
ghost use Rattle.scenario.specs.Number.{number_told};

use crate::numbers::{ends, number};
use step::Event;

// A line that has something and is no event.
#[derive(Clone, Copy, Debug, PartialEq, Eq)]
pub(crate) struct BadLine;

fn operand(l: &[u8]) -> Option<(u8, &[u8])>
    ensures { number_told result ≡ number_in operand_most l.now }
{
    let (value, rest) = number(l, u16::from(u8::MAX))?;
    // The cast loses nothing, by the limit.
    Some((value as u8, rest))
}

// Five numbers, and nothing behind them.
#[tactic(auto, unfolding(crate::specs::Line::event_in))]
fn read_event(l: &[u8]) -> Option<Event>
    ensures { event_told result ≡ event_in l.now }
{
    let (kind, rest) = number(l, u16::MAX)?;
    let (a, rest) = operand(rest)?;
    let (b, rest) = operand(rest)?;
    let (c, rest) = operand(rest)?;
    let (d, rest) = operand(rest)?;
    ends(rest).then_some(Event { kind, a, b, c, d })
}

#[tactic(auto, unfolding(crate::specs::Line::without_return))]
fn without_return(l: &[u8]) -> &[u8]
    ensures { result.now ≡ without_return l.now }
{
    l.strip_suffix(b"\r").unwrap_or(l)
}

// The event of a line, if it has one. A line goes from its first byte to its last before the line feed.
#[tactic(auto, unfolding(crate::specs::Line::line_of, crate::specs::Line::bare_line))]
pub(crate) fn read_line(l: &[u8]) -> Result<Option<Event>, BadLine>
    ensures { line_told result ≡ line_of l.now }
{
    let bare = without_return(l);
    if ends(bare) {
        return Ok(None);
    }
    read_event(bare).map(Some).ok_or(BadLine)
}
