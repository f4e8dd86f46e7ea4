// Event records in a stream of bytes.
ghost use Rattle.std.specs.Prelude.{◌≡◌};
ghost use Rattle.run.specs.Next.{next};

use crate::Next;
use step::Event;

// What stands at the front: nothing, a record that cannot be taken, or an event.
#[tactic(auto, unfolding(crate::specs::Next::next))]
pub(crate) fn next_in(rest: &[u8]) -> Next
    ensures { result ≡ next rest.now }
{
    if rest.is_empty() {
        Next::Nothing
    } else if rest.len() < Event::RECORD || !Event::is_stated(rest) {
        Next::Broken
    } else {
        Next::Found(Event::from(rest))
    }
}
