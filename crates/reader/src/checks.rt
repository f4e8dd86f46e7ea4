// An image checked where it lies: the reader's answer, and no table.
ghost use Rattle.std.specs.Prelude.{◌≡◌};
ghost use Rattle.terms.specs.Refusals.{answer_of};
ghost use Rattle.image.specs.Check.{check};

use crate::fronts::front_of;
use image::{RecordKind, Turn};
use terms::Refusal;

// Whether `read` accepts the image: its first refusal, or none up to the end record. The loop is that of `fill` with no table: a closure for the
// difference would need a contract longer than the loop, a chain of `F.step`s along the records. A refusal has an arm of its own, and no `?`, so
// that must-fail can plant another answer in it and take away no name.
#[tactic(auto, using(crate::proofs::Checking::at_start, crate::proofs::Checking::further))]
pub fn check(bytes: &[u8]) -> Result<(), Refusal>
    ensures { answer_of result ≡ check bytes.now }
{
    let mut turn = Turn::FIRST;
    let mut rest = bytes;
    // No `for`: how far a turn goes stands in the record.
    loop {
        match front_of(turn, rest) {
            Ok(front) if front.kind == RecordKind::End => return Ok(()),
            Ok(front) => {
                turn = front.next;
                rest = &rest[front.length..];
            }
            Err(refusal) => return Err(refusal),
        }
    }
}
