// The parts that a plan is made of: a deed, and another record where one was found.
ghost use Rattle.std.specs.Prelude.{◌≡◌, [], ◌∷◌, None};
ghost use Rattle.plan.specs.Made.{replacing};

use crate::{Plan, Replacement};
use image::{Found, Held};
use step::Deed;

impl Plan {
    // A deed that changes nothing; a rule says what it changes besides.
    pub(crate) fn of(deed: Deed) -> Plan
        ensures { result ≡ record {
          deed = deed;
          object = None;
          roots = None;
          entry = None;
          message = None;
        } }
    {
        Plan {
            deed,
            object: None,
            roots: None,
            entry: None,
            message: None,
        }
    }

    // The changes besides the event count, in the order of the image.
    pub fn changes(&self) -> [Option<Replacement>; 4]
        ensures { result ≡ self.now.object ∷ self.now.roots ∷ self.now.entry ∷ self.now.message ∷ [] }
    {
        [self.object, self.roots, self.entry, self.message]
    }
}

// What is to stand there of object, node or place a, or of object b at node a.
pub fn replaced(found: Found, a: u8, b: u8, held: Held) -> Replacement
    ensures { result ≡ replacing found a b held }
{
    Replacement {
        at: found.at,
        after: found.after,
        a,
        b,
        held,
    }
}
