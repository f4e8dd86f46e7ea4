// What an act hands back, made and passed on.
ghost use Rattle.std.specs.Prelude.{◌≡◌, None, Some};
ghost use Rattle.terms.specs.declared.Refusal.TheVariants.{Torn};

use crate::Act;
use terms::Refusal;

impl<E> Act<E> {
    pub(crate) fn done(entry: E) -> Act<E>
        ensures { result ≡ record { refusal = None; entry = entry } }
    {
        Act {
            refusal: None,
            entry,
        }
    }

    // No accepted events lead to such an entry.
    pub(crate) fn torn(entry: E) -> Act<E>
        ensures { result ≡ record { refusal = Some Torn; entry = entry } }
    {
        Act {
            refusal: Some(Refusal::Torn),
            entry,
        }
    }

    // The act on a part, as one on the whole.
    pub(crate) fn map<T, F: FnOnce(E) -> T>(self, whole: F) -> Act<T>
        requires { F.pre whole self.entry }
        ensures refusal { result.refusal ≡ self.refusal }
        ensures entry { F.post whole self.entry result.entry }
    {
        Act {
            refusal: self.refusal,
            entry: whole(self.entry),
        }
    }
}
