// What is read of a deed: the event's value, and what the summary of a run counts.
ghost use Rattle.std.specs.Prelude.{◌≡◌};
ghost use Rattle.step.specs.Deed.{deed_of};
ghost use Rattle.step.specs.Outcome.{value_of, decrements_sent, decrements_saved};

use crate::Deed;

impl Deed {
    // What a value says where no decrement was sent: the definition `value_of` fixes the number.
    pub const NODECREMENT: u32 = 255;

    pub fn value(self) -> u32
        ensures { result ≡ value_of (deed_of self) }
    {
        match self {
            Deed::Arranged | Deed::Settled => 0,
            Deed::Born(object) => u32::from(object),
            Deed::Sent(place) | Deed::Answered(place) | Deed::Dropped(place) => u32::from(place),
            Deed::Collected(objects) => objects,
            Deed::CameHome | Deed::Made | Deed::Merged | Deed::Cleared => Deed::NODECREMENT,
        }
    }

    pub fn decrements_sent(self) -> u32
        ensures { result ≡ decrements_sent (deed_of self) }
    {
        u32::from(matches!(self, Deed::Answered(_) | Deed::Dropped(_)))
    }

    pub fn decrements_saved(self) -> u32
        ensures { result ≡ decrements_saved (deed_of self) }
    {
        u32::from(matches!(self, Deed::Merged))
    }
}
