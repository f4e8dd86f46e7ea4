// The terms in which every other crate speaks: limits, refusal numbers, choice and counting. The definitions stand in specs/, their laws in proofs/.
#![tactic(auto)]

ghost use Rattle.std.specs.Prelude.{◌≡◌};
ghost use Rattle.terms.specs.Refusals.{number_of};

// Controllers in a field, and programs that one of them owns.
pub const NODES: u8 = 8;

pub const OWNED: u8 = 8;

// What an event, an image or a table isn't taken for, each with the number that the rules fix. When each is given stands in specs/Numbers.antt.
#[derive(Clone, Copy, Debug, PartialEq, Eq)]
pub enum Refusal {
    Shape = 1,
    Event = 2,
    Ended = 3,
    NoMessage = 4,
    ToItself = 5,
    Empty = 6,
    Away = 7,
    Root = 8,
    NoRoom = 9,
    NoEntry = 10,
    Busy = 11,
    Torn = 12,
    Full = 13,
    Short = 20,
    Kind = 21,
    Length = 22,
    Order = 23,
    Value = 24,
    Trail = 25,
    Room = 26,
}

impl Refusal {
    // A method and no `From`, since callers hand it on by name; `as` gives an enum's number.
    pub fn number(self) -> u8
        ensures { result ≡ number_of self }
    {
        self as u8
    }
}
