// The kind of an event and the ranges of its operands.
ghost use Rattle.std.specs.Prelude.{◌≡◌};
ghost use Rattle.step.specs.Event.{event, kind_of, kind_number, ranges, ranges_of, fits_ranges, fits_event};

use crate::{Event, Kind, Ranges};
use heap::Heap;
use table::Table;

// Any number that no kind has is an unknown kind's.
impl From<u16> for Kind {
    ghost from_gives = { λ number kind. kind ≡ kind_of number };

    #[tactic(auto, unfolding(crate::specs::Event::kind_of))]
    fn from(number: u16) -> Kind {
        match number {
            1 => Kind::New,
            2 => Kind::Move,
            3 => Kind::Clear,
            4 => Kind::Load,
            5 => Kind::Store,
            6 => Kind::Send,
            7 => Kind::Receive,
            8 => Kind::Settle,
            9 => Kind::Collect,
            10 => Kind::Drop,
            _ => Kind::Unknown,
        }
    }
}

impl From<Kind> for u16 {
    ghost from_gives = { λ kind number. number ≡ kind_number kind };

    // `as` gives an enum's number.
    fn from(kind: Kind) -> u16 {
        kind as u16
    }
}

impl Kind {
    pub fn ranges(self) -> Ranges
        ensures { result ≡ ranges_of self }
    {
        match self {
            Kind::New | Kind::Clear => Ranges::of(Heap::NODES, Heap::ROOTS, UNUSED, UNUSED),
            Kind::Move => Ranges::of(Heap::NODES, Heap::ROOTS, Heap::ROOTS, UNUSED),
            Kind::Load => Ranges::of(Heap::NODES, Heap::ROOTS, Heap::ROOTS, Heap::FIELDS),
            Kind::Store => Ranges::of(Heap::NODES, Heap::ROOTS, Heap::FIELDS, Heap::ROOTS),
            Kind::Send => Ranges::of(Heap::NODES, Heap::ROOTS, Heap::NODES, UNUSED),
            Kind::Receive => Ranges::of(Table::PLACES, Heap::ROOTS, UNUSED, UNUSED),
            Kind::Settle => Ranges::of(Table::PLACES, UNUSED, UNUSED, UNUSED),
            Kind::Collect => Ranges::of(Heap::NODES, UNUSED, UNUSED, UNUSED),
            Kind::Drop => Ranges::of(Heap::NODES, Heap::OBJECTS, UNUSED, UNUSED),
            Kind::Unknown => Ranges::of(0, 0, 0, 0),
        }
    }
}

// As the rows above name it.
const UNUSED: u8 = Ranges::UNUSED;

impl Ranges {
    // An operand that a kind doesn't list must be 0.
    pub const UNUSED: u8 = 1;

    fn of(a: u8, b: u8, c: u8, d: u8) -> Ranges
        ensures { result ≡ ranges a b c d }
    {
        Ranges { a, b, c, d }
    }

    // Each operand lies in its range.
    pub fn admit(self, e: Event) -> bool
        ensures { result ≡ fits_ranges self e }
    {
        e.a < self.a && e.b < self.b && e.c < self.c && e.d < self.d
    }
}

impl Event {
    pub fn new(kind: Kind, a: u8, b: u8, c: u8, d: u8) -> Event
        ensures { result ≡ event (kind_number kind) a b c d }
    {
        Event {
            kind: kind.into(),
            a,
            b,
            c,
            d,
        }
    }

    // A known kind, each operand in its range.
    #[tactic(auto, unfolding(crate::specs::Event::fits_event))]
    pub fn fits(self) -> bool
        ensures { result ≡ fits_event self }
    {
        Kind::from(self.kind).ranges().admit(self)
    }
}
