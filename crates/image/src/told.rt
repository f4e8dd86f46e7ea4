// What a record tells, taken apart: one thing of it, where nothing of the sort is told the empty one, and how many bytes the record has. Each
// thing is of its own type, and so each has its own match.
ghost use Rattle.std.specs.Prelude.{◌≡◌};
ghost use Rattle.image.specs.Find.{size_of, count_in, object_in, roots_in, entry_in, message_in};

use crate::{Held, RecordKind};
use entry::Entry;
use heap::{Object, Roots};
use table::Message;

impl Held {
    // How many bytes its record has.
    #[tactic(auto, unfolding(crate::specs::Find::size_of))]
    pub fn size(self) -> usize
        ensures { result ≡ size_of self }
    {
        match self {
            Held::Count(_) => RecordKind::Count.size(),
            Held::Object(x) if x.live => RecordKind::Live.size(),
            Held::Roots(_) => RecordKind::NodeRoots.size(),
            Held::Entry(Entry::AtOwner(_)) => RecordKind::Directory.size(),
            Held::Entry(Entry::Elsewhere(_)) => RecordKind::Remote.size(),
            Held::Message(Message::Reference { .. }) => RecordKind::Reference.size(),
            Held::Message(Message::Decrement { .. }) => RecordKind::Decrement.size(),
            _ => 0,
        }
    }

    pub fn count(self) -> u32
        ensures { result ≡ count_in self }
    {
        match self {
            Held::Count(n) => n,
            _ => 0,
        }
    }

    pub fn object(self) -> Object
        ensures { result ≡ object_in self }
    {
        match self {
            Held::Object(x) => x,
            _ => Object::idle(),
        }
    }

    pub fn roots(self) -> Roots
        ensures { result ≡ roots_in self }
    {
        match self {
            Held::Roots(x) => x,
            _ => Roots::empty(),
        }
    }

    pub fn entry(self) -> Entry
        ensures { result ≡ entry_in self }
    {
        match self {
            Held::Entry(e) => e,
            _ => Entry::Absent,
        }
    }

    pub fn message(self) -> Message
        ensures { result ≡ message_in self }
    {
        match self {
            Held::Message(m) => m,
            _ => Message::Empty,
        }
    }
}
