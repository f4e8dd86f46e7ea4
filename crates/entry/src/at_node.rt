// The acts on whatever stands for an object at a node: a directory, a remote entry, or nothing. Events know entries by these alone.
ghost use Rattle.std.specs.Prelude.{◌≡◌, eqb};
ghost use Rattle.terms.specs.Limits.{owner};
ghost use Rattle.entry.specs.Entry.{is_absent, is_present, is_clear};
ghost use Rattle.entry.specs.Fits.{fits_entry};
ghost use Rattle.entry.specs.AtNode.{refuses, holder_sent, sent, received, settled, set_unused, may_go};
ghost use Rattle.entry.specs.Acts.{told};

use crate::{Act, Directory, Entry, Remote, ReturnCount, Weight};

impl Act<Entry> {
    pub fn refuses(self) -> bool
        ensures { result ≡ refuses (told self) }
    {
        self.refusal.is_some()
    }
}

impl Entry {
    // Whether the object is the node's own.
    fn is_owner(node: u8, object: u8) -> bool
        ensures { result ≡ eqb node (owner object) }
    {
        node == object / Entry::OWNED
    }

    // The sender's entry when the object's reference goes from node to node.
    #[tactic(auto, unfolding(crate::specs::AtNode::sent))]
    pub fn sent(self, from: u8, to: u8, object: u8) -> Act<Entry>
        ensures { told result ≡ sent from to object self }
    {
        match self {
            Entry::Absent => {
                if Entry::is_owner(from, object) {
                    return Act::done(Entry::AtOwner(Directory::first_sent()));
                }
                Act::torn(Entry::Absent)
            }
            Entry::AtOwner(d) => d.sent().map(Entry::AtOwner),
            Entry::Elsewhere(e) => Entry::holder_sent(Entry::is_owner(to, object), e),
        }
    }

    // A holder sends on. It needs Presence; home is the way to the owner.
    #[tactic(auto, unfolding(crate::specs::AtNode::holder_sent))]
    fn holder_sent(home: bool, e: Remote) -> Act<Entry>
        ensures { told result ≡ holder_sent home e }
    {
        if !e.presence {
            return Act::torn(Entry::Elsewhere(e));
        }
        let act = if home { e.sent_home() } else { e.sent() };
        act.map(Entry::Elsewhere)
    }

    // The receiver's entry when the reference arrives.
    #[tactic(auto, unfolding(crate::specs::AtNode::received))]
    pub fn received(self, from: u8, to: u8, object: u8) -> Act<Entry>
        ensures { told result ≡ received from to object self }
    {
        match self {
            Entry::Absent => {
                if Entry::is_owner(to, object) {
                    return Act::torn(Entry::Absent);
                }
                Act::done(Entry::Elsewhere(Remote::first_received(from)))
            }
            Entry::AtOwner(d) => d.came_home().map(Entry::AtOwner),
            Entry::Elsewhere(e) => e.received_again(from).map(Entry::Elsewhere),
        }
    }

    // The receiver's entry when a decrement arrives.
    #[tactic(auto, unfolding(crate::specs::AtNode::settled))]
    pub fn settled(self, m: ReturnCount, n: Weight) -> Act<Entry>
        ensures { told result ≡ settled m n self }
    {
        match self {
            Entry::Absent => Act::torn(Entry::Absent),
            Entry::AtOwner(d) => d.settled(m, n).map(Entry::AtOwner),
            Entry::Elsewhere(e) => e.settled(m, n).map(Entry::Elsewhere),
        }
    }

    // Nothing at the node holds the object any more, which only a remote entry notes.
    pub fn set_unused(self) -> Entry
        ensures { result ≡ set_unused self }
    {
        match self {
            Entry::Elsewhere(e) => Entry::Elsewhere(e.set_unused()),
            other => other,
        }
    }

    // The deletion condition.
    #[tactic(auto, unfolding(crate::specs::AtNode::may_go))]
    pub fn may_go(self) -> bool
        ensures { result ≡ may_go self }
    {
        match self {
            Entry::Absent => false,
            Entry::AtOwner(d) => d.may_go(),
            Entry::Elsewhere(e) => e.may_go(),
        }
    }

    // Whether the entry may stand for the object at the node: a directory only at the owner, a remote entry only elsewhere.
    #[tactic(auto, unfolding(crate::specs::Fits::fits_entry))]
    pub fn fits(self, node: u8, object: u8) -> bool
        ensures { result ≡ fits_entry node object self }
    {
        let own = Entry::is_owner(node, object);
        match self {
            Entry::Absent => true,
            Entry::AtOwner(d) => own && d.fits(),
            Entry::Elsewhere(e) => !own && e.parent != node && e.fits(),
        }
    }

    pub fn is_absent(self) -> bool
        ensures { result ≡ is_absent self }
    {
        matches!(self, Entry::Absent)
    }

    // A remote entry in use.
    pub fn is_present(self) -> bool
        ensures { result ≡ is_present self }
    {
        matches!(self, Entry::Elsewhere(e) if e.presence)
    }

    // The directory is clear: none stands, or both its numbers are 0.
    pub fn is_clear(self) -> bool
        ensures { result ≡ is_clear self }
    {
        match self {
            Entry::Absent => true,
            Entry::AtOwner(d) => d.is_clear(),
            Entry::Elsewhere(_) => false,
        }
    }
}
