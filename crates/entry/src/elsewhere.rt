// The acts on a remote entry, which any node but the owner holds. An act that a count forbids leaves it as it was.
// `sent` and `settled` read like a directory's and stand apart all the same: the rules state an act for each sort, and a return count's range differs.
ghost use Rattle.std.specs.Prelude.{◌≡◌};
ghost use Rattle.entry.specs.Fits.{fits_remote};
ghost use Rattle.entry.specs.Acts.{told, first_received, remote_sent, remote_sent_home, remote_received_again, remote_settled, remote_set_unused, remote_may_go};

use crate::{Act, Entry, Remote, ReturnCount, Weight};

impl Remote {
    // A first reference arrived: its sender is the Parent, now and for good.
    pub fn first_received(sender: u8) -> Remote
        ensures { result ≡ first_received sender }
    {
        Remote {
            rc: 0,
            parent: sender,
            presence: true,
            msg_ctr: ReturnCount(0),
            ref_weight: Weight(1),
        }
    }

    // Sent on to a node that isn't the owner.
    #[tactic(auto, unfolding(crate::specs::Acts::remote_sent))]
    pub fn sent(mut self) -> Act<Remote>
        ensures { told result ≡ remote_sent self }
    {
        if Weight::MOST <= self.rc {
            return Act::torn(self);
        }
        self.rc += 1;
        Act::done(self)
    }

    // Sent home to the owner: a return, and no reference that this node counts.
    #[tactic(auto, unfolding(crate::specs::Acts::remote_sent_home))]
    pub fn sent_home(mut self) -> Act<Remote>
        ensures { told result ≡ remote_sent_home self }
    {
        let Some(more) = self.msg_ctr.sum(ReturnCount(1)) else {
            return Act::torn(self);
        };
        self.msg_ctr = more;
        Act::done(self)
    }

    // A reference arrived again. From the Parent it adds to the weight; any other sender gets it back as a decrement.
    #[tactic(auto, unfolding(crate::specs::Acts::remote_received_again))]
    pub fn received_again(mut self, sender: u8) -> Act<Remote>
        ensures { told result ≡ remote_received_again self sender }
    {
        if self.parent == sender {
            if Weight::MOST <= self.ref_weight.0 {
                return Act::torn(self);
            }
            self.ref_weight.0 += 1;
        }
        self.presence = true;
        Act::done(self)
    }

    // A decrement arrived: it takes n references away and brings m returns.
    #[tactic(auto, unfolding(crate::specs::Acts::remote_settled))]
    pub fn settled(mut self, m: ReturnCount, n: Weight) -> Act<Remote>
        ensures { told result ≡ remote_settled self m n }
    {
        if self.rc < n.0 || !m.fits() {
            return Act::torn(self);
        }
        let Some(joined) = self.msg_ctr.sum(m) else {
            return Act::torn(self);
        };
        self.rc -= n.0;
        self.msg_ctr = joined;
        Act::done(self)
    }

    // Nothing at the node holds the object any more.
    pub fn set_unused(mut self) -> Remote
        ensures { result ≡ remote_set_unused self }
    {
        self.presence = false;
        self
    }

    // The deletion condition: not in use here, and every reference sent on is settled.
    pub fn may_go(self) -> bool
        ensures { result ≡ remote_may_go self }
    {
        !self.presence && self.rc == 0
    }

    // Whether its numbers are in their ranges.
    #[tactic(auto, unfolding(crate::specs::Fits::fits_remote))]
    pub fn fits(self) -> bool
        ensures { result ≡ fits_remote self }
    {
        self.rc <= Weight::MOST
            && self.parent < Entry::NODES
            && self.msg_ctr.fits()
            && self.ref_weight.fits()
    }
}
