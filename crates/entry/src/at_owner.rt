// The acts on a directory, the owner's entry. An act that a count forbids leaves it as it was.
ghost use Rattle.std.specs.Prelude.{◌≡◌};
ghost use Rattle.entry.specs.Entry.{is_clear_directory};
ghost use Rattle.entry.specs.Fits.{fits_directory};
ghost use Rattle.entry.specs.Acts.{told, first_sent, directory_sent, directory_came_home, directory_settled, directory_may_go};

use crate::{Act, Directory, ReturnCount, Weight};

impl Directory {
    // The owner sends for the first time.
    pub fn first_sent() -> Directory
        ensures { result ≡ first_sent }
    {
        Directory {
            rc: 1,
            msg_ctr: ReturnCount(0),
        }
    }

    // The owner sends again.
    #[tactic(auto, unfolding(crate::specs::Acts::directory_sent))]
    pub fn sent(mut self) -> Act<Directory>
        ensures { told result ≡ directory_sent self }
    {
        if Weight::MOST <= self.rc {
            return Act::torn(self);
        }
        self.rc += 1;
        Act::done(self)
    }

    // A reference came home. Its sender has counted the return and tells of it in a decrement, which may come later.
    #[tactic(auto, unfolding(crate::specs::Acts::directory_came_home))]
    pub fn came_home(mut self) -> Act<Directory>
        ensures { told result ≡ directory_came_home self }
    {
        let Some(fewer) = self.msg_ctr.directory_sum(ReturnCount(-1)) else {
            return Act::torn(self);
        };
        self.msg_ctr = fewer;
        Act::done(self)
    }

    // A decrement arrived: it takes n references away and brings m returns.
    #[tactic(auto, unfolding(crate::specs::Acts::directory_settled))]
    pub fn settled(mut self, m: ReturnCount, n: Weight) -> Act<Directory>
        ensures { told result ≡ directory_settled self m n }
    {
        if self.rc < n.0 || !m.fits() {
            return Act::torn(self);
        }
        let Some(joined) = self.msg_ctr.directory_sum(m) else {
            return Act::torn(self);
        };
        self.rc -= n.0;
        self.msg_ctr = joined;
        Act::done(self)
    }

    // Nobody else holds the object: both numbers are 0.
    pub fn is_clear(self) -> bool
        ensures { result ≡ is_clear_directory self }
    {
        self.rc == 0 && self.msg_ctr.is_none()
    }

    // The deletion condition.
    pub fn may_go(self) -> bool
        ensures { result ≡ directory_may_go self }
    {
        self.is_clear()
    }

    // Whether its numbers are in their ranges.
    #[tactic(auto, unfolding(crate::specs::Fits::fits_directory))]
    pub fn fits(self) -> bool
        ensures { result ≡ fits_directory self }
    {
        self.rc <= Weight::MOST && self.msg_ctr.fits_directory()
    }
}
