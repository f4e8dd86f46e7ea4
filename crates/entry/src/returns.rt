// Return counts and weights: their ranges, and sums that stay within them.
ghost use Rattle.std.specs.Prelude.{◌≡◌};
ghost use Rattle.entry.specs.Entry.{is_none};
ghost use Rattle.entry.specs.Fits.{fits_returns, fits_directory_returns, fits_weight};
ghost use Rattle.entry.specs.Acts.{sum_within};

use crate::{ReturnCount, Weight};

impl ReturnCount {
    // The most that a return count may be.
    pub const MOST: i32 = 1_000_000_000;

    // The least that a directory's may be.
    pub const LEAST: i32 = -ReturnCount::MOST;

    // Whether a remote entry or a decrement may hold it.
    pub fn fits(self) -> bool
        ensures { result ≡ fits_returns self }
    {
        0 <= self.0 && self.0 <= ReturnCount::MOST
    }

    // Whether a directory may hold it.
    pub fn fits_directory(self) -> bool
        ensures { result ≡ fits_directory_returns self }
    {
        ReturnCount::LEAST <= self.0 && self.0 <= ReturnCount::MOST
    }

    // Exactly zero: a count below zero isn't.
    pub fn is_none(self) -> bool
        ensures { result ≡ is_none self.0 }
    {
        self.0 == 0
    }

    // A directory's count with m, if it stays a directory's.
    pub(crate) fn directory_sum(self, m: ReturnCount) -> Option<ReturnCount>
        ensures { result ≡ sum_within fits_directory_returns self m }
    {
        let sum = ReturnCount(self.0.checked_add(m.0)?);
        (self.fits_directory() && sum.fits_directory()).then_some(sum)
    }

    // A remote entry's count with m, if it stays a remote entry's, whose range is part of a directory's.
    pub(crate) fn sum(self, m: ReturnCount) -> Option<ReturnCount>
        ensures { result ≡ sum_within fits_returns self m }
    {
        let sum = self.directory_sum(m)?;
        (self.fits() && sum.fits()).then_some(sum)
    }
}

impl Weight {
    // The most that a weight or a count of references may be.
    pub const MOST: u32 = 1_000_000_000;

    // Whether a remote entry or a decrement may hold it.
    pub fn fits(self) -> bool
        ensures { result ≡ fits_weight self }
    {
        0 < self.0 && self.0 <= Weight::MOST
    }
}
