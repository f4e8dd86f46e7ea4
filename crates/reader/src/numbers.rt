// Numbers in bytes, little-endian, and return counts in two's complement.
ghost use Rattle.std.specs.Prelude.{◌≡◌, ◌+◌, ◌≤◌, length, take, drop};
ghost use Rattle.terms.specs.Bytes.{number_of, signed};
ghost use Rattle.entry.specs.Entry.{returns};

use entry::ReturnCount;

// The number in the two bytes from a place on.
pub(crate) fn word_at(l: &[u8], at: usize) -> u16
    requires { at + 2 ≤ length l.now }
    ensures { result ≡ number_of (take 2 (drop at l.now)) }
{
    u16::from_le_bytes([l[at], l[at + 1]])
}

// The number in the four bytes from a place on.
pub(crate) fn number_at(l: &[u8], at: usize) -> u32
    requires { at + 4 ≤ length l.now }
    ensures { result ≡ number_of (take 4 (drop at l.now)) }
{
    u32::from_le_bytes([l[at], l[at + 1], l[at + 2], l[at + 3]])
}

// The return count in the four bytes from a place on.
pub(crate) fn returns_at(l: &[u8], at: usize) -> ReturnCount
    requires { at + 4 ≤ length l.now }
    ensures { result ≡ returns (signed (number_of (take 4 (drop at l.now)))) }
{
    ReturnCount(number_at(l, at).cast_signed())
}
