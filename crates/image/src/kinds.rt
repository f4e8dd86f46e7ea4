// The kinds of record: the number that stands for each, and how many bytes its record has.
ghost use Rattle.std.specs.Prelude.{◌≡◌, ◌+◌};
ghost use Rattle.image.specs.Records.{HEAD as HEAD_BYTES, code_of, kind_of_code, length_of};

use crate::RecordKind;

// The bytes of a record's head: payload length and kind, two bytes each.
pub const HEAD: usize = 4;

impl From<u16> for RecordKind {
    ghost from_gives = { λ code kind. kind ≡ kind_of_code code };

    #[tactic(auto, unfolding(crate::specs::Records::kind_of_code))]
    fn from(code: u16) -> RecordKind {
        match code {
            0x0100 => RecordKind::Count,
            0x0101 => RecordKind::Live,
            0x0102 => RecordKind::NodeRoots,
            0x0103 => RecordKind::Directory,
            0x0104 => RecordKind::Remote,
            0x0105 => RecordKind::Reference,
            0x0106 => RecordKind::Decrement,
            0x01FF => RecordKind::End,
            _ => RecordKind::Unknown,
        }
    }
}

impl From<RecordKind> for u16 {
    ghost from_gives = { λ kind code. code ≡ code_of kind };

    // `as` gives an enum's number.
    fn from(kind: RecordKind) -> u16 {
        kind as u16
    }
}

impl RecordKind {
    // How many bytes the payload has.
    pub fn length(self) -> usize
        ensures { result ≡ length_of self }
    {
        match self {
            RecordKind::Count => 4,
            RecordKind::Live => 5,
            RecordKind::NodeRoots => 9,
            RecordKind::Directory => 9,
            RecordKind::Remote => 16,
            RecordKind::Reference => 4,
            RecordKind::Decrement => 12,
            RecordKind::End => 0,
            RecordKind::Unknown => 0,
        }
    }

    // How many bytes the record has.
    pub fn size(self) -> usize
        ensures { result ≡ HEAD_BYTES + length_of self }
    {
        HEAD + self.length()
    }
}
