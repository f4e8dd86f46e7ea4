// An event as a record of bytes: payload length and kind, two bytes each, then the operands. Bytes that are missing count as 0.
ghost use Rattle.std.specs.Prelude.{◌≡◌, ◌+◌, ◌*◌, get_or};
ghost use Rattle.step.specs.EventRecord.{states_event, is_record, event_in};

use crate::Event;

fn byte_at(bytes: &[u8], at: usize) -> u8
    ensures { result ≡ get_or bytes.now at 0 }
{
    bytes.get(at).copied().unwrap_or(0)
}

// Two bytes, little-endian.
fn word(low: u8, high: u8) -> u16
    ensures { result ≡ low + 256 * high }
{
    u16::from_le_bytes([low, high])
}

impl Event {
    // The bytes of an event record.
    pub const RECORD: usize = 8;

    // The payload length that it states.
    pub const OPERANDS: u16 = 4;

    // The stated length is that of an event.
    pub fn is_stated(bytes: &[u8]) -> bool
        ensures { result ≡ states_event bytes.now }
    {
        word(byte_at(bytes, 0), byte_at(bytes, 1)) == Event::OPERANDS
    }

    // The bytes are exactly one event record.
    pub fn is_record(bytes: &[u8]) -> bool
        ensures { result ≡ is_record bytes.now }
    {
        bytes.len() == Event::RECORD && Event::is_stated(bytes)
    }
}

// The event that the first eight bytes hold. No `TryFrom`: the definition is of any bytes, and a run takes records from the front of more.
impl From<&[u8]> for Event {
    ghost from_gives = { λ bytes e. e ≡ event_in bytes.now };

    fn from(bytes: &[u8]) -> Event {
        Event {
            kind: word(byte_at(bytes, 2), byte_at(bytes, 3)),
            a: byte_at(bytes, 4),
            b: byte_at(bytes, 5),
            c: byte_at(bytes, 6),
            d: byte_at(bytes, 7),
        }
    }
}
