// Bytes put one behind the other, in memory of a fixed size. A contract sees the list of the bytes put so far.
ghost use Rattle.std.specs.Prelude.{◌≡◌, ◌+◌, ◌≤◌, List, ℕ, [], ◌++◌, length, take};
ghost use Rattle.terms.specs.Bytes.{bytes_of, twos_complement};

use entry::ReturnCount;
use image::RecordBytes;
use std::marker::Model;

#[derive(Drop)]
pub(crate) struct Buffer<const N: usize> {
    bytes: [u8; N],
    length: usize,
}

// No record has more bytes. The number stands again in `append_record`, and where it becomes a `RecordBytes`, whose 20 `Tells` fixes.
pub(crate) type Record = Buffer<20>;

impl<const N: usize> Model for Buffer<N> {
    ghost Value = { List ℕ };

    ghost view = { λ b. take b.length b.bytes };

    ghost invariant = { λ b. b.length ≤ N };
}

impl<const N: usize> Buffer<N> {
    pub(crate) fn new() -> Self
        ensures { result ≡ [] }
    {
        Buffer {
            bytes: [0; N],
            length: 0,
        }
    }

    pub(crate) fn append(&mut self, more: &[u8])
        requires { length self.old + length more.now ≤ N }
        ensures { self.new ≡ self.old ++ more.now }
    {
        let end = self.length + more.len();
        let all = &mut self.bytes[..];
        all[self.length..end].copy_from_slice(more);
        self.length = end;
    }

    // A record, by a copy of all its room, which takes no call; what stands behind its length counts for nothing. Of an object, a directory or a
    // message that isn't there the record has no bytes.
    pub(crate) fn append_record(&mut self, record: &Record)
        requires { length self.old + 20 ≤ N }
        ensures { self.new ≡ self.old ++ record.now }
    {
        if record.length == 0 {
            return;
        }
        let from = self.length;
        let all = &mut self.bytes[..];
        all[from..from + 20].copy_from_slice(&record.bytes);
        self.length = from + record.length;
    }

    // Two bytes, the lowest first.
    pub(crate) fn word(&mut self, n: u16)
        requires { length self.old + 2 ≤ N }
        ensures { self.new ≡ self.old ++ bytes_of 2 n }
    {
        self.append(&n.to_le_bytes());
    }

    // Four bytes, the lowest first.
    pub(crate) fn number(&mut self, n: u32)
        requires { length self.old + 4 ≤ N }
        ensures { self.new ≡ self.old ++ bytes_of 4 n }
    {
        self.append(&n.to_le_bytes());
    }

    pub(crate) fn returns(&mut self, c: ReturnCount)
        requires { length self.old + 4 ≤ N }
        ensures { self.new ≡ self.old ++ bytes_of 4 (twos_complement c.0) }
    {
        self.number(c.0.cast_unsigned());
    }

    pub(crate) fn bytes(&self) -> &[u8]
        ensures { result.now ≡ self.now }
    {
        &self.bytes[..self.length]
    }
}

impl Buffer<20> {
    pub(crate) fn into_record(self) -> RecordBytes
        ensures room { length result.bytes ≡ 20 }
        ensures small { result.length ≤ 20 }
        ensures front { take result.length result.bytes ≡ self }
    {
        let bytes = self.bytes;
        RecordBytes {
            bytes,
            length: self.length,
        }
    }
}
