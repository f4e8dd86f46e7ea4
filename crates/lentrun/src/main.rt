// Runs outside cases: each settles a decrement on an entry that is lent, and is compared with what must come of it.
// A case is the entry, the entry after it, m, n and the number that must come back. An entry is its sort (1 a directory, 2 a remote entry),
// Parent, Presence, a byte that is not used, RC, MsgCtr, RefWeight. Numbers are little-endian, return counts in two's complement.
#![tactic(auto)]

ghost use Rattle.std.specs.Prelude.{◌≡◌, ◌+◌, ◌≤◌};
ghost use Rattle.entry.specs.Acts.{told};
ghost use Rattle.lent.specs.Lent.{lent};

use entry::{Act, Directory, Entry, Remote, ReturnCount, Weight};
use std::io::{self, ErrorKind, Read};
use terms::Refusal;

// The bytes of a case.
const CASE: usize = 41;

// The most cases that are read.
const CASES: u32 = 1000;

// The sort of an entry, as the stored cases have it.
const DIRECTORY: u8 = 1;

// The entry is lent for the time of the call, and then read.
fn lent_out(mut e: Entry, m: ReturnCount, n: Weight) -> Act<Entry>
    ensures { told result ≡ lent e m n }
{
    let refusal = lent::settle(&mut e, m, n).err();
    Act { refusal, entry: e }
}

// Reader has the like, private to it: this program has no use for an image.
fn number_at(s: &[u8; CASE], at: usize) -> u32
    requires { at + 4 ≤ 41 }
{
    u32::from_le_bytes([s[at], s[at + 1], s[at + 2], s[at + 3]])
}

fn returns_at(s: &[u8; CASE], at: usize) -> ReturnCount
    requires { at + 4 ≤ 41 }
{
    ReturnCount(number_at(s, at).cast_signed())
}

fn entry_at(s: &[u8; CASE], at: usize) -> Entry
    requires { at + 16 ≤ 41 }
{
    let rc = number_at(s, at + 4);
    let msg_ctr = returns_at(s, at + 8);
    if s[at] == DIRECTORY {
        return Entry::AtOwner(Directory { rc, msg_ctr });
    }
    Entry::Elsewhere(Remote {
        rc,
        parent: s[at + 1],
        presence: s[at + 2] != 0,
        msg_ctr,
        ref_weight: Weight(number_at(s, at + 12)),
    })
}

// Whether the number and the entry that come of a case are the right ones. The number is told.
fn agrees(rt: &impl Print, s: &[u8; CASE]) -> io::Result<bool> {
    let act = lent_out(entry_at(s, 0), returns_at(s, 32), Weight(number_at(s, 36)));
    let number = act.refusal.map_or(0, Refusal::number);
    print!(rt; "{number}")?;
    Ok(number == s[40] && act.entry == entry_at(s, 16))
}

// Reads a case and tells what came of it. False at the end of the input, which may cut a case short.
fn one_more<I: Read>(rt: &impl Print, input: &mut I) -> io::Result<bool> {
    let mut s = [0u8; CASE];
    if let Err(error) = input.read_exact(&mut s) {
        if error.kind() == ErrorKind::UnexpectedEof {
            return Ok(false);
        }
        return Err(error);
    }
    let agree = agrees(rt, &s)?;
    println!(rt; "{}", if agree { "" } else { " differs" })?;
    Ok(true)
}

fn main(rt: HostRuntime) -> io::Result<()> {
    let mut input = rt.reader();
    for cases in 0..CASES {
        if !one_more(&rt, &mut input)? {
            return println!(rt; "{cases} cases");
        }
    }
    println!(rt; "{CASES} cases")
}
