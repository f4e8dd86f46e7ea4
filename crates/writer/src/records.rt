// The bytes of one record, for the whole image and for whoever replaces single records of one.
#![tactic(auto, unfolding(image::specs::Writer::bytes_of_all))]

ghost use Rattle.std.specs.Prelude.{◌≡◌, ◌∷◌, []};
ghost use Rattle.terms.specs.Bytes.{packed};
ghost use Rattle.image.specs.declared.RecordKind.TheVariants.{Count, End};
ghost use Rattle.image.specs.Find.{held_records};
ghost use Rattle.image.specs.RecordBytes.{Tells};
ghost use Rattle.image.specs.Records.{head_widths, length_of, code_of, row};
ghost use Rattle.image.specs.Stored.{live_record, node_record};
ghost use Rattle.image.specs.Writer.{directory_record, remote_record, message_record, bytes_of_all};

use crate::buffer::{Buffer, Record};
use entry::Entry;
use heap::{Object, Roots};
use image::{Held, RecordBytes, RecordKind};
use table::Message;

// The head of a record: how long its payload is, and the number of its kind.
#[tactic(auto, using(image::proofs::Sizes::payload_small))]
fn head(kind: RecordKind) -> Record
    ensures { result ≡ packed head_widths (length_of kind ∷ code_of kind ∷ []) }
{
    let mut record = Buffer::new();
    // The cast loses nothing: a payload has 16 bytes at most.
    record.word(kind.length() as u16);
    record.word(kind.into());
    record
}

// The event count.
pub(crate) fn count_record(n: u32) -> Record
    ensures { result ≡ bytes_of_all (row Count (n ∷ []) ∷ []) }
{
    let mut record = head(RecordKind::Count);
    record.number(n);
    record
}

// An object, if it is live.
pub(crate) fn object_record(o: u8, object: Object) -> Record
    ensures { result ≡ bytes_of_all (live_record o object) }
{
    if !object.live {
        return Buffer::new();
    }
    let mut record = head(RecordKind::Live);
    record.append(&[o]);
    record.append(&object.fields);
    record
}

// The eight roots of a node.
pub(crate) fn roots_record(p: u8, roots: Roots) -> Record
    ensures { result ≡ bytes_of_all (node_record p roots) }
{
    let mut record = head(RecordKind::NodeRoots);
    record.append(&[p]);
    record.append(&roots.at);
    record
}

// What stands at an object's owner, if it is a directory.
pub(crate) fn directory_record(o: u8, entry: Entry) -> Record
    ensures { result ≡ bytes_of_all (directory_record o entry) }
{
    let Entry::AtOwner(directory) = entry else {
        return Buffer::new();
    };
    let mut record = head(RecordKind::Directory);
    record.append(&[o]);
    record.number(directory.rc);
    record.returns(directory.msg_ctr);
    record
}

// What stands at a node for an object, if it is no directory.
pub(crate) fn remote_record(p: u8, o: u8, entry: Entry) -> Record
    ensures { result ≡ bytes_of_all (remote_record p o entry) }
{
    let Entry::Elsewhere(remote) = entry else {
        return Buffer::new();
    };
    let mut record = head(RecordKind::Remote);
    record.append(&[p, o]);
    record.number(remote.rc);
    record.append(&[remote.parent, u8::from(remote.presence)]);
    record.returns(remote.msg_ctr);
    record.number(remote.ref_weight.0);
    record
}

// What a place holds, if anything.
pub(crate) fn message_record(s: u8, message: Message) -> Record
    ensures { result ≡ bytes_of_all (message_record s message) }
{
    match message {
        Message::Empty => Buffer::new(),
        Message::Reference { from, to, object } => {
            let mut record = head(RecordKind::Reference);
            record.append(&[s, from, to, object]);
            record
        }
        Message::Decrement {
            from,
            to,
            object,
            m,
            n,
        } => {
            let mut record = head(RecordKind::Decrement);
            record.append(&[s, from, to, object]);
            record.returns(m);
            record.number(n.0);
            record
        }
    }
}

// What stands behind all others.
pub(crate) fn end_record() -> Record
    ensures { result ≡ bytes_of_all (row End [] ∷ []) }
{
    head(RecordKind::End)
}

fn held_record(a: u8, b: u8, held: Held) -> Record
    ensures { result ≡ bytes_of_all (held_records a b held) }
{
    match held {
        Held::Nothing => Buffer::new(),
        Held::Count(n) => count_record(n),
        Held::Object(object) => object_record(a, object),
        Held::Roots(roots) => roots_record(a, roots),
        Held::Entry(entry) => match entry {
            Entry::AtOwner(_) => directory_record(b, entry),
            Entry::Absent | Entry::Elsewhere(_) => remote_record(a, b, entry),
        },
        Held::Message(message) => message_record(a, message),
    }
}

// The record that tells so much of object, node or place a, or of object b at node a; no bytes where there is nothing to tell.
pub fn record_of(a: u8, b: u8, held: Held) -> RecordBytes
    ensures { Tells (held_records a b held) result }
{
    held_record(a, b, held).into_record()
}
