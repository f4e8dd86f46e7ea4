// The frame of a record: its head is there, its kind is known, it states the length of that kind, and its payload is there.
ghost use Rattle.std.specs.Prelude.{◌≡◌, ◌+◌, ◌≤◌, length, IfOk};
ghost use Rattle.image.specs.Front.{frame_of_result, frame_of};
ghost use Rattle.image.specs.Records.{HEAD as HEAD_BYTES, length_of};

use crate::numbers::word_at;
use image::{HEAD, RecordKind};
use terms::Refusal;

// The kind of the record at the front of the bytes, if its frame is in order.
#[tactic(auto, unfolding(image::specs::Front::frame_of))]
pub(crate) fn frame_of(l: &[u8]) -> Result<RecordKind, Refusal>
    ensures frame { frame_of_result result ≡ frame_of l.now }
    ensures whole { IfOk result (λ kind. HEAD_BYTES + length_of kind ≤ length l.now) }
{
    if l.len() < HEAD {
        return Err(Refusal::Short);
    }
    let kind = RecordKind::from(word_at(l, 2));
    if kind == RecordKind::Unknown {
        return Err(Refusal::Kind);
    }
    if usize::from(word_at(l, 0)) != kind.length() {
        return Err(Refusal::Length);
    }
    if l.len() < kind.size() {
        return Err(Refusal::Short);
    }
    Ok(kind)
}
