// The record at the front of the bytes: its frame, its turn, its content, in this order. The first that is not in order decides.
ghost use Rattle.std.specs.Prelude.{◌≡◌, ◌<◌, ◌≤◌, length, IfOk};
ghost use Rattle.image.specs.Front.{front_of_result, front_of};

use crate::contents::{fits_record, trails};
use crate::frames::frame_of;
use crate::orders::spot_of;
use image::{Front, Turn};
use terms::Refusal;

// The record at the front of the bytes, if it may come now.
#[tactic(auto, unfolding(image::specs::Front::whole_of))]
pub(crate) fn front_of(turn: Turn, l: &[u8]) -> Result<Front, Refusal>
    ensures front { front_of_result result ≡ front_of turn l.now }
    ensures some { IfOk result (λ front. 0 < front.length) }
    ensures within { IfOk result (λ front. front.length ≤ length l.now) }
{
    let kind = frame_of(l)?;
    let spot = spot_of(kind, l);
    if !(turn.first..=turn.last).contains(&spot.at) {
        return Err(Refusal::Order);
    }
    if !fits_record(kind, l) {
        return Err(Refusal::Value);
    }
    if trails(kind, l) {
        return Err(Refusal::Trail);
    }
    Ok(Front {
        kind,
        key: spot.key,
        next: spot.next,
        length: kind.size(),
    })
}
