// A table written as its image, into a buffer that is lent.
#![tactic(auto, unfolding(image::specs::Writer::put_answer, image::specs::Writer::put_length, image::specs::Writer::put_bytes, image::specs::Writer::write_answer, image::specs::Writer::write_length, image::specs::Writer::write_bytes))]

ghost use Rattle.std.specs.Prelude.{◌≡◌, ◌≤◌};
ghost use Rattle.image.specs.Stored.{FULL as ROOM_FOR_ALL};
ghost use Rattle.image.specs.Writer.{written_of, put_answer, put_length, put_bytes, write_answer, write_length, write_bytes};

use crate::buffer::Buffer;
use crate::sections::append_image;
use table::Table;
use terms::Refusal;

// The image of any table at the front of out, and its length; with too little room out is as it was. The shape is not asked: that is `write`'s.
// The image is made in a buffer of its own, so that one pass over the table is enough.
pub fn put_image(t: &Table, out: &mut [u8]) -> Result<usize, Refusal>
    ensures answer { (written_of result).answer ≡ put_answer t.now out.old }
    ensures length { (written_of result).length ≡ put_length t.now out.old }
    ensures bytes { out.new ≡ put_bytes t.now out.old }
    ensures small { (written_of result).length ≤ ROOM_FOR_ALL }
{
    let mut image = Buffer::new();
    append_image(&mut image, t);
    let made = image.bytes();
    let length = made.len();
    if out.len() < length {
        return Err(Refusal::Room);
    }
    out[..length].copy_from_slice(made);
    Ok(length)
}

// The image of the table at the front of out, and its length. For a table that breaks the shape, or with too little room, out is as it was.
pub fn write(t: &Table, out: &mut [u8]) -> Result<usize, Refusal>
    ensures answer { (written_of result).answer ≡ write_answer t.now out.old }
    ensures length { (written_of result).length ≡ write_length t.now out.old }
    ensures bytes { out.new ≡ write_bytes t.now out.old }
{
    if !t.fits() {
        return Err(Refusal::Shape);
    }
    put_image(t, out)
}
