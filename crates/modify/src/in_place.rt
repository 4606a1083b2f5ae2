// An edit of the image at a buffer's front, which the new image replaces.
ghost use Rattle.std.specs.Prelude.{◌≤◌, take};
ghost use Rattle.image.specs.Image.{max_image_size};
ghost use Rattle.extend.specs.Answers.{answer_of};
ghost use Rattle.modify.specs.ImageEdits.{EditWritten};
ghost use Rattle.modify.specs.ImageContracts.{FrontReplaced, EditedThrough};

use crate::image_edits::edit_image;
use apply::Applied;
use geom::Vec2;
use image::MAX_IMAGE_SIZE;
use message::Operation;
use refusal::Refusal;
use rows::{front, put_run};
use sketch::Id;

// Room for the new image of a small drawing, which costs less to make than room for any.
const SMALL_ROOM: usize = 4096;

// An image up to this size is tried with the small room.
const SMALL_IMAGE: usize = 3584;

// An edit's new image, which stands at the front of `out`, goes to the buffer's front; or the buffer is left, where the new image does not fit.
fn replace_front(new: Applied, out: &[u8], buffer: &mut [u8]) -> Result<Applied, Refusal>
    ensures { FrontReplaced (answer_of (Ok new)) out.now buffer.old buffer.new (answer_of result) }
{
    if buffer.len() < new.size {
        return Err(Refusal::ShortBuffer);
    }
    put_run(front(out, new.size), buffer, 0);
    Ok(new)
}

// An edit by room of a size for the new image.
fn edit_by_room<const ROOM: usize>(
    operation: Operation,
    buffer: &mut [u8],
    len: usize,
    curve: Id,
    at: Vec2,
) -> Result<Applied, Refusal>
    requires { ROOM ≤ max_image_size }
    ensures { EditedThrough operation (take len buffer.old) curve at ROOM buffer.old buffer.new (answer_of result) }
{
    let mut out = [0u8; ROOM];
    let edited = edit_image(operation, front(&buffer[..], len), curve, at, &mut out)?;
    replace_front(edited, &out, buffer)
}

// A new image that the small room does not hold is made once more, with room for any.
fn edit_by_either_room(
    operation: Operation,
    buffer: &mut [u8],
    len: usize,
    curve: Id,
    at: Vec2,
) -> Result<Applied, Refusal>
    ensures { EditWritten operation (take len buffer.old) curve at buffer.old buffer.new (answer_of result) }
{
    match edit_by_room::<SMALL_ROOM>(operation, buffer, len, curve, at) {
        Ok(new) => Ok(new),
        Err(refusal) => match refusal {
            Refusal::ShortBuffer => {
                edit_by_room::<MAX_IMAGE_SIZE>(operation, buffer, len, curve, at)
            }
            _ => Err(refusal),
        },
    }
}

// One edit of a curve of the image in the first `len` bytes of a buffer, picked at a point. Accepted, the new image stands at the buffer's
// front; refused, the buffer is left.
pub fn edit_in_place(
    operation: Operation,
    buffer: &mut [u8],
    len: usize,
    curve: Id,
    at: Vec2,
) -> Result<Applied, Refusal>
    ensures { EditWritten operation (take len buffer.old) curve at buffer.old buffer.new (answer_of result) }
{
    if len <= SMALL_IMAGE {
        return edit_by_either_room(operation, buffer, len, curve, at);
    }
    edit_by_room::<MAX_IMAGE_SIZE>(operation, buffer, len, curve, at)
}
