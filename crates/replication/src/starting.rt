// The start, which is the same for desk and wall.
ghost use Rattle.replication.specs.Transitions.{Starts, started_of};

use crate::Replica;
use crate::refusals::test_image;
use image::MAX_IMAGE_SIZE;
use message::{EditNumber, Mark};
use refusal::Refusal;

// Puts an image at the front of a buffer, for a replica with a mark at a count: 0, or that of the desk whose image a wall is started from; or refuses the image, or a
// buffer without room for any image, and leaves the buffer.
pub fn start(
    image: &[u8],
    mark: Mark,
    count: EditNumber,
    buffer: &mut [u8],
) -> Result<Replica, Refusal>
    ensures { Starts image.now mark count buffer.old buffer.new (started_of result) }
{
    test_image(image)?;
    if buffer.len() < MAX_IMAGE_SIZE {
        return Err(Refusal::ShortBuffer);
    }
    rows::put_run(image, buffer, 0);
    Ok(Replica {
        size: image.len(),
        mark,
        count,
    })
}
