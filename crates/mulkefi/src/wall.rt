// The wall on lent memory: a message delivered to an image.
ghost use Rattle.mulkefi.specs.Calls.{WallCallWritten};

use crate::AnswerField;
use crate::buffers::{refusal_answer, write_answer};
use edit_plan::Removed;
use message::{EditNumber, Mark};
use replication::{Delivered, Replica, wall_deliver};

// Delivers a message to the image in the first `len` bytes of `buffer`, at a count and with a mark. Accepted, it answers 0: the edit was made as at the
// desk; or the message is old, `buffer` is left, and `answer` holds the count and the size that were found. Refused, it answers as the
// desk does, and leaves all as it was.
#[unsafe(no_mangle)]
pub extern "C" fn mulkefi_wall_deliver(
    buffer: &mut [u8],
    len: usize,
    count: EditNumber,
    mark: Mark,
    message: &[u8],
    answer: &mut [AnswerField; 5],
) -> u32
    ensures { WallCallWritten len count mark message.now buffer.old buffer.new answer.old answer.new result }
{
    let replica = Replica {
        size: len,
        mark,
        count,
    };
    let delivered = wall_deliver(replica, buffer, message);
    match delivered.reply {
        Err(refusal) => refusal_answer(refusal),
        Ok(Delivered::Old) => write_answer(delivered.replica, Removed::NOTHING, answer),
        Ok(Delivered::Applied(removed)) => write_answer(delivered.replica, removed, answer),
    }
}
