// The desk on lent memory: a person's edit of an image, and the message of it.
ghost use Rattle.mulkefi.specs.Calls.{mk_edit_by_number, DeskCallWritten};

use crate::AnswerField;
use crate::buffers::{refusal_answer, write_answer};
use message::{EditNumber, Mark, Operation};
use replication::{Replica, desk_edit, first_refusal};
use rows::front;
use sketch::Id;
use window::{WINDOW_SIZE, Window};

// Makes an edit of the image in the first `len` bytes of `buffer`, at a count. Accepted, it answers 0: the new image stands at the front
// of `buffer`, the edit's message, under the mark, at the front of `message` and in the window, which slides by it, and `answer` holds the
// count, the image's size and the report. Refused, it answers the number, plus 65536 times the place that comes with it, and leaves all as it was.
#[unsafe(no_mangle)]
pub extern "C" fn mulkefi_desk_edit(
    buffer: &mut [u8],
    len: usize,
    count: EditNumber,
    mark: Mark,
    operation: u32,
    curve: Id,
    x: f64,
    y: f64,
    message: &mut [u8],
    window: &mut [u8; WINDOW_SIZE],
    answer: &mut [AnswerField; 5],
) -> u32
    ensures { DeskCallWritten len count mark operation (mk_edit_by_number operation curve x y) buffer.old buffer.new message.old message.new window.old window.new answer.old answer.new result }
{
    let operation = match Operation::try_from(operation) {
        Ok(operation) => operation,
        Err(refusal) => {
            let image = front(&buffer[..], len);
            return u32::from(first_refusal(image, refusal).number());
        }
    };
    let replica = Replica {
        size: len,
        mark,
        count,
    };
    let bytes = *window;
    let edited = desk_edit(
        replica,
        Window { bytes },
        buffer,
        operation,
        curve,
        x,
        y,
        message,
    );
    match edited.reply {
        Err(refusal) => refusal_answer(refusal),
        Ok(removed) => {
            let kept = edited.window.bytes;
            *window = kept;
            write_answer(edited.replica, removed, answer)
        }
    }
}
