// Edits: the input is a call and the rest of its answer. In order: the place of the first relation not met (2 bytes, 0 where
// the number is neither 13 nor 19), operation and curve (4 each), the pick's patterns (8 each), the room that the caller lends,
// the size of the image before the edit and the size of what is written (4 each); then that image, then what is written.
use crate::patterns::number;
use crate::written::{IMAGE_ROOM, PATTERN, holds_just};
use big_endian::{get2, get4, get8};
use edit_plan::Removed;
use geom::Vec2;
use message::Operation;
use modify::Edited;
use refusal::Refusal;

const HEAD: usize = 38;

// An accepted edit writes the removed curve with its two ends, and the image after them.
const REPORT: usize = 12;

fn pick(input: &[u8]) -> Vec2 {
    Vec2 {
        x: number(get8(input, 10)),
        y: number(get8(input, 18)),
    }
}

fn reports(removed: Removed, bytes: &[u8]) -> bool {
    removed.curve == get4(bytes, 0)
        && removed.from == get4(bytes, 4)
        && removed.to == get4(bytes, 8)
}

// Whether an accepted edit writes some bytes into the room that is lent for them, or finds it too short.
fn writes(outcome: u8, edited: Edited, room: usize, bytes: &[u8]) -> bool {
    let Some(lent) = room.checked_sub(REPORT) else {
        return outcome == Refusal::ShortBuffer.number() && bytes.is_empty();
    };
    if IMAGE_ROOM < lent {
        return false;
    }
    let mut buf = [PATTERN; IMAGE_ROOM];
    match sketch_image::write(edited.sketch, &mut buf[..lent]) {
        Ok(()) => match bytes.split_at_checked(REPORT) {
            Some((report, image)) => {
                outcome == 0 && reports(edited.removed, report) && holds_just(&buf, image)
            }
            None => false,
        },
        Err(refusal) => outcome == refusal.number() && holds_just(&buf, bytes),
    }
}

// The answer to an operation that there is, on a sketch that was read.
fn answers(outcome: u8, edit: Result<Edited, Refusal>, input: &[u8], bytes: &[u8]) -> bool {
    match edit {
        Ok(edited) => writes(outcome, edited, get4(input, 26) as usize, bytes),
        Err(refusal) => {
            outcome == refusal.number()
                && refusal.place() == usize::from(get2(input, 0))
                && bytes.is_empty()
        }
    }
}

// The place is compared only where an edit refuses, and not where the image or the operation is refused before.
pub(crate) fn alike(outcome: u8, input: &[u8]) -> bool {
    let end = HEAD + get4(input, 30) as usize;
    let written = get4(input, 34) as usize;
    if input.len() != end + written {
        return false;
    }
    let sketch = match sketch_image::read(&input[HEAD..end]) {
        Ok(sketch) => sketch,
        Err(refusal) => return outcome == refusal.number() && written == 0,
    };
    let operation = match Operation::try_from(get4(input, 2)) {
        Ok(operation) => operation,
        Err(refusal) => return outcome == refusal.number() && written == 0,
    };
    let edit = modify::edit(operation, sketch, get4(input, 6), pick(input));
    answers(outcome, edit, input, &input[end..])
}
