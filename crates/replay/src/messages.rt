// Messages: the input is a mark and then a message, read at that mark, and an accepted one is written back.
use crate::written::{PATTERN, holds_just};
use big_endian::get8;
use message::MARK_SIZE;

// Room for a message, 38 bytes, and some more.
const ROOM: usize = 64;

pub(crate) fn alike(outcome: u8, input: &[u8]) -> bool {
    let Some((mark, bytes)) = input.split_at_checked(MARK_SIZE) else {
        return false;
    };
    let mark = get8(mark, 0);
    match message::read_message(bytes, mark) {
        Ok(message) => {
            let mut buf = [PATTERN; ROOM];
            outcome == 0
                && message::write_message(message, mark, &mut buf).is_ok()
                && holds_just(&buf, bytes)
        }
        Err(refusal) => outcome == refusal.number(),
    }
}
