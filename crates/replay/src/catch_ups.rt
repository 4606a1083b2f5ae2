// Catch-ups: the input is a call and what it writes. In order: the desk's mark (8 bytes), the desk's count and the wall's (4 each), the room
// that the caller lends and the size of the window (2 each); then the window, then the messages that are written.
use crate::written::{PATTERN, holds_just};
use big_endian::{get2, get4, get8};

const HEAD: usize = 20;

// Room for all messages of a window, 2,432 bytes, and some more.
const ROOM: usize = 2560;

pub(crate) fn alike(outcome: u8, input: &[u8]) -> bool {
    let lent = usize::from(get2(input, 16));
    let end = HEAD + usize::from(get2(input, 18));
    if input.len() < end || ROOM < lent {
        return false;
    }
    let mut buf = [PATTERN; ROOM];
    let caught_up = window::catch_up(
        &input[HEAD..end],
        get4(input, 8),
        get8(input, 0),
        get4(input, 12),
        &mut buf[..lent],
    );
    let number = match caught_up {
        Ok(()) => 0,
        Err(refusal) => refusal.number(),
    };
    outcome == number && holds_just(&buf, &input[end..])
}
