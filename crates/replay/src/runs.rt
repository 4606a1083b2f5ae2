// Runs of the wall's program: the input is the size of what the program reads, in four bytes, what it reads, and what it
// writes. The outcome is the image's.
use crate::written::{IMAGE_ROOM, PATTERN, holds_just};
use big_endian::{get1, get4};

const HEAD: usize = 4;

// As much of the program's input as is looked at.
const MOST_READ: usize = 65536;

// What is written for an image that is refused: its length, a version, and the number. No image is as short.
const REFUSED: usize = 6;

// The outcome in so many bytes at the front of a buffer.
fn outcome_told(buf: &[u8], written: usize) -> u8 {
    if written == REFUSED { get1(buf, 5) } else { 0 }
}

pub(crate) fn alike(outcome: u8, input: &[u8]) -> bool {
    let size = get4(input, 0) as usize;
    let end = HEAD + size;
    if input.len() < end {
        return false;
    }
    let read = HEAD + size.min(MOST_READ);
    let output = &input[end..];
    let mut buf = [PATTERN; IMAGE_ROOM];
    let written = wall_program::run_program(&input[HEAD..read], &mut buf);
    written == output.len() && outcome == outcome_told(&buf, written) && holds_just(&buf, output)
}
