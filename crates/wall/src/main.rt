// The wall as a program: an image, a mark and the messages after it on standard input, the last image on standard output. A read or a write that
// fails ends it with the system's error.
#![tactic(auto)]

use std::io;
use std::io::Write;

// As much of the input as is looked at.
const INPUT: usize = 65536;

// Room for any image.
const OUTPUT: usize = image::MAX_IMAGE_SIZE;

fn main(rt: HostRuntime) -> io::Result<()> {
    let mut input = [0u8; INPUT];
    let mut out = [0u8; OUTPUT];
    let n = input::read_front(&mut rt.reader(), &mut input)?;
    let size = wall_program::run_program(&input[..n], &mut out);
    io::writer(&rt).write_all(&out[..size])
}
