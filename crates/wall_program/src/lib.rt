// The wall's program on slices: an image, a mark, then the messages after it.
#![tactic(auto)]

ghost use Rattle.replication.specs.Transitions.{memory, Ready};
ghost use Rattle.wall_program.specs.Program.{program_outcome, WritesOutcome, DeliversAll, WritesBytes};

use big_endian::{get4, get8};
use image::MAX_IMAGE_SIZE;
use message::{MARK_SIZE, MESSAGE_SIZE};
use replication::{Replica, start, wall_deliver};
use rows::{front, put_run, rest};

// The replica after the messages in some bytes, of which the last may be cut short. What is refused is passed over.
fn deliver_all(replica: Replica, buffer: &mut [u8], bytes: &[u8]) -> Replica
    requires { Ready (memory replica buffer.old) }
    ensures { DeliversAll (memory replica buffer.old) bytes.now (memory result buffer.new) }
{
    let mut last = replica;
    for message in bytes.chunks(MESSAGE_SIZE) {
        last = wall_deliver(last, buffer, message).replica;
    }
    last
}

// Puts bytes at the buffer's front, and answers how many they are, or 0 where the buffer is too short.
fn write_bytes(bytes: &[u8], out: &mut [u8]) -> usize
    ensures { WritesBytes bytes.now out.old out.new result }
{
    if out.len() < bytes.len() {
        return 0;
    }
    put_run(bytes, out, 0);
    bytes.len()
}

// Reads an image, a mark and the messages after it, and writes the last image to the buffer's front, or the number that the image is
// refused by; with fewer bytes than a mark's after it there are no messages. Answers how many bytes it wrote, 0 where the buffer is too short.
pub fn run_program(input: &[u8], out: &mut [u8]) -> usize
    ensures { WritesOutcome (program_outcome input.now) out.old out.new result }
{
    let end = 4 + get4(input, 0) as usize;
    let mut buffer = [0u8; MAX_IMAGE_SIZE];
    let replica = match start(front(input, end), get8(input, end), 0, &mut buffer) {
        Ok(replica) => replica,
        // Two bytes after their length: a version, and the refusal's number.
        Err(refusal) => return write_bytes(&[0, 0, 0, 2, 1, refusal.number()], out),
    };
    let last = deliver_all(replica, &mut buffer, rest(input, end + MARK_SIZE));
    write_bytes(front(&buffer, last.size), out)
}
