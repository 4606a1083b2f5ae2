// Desk and wall: the wall's program as one call, and a desk's edit and a delivery many times over for timing.
ghost use Rattle.std.specs.Prelude.{◌≡◌, ◌≤◌, length, take};
ghost use Rattle.image.specs.Image.{image_fault, max_image_size};
ghost use Rattle.wall_program.specs.Program.{program_outcome, WritesOutcome};
ghost use Rattle.probe.specs.Refusals.{number_or_sum};
ghost use Rattle.probe.specs.Edits.{repeated};
ghost use Rattle.probe.specs.Replicas.{image_state, desk_adds, desks_sum, wall_adds, walls_sum};

use crate::edits::test_image;
use crate::refusals::{number_or_sum, with_place};
use image::MAX_IMAGE_SIZE;
use message::{EditNumber, MESSAGE_SIZE, Mark, Operation};
use refusal::Refusal;
use replication::{Delivered, Replica};
use rows::put_run;
use sketch::Id;
use window::Window;

// As much of its input as the wall's program looks at.
const INPUT: usize = 65536;

// The wall's program: its input in, its output out. Answers how many bytes it wrote.
#[unsafe(no_mangle)]
pub extern "C" fn mulkefi_wall(input: &[u8], out: &mut [u8]) -> usize
    ensures { WritesOutcome (program_outcome (take 65536 input.now)) out.old out.new result }
{
    wall_program::run_program(&input[..input.len().min(INPUT)], out)
}

// What one edit at a desk that has an image and a count adds to a sum: a refusal's number with its place, or 256 and the count. `buffer` is for
// the desk's image.
fn desk_adds(
    image: &[u8],
    count: EditNumber,
    operation: Operation,
    curve: Id,
    x: f64,
    y: f64,
    buffer: &mut [u8],
) -> u32
    requires { (image_fault image.now ≡ 0) × (max_image_size ≤ length buffer.old) }
    ensures { result ≡ desk_adds operation curve x y (image_state image.now count) }
{
    put_run(image, buffer, 0);
    let replica = Replica {
        size: image.len(),
        mark: 0,
        count,
    };
    let mut message = [0u8; MESSAGE_SIZE];
    let edited = replication::desk_edit(
        replica,
        Window::empty(),
        buffer,
        operation,
        curve,
        x,
        y,
        &mut message,
    );
    match edited.reply {
        Ok(_) => edited.replica.count.wrapping_add(256),
        Err(refusal) => with_place(refusal),
    }
}

fn desks_sum(
    image: &[u8],
    count: EditNumber,
    operation: Operation,
    curve: Id,
    x: f64,
    y: f64,
    times: u32,
) -> u32
    requires { image_fault image.now ≡ 0 }
    ensures { result ≡ repeated times (desk_adds operation curve x y (image_state image.now count)) }
{
    let mut buffer = [0u8; MAX_IMAGE_SIZE];
    let mut sum = 0u32;
    for i in 0..times {
        sum = sum.wrapping_add(desk_adds(image, count, operation, curve, x, y, &mut buffer));
    }
    sum
}

// The sum of so many edits at a desk with an image and a count, by an operation's number.
fn desks_sum_by_number(
    image: &[u8],
    count: EditNumber,
    operation: u32,
    curve: Id,
    x: f64,
    y: f64,
    times: u32,
) -> Result<u32, Refusal>
    ensures { number_or_sum result ≡ desks_sum image.now count operation curve x y times }
{
    test_image(image)?;
    let operation = Operation::try_from(operation)?;
    Ok(desks_sum(image, count, operation, curve, x, y, times))
}

// Makes an edit at a desk with an image and a count so many times, each on that image.
#[unsafe(no_mangle)]
pub extern "C" fn mulkefi_desk_repeated(
    bytes: &[u8],
    count: EditNumber,
    operation: u32,
    curve: Id,
    x: f64,
    y: f64,
    times: u32,
) -> u32
    ensures { result ≡ desks_sum bytes.now count operation curve x y times }
{
    number_or_sum(desks_sum_by_number(bytes, count, operation, curve, x, y, times))
}

// What one delivery to a wall that has an image, a count and a mark adds to a sum: a refusal's number with its place, 256 for an old message, or 256 and
// the count.
fn wall_adds(image: &[u8], count: EditNumber, mark: Mark, message: &[u8], buffer: &mut [u8]) -> u32
    requires { (image_fault image.now ≡ 0) × (max_image_size ≤ length buffer.old) }
    ensures { result ≡ wall_adds mark message.now (image_state image.now count) }
{
    put_run(image, buffer, 0);
    let replica = Replica {
        size: image.len(),
        mark,
        count,
    };
    let delivered = replication::wall_deliver(replica, buffer, message);
    match delivered.reply {
        Ok(Delivered::Old) => 256,
        Ok(Delivered::Applied(_)) => delivered.replica.count.wrapping_add(256),
        Err(refusal) => with_place(refusal),
    }
}

fn walls_sum(image: &[u8], count: EditNumber, mark: Mark, message: &[u8], times: u32) -> u32
    requires { image_fault image.now ≡ 0 }
    ensures { result ≡ repeated times (wall_adds mark message.now (image_state image.now count)) }
{
    let mut buffer = [0u8; MAX_IMAGE_SIZE];
    let mut sum = 0u32;
    for i in 0..times {
        sum = sum.wrapping_add(wall_adds(image, count, mark, message, &mut buffer));
    }
    sum
}

// Delivers a message to a wall with an image, a count and a mark so many times, each on that image.
#[unsafe(no_mangle)]
pub extern "C" fn mulkefi_deliver_repeated(
    bytes: &[u8],
    count: EditNumber,
    mark: Mark,
    message: &[u8],
    times: u32,
) -> u32
    ensures { result ≡ walls_sum bytes.now count mark message.now times }
{
    match test_image(bytes) {
        Ok(()) => walls_sum(bytes, count, mark, message, times),
        Err(refusal) => u32::from(refusal.number()),
    }
}
