// Worked examples that no theorem states, run on the engine.
#![tactic(auto)]

use image::MAX_IMAGE_SIZE;
use input::read_front;
use message::{EditNumber, MESSAGE_SIZE, Operation};
use refusal::Refusal;
use replication::{Delivered, DeskTransition, Replica};
use rows::front;
use std::rt::Files;
use std::{fs, io};
use window::Window;

// Room for an image.
const IMAGE: usize = 1024;

// The mark of a start, which edits do not depend on.
const MARK: u64 = 1;

// Room for roots, and a budget.
const ROOTS: usize = 28;

const BUDGET: usize = 1000;

fn refused(rt: &impl Print, words: &str, refusal: Refusal) -> io::Result<()> {
    println!(rt; "{words}: refused by {}", refusal.number())
}

fn roots(rt: &impl Print, words: &str, coefficients: &[f64]) -> io::Result<()> {
    let mut found = [0.0; ROOTS];
    match bernstein::search::roots(coefficients, &mut found, BUDGET) {
        Ok(found) => println!(rt; "{words}: found {}", found.count),
        Err(stopped) => refused(rt, words, stopped.refusal),
    }
}

// The replica that an image starts, or the one of size 0 where the image is refused.
fn start(image: &[u8], count: EditNumber, buffer: &mut [u8]) -> Replica {
    match replication::start(image, MARK, count, buffer) {
        Ok(replica) => replica,
        Err(_) => Replica {
            size: 0,
            mark: 0,
            count: 0,
        },
    }
}

// A desk at an image and count 0 makes an extend of the line 3, and writes its message.
fn desk_extend(
    image: &[u8],
    x: f64,
    y: f64,
    buffer: &mut [u8],
    message: &mut [u8],
) -> DeskTransition {
    let replica = start(image, 0, buffer);
    replication::desk_edit(
        replica,
        Window::empty(),
        buffer,
        Operation::Extend,
        3,
        x,
        y,
        message,
    )
}

// An extend of the line 3 in an image.
fn extend(rt: &(impl Files + Print), words: &str, path: &str, x: f64, y: f64) -> io::Result<()> {
    let mut bytes = [0u8; IMAGE];
    let mut buffer = [0u8; MAX_IMAGE_SIZE];
    let mut message = [0u8; MESSAGE_SIZE];
    let n = read_front(&mut fs::open(rt, path)?, &mut bytes)?;
    let edited = desk_extend(front(&bytes, n), x, y, &mut buffer, &mut message);
    match edited.reply {
        Ok(_) => println!(rt; "{words}: accepted, count {}", edited.replica.count),
        Err(refusal) => refused(rt, words, refusal),
    }
}

// A wall's reply to a message.
fn deliver(
    rt: &impl Print,
    words: &str,
    replica: Replica,
    buffer: &mut [u8],
    message: &[u8],
) -> io::Result<()> {
    let delivered = replication::wall_deliver(replica, buffer, message);
    let count = delivered.replica.count;
    match delivered.reply {
        Ok(Delivered::Old) => println!(rt; "{words}: old, count {count}"),
        Ok(Delivered::Applied(_)) => println!(rt; "{words}: applied, count {count}"),
        Err(refusal) => refused(rt, words, refusal),
    }
}

// A wall at an image and count 0 catches up with a desk by its window.
fn catch_wall_up(
    rt: &impl Print,
    image: &[u8],
    window: Window,
    count: EditNumber,
) -> io::Result<()> {
    let mut buffer = [0u8; MAX_IMAGE_SIZE];
    let mut due = [0u8; MESSAGE_SIZE];
    let replica = start(image, 0, &mut buffer);
    let number = match window::catch_up(&window.bytes, count, MARK, replica.count, &mut due) {
        Ok(()) => 0,
        Err(refusal) => refusal.number(),
    };
    println!(rt; "a wall at count 0 catches up: {number}")?;
    deliver(rt, "the message that was due", replica, &mut buffer, &due)
}

// A wall is started from a desk's image and count, and finds the desk's message old.
fn start_at_count(
    rt: &impl Print,
    image: &[u8],
    count: EditNumber,
    message: &[u8],
) -> io::Result<()> {
    let mut buffer = [0u8; MAX_IMAGE_SIZE];
    let replica = start(image, count, &mut buffer);
    println!(rt;
        "a wall started from the desk's image: count {}",
        replica.count
    )?;
    deliver(rt, "the same message there", replica, &mut buffer, message)
}

// A desk makes an edit of an image, which may be refused; then a wall catches up, and another is started.
fn catch_up(rt: &(impl Files + Print), path: &str) -> io::Result<()> {
    let mut bytes = [0u8; IMAGE];
    let mut buffer = [0u8; MAX_IMAGE_SIZE];
    let mut message = [0u8; MESSAGE_SIZE];
    let n = read_front(&mut fs::open(rt, path)?, &mut bytes)?;
    let image = front(&bytes, n);
    let edited = desk_extend(image, 2.0, 0.0, &mut buffer, &mut message);
    let desk = edited.replica;
    catch_wall_up(rt, image, edited.window, desk.count)?;
    start_at_count(rt, front(&buffer, desk.size), desk.count, &message)
}

fn main(rt: HostRuntime) -> io::Result<()> {
    let many = [1.0; 16];
    let lone = [5.0; 1];
    roots(&rt, "roots of 16 coefficients", &many)?;
    roots(&rt, "roots of a lone 5", &lone)?;
    extend(&rt, "extend at (2, 0)", "extend.bin", 2.0, 0.0)?;
    extend(&rt, "extend at (0, 0)", "extend.bin", 0.0, 0.0)?;
    extend(
        &rt,
        "extend with a second line as near",
        "tie.bin",
        2.0,
        0.0,
    )?;
    catch_up(&rt, "extend.bin")
}
