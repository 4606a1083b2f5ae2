// Desk and wall together, over the calls, the other bytes and the order in which all comes.
ghost use Rattle.std.specs.Prelude.{◌≡◌, []};
ghost use Rattle.replication.specs.Transitions.{memory, state_in};
ghost use Rattle.replication_runs.specs.RunBoth.{has_room, answer_of, RunsBoth};
ghost use Rattle.replication_runs.specs.Clauses.{LogFits, Ran, RunsOn};

use crate::desk_calls::{CALL_SIZE, next_call};
use crate::wall_inputs::{deliver_at, start_again};
use crate::{Run, RunResult};
use image::MAX_IMAGE_SIZE;
use message::{MESSAGE_SIZE, Mark};
use refusal::Refusal;
use replication::{first_refusal, start};
use window::Window;

// The largest room that a call's byte can hold.
const MAX_ROOM: usize = 255;

// By 0 the desk makes its next call, by 1 the wall is started again; any other number, less 2, is a delivery.
fn run_number<'a>(
    run: Run,
    entries: &[u8],
    others: &[u8],
    log: &'a mut [u8],
    desk: &'a mut [u8],
    wall: &'a mut [u8],
    o: usize,
) -> Run
    requires { LogFits entries.now run log.old }
    ensures { RunsOn o entries.now others.now run log.old desk.old wall.old result log.new desk.new wall.new }
{
    match o {
        0 => next_call(run, entries, log, desk),
        1 => start_again(run, &desk[..], wall),
        _ => deliver_at(run, &log[..], others, wall, o - 2),
    }
}

// Goes on by each number of the order from what the one before left.
fn run_order<'a>(
    run: Run,
    entries: &[u8],
    others: &[u8],
    order: &[usize],
    log: &'a mut [u8],
    desk: &'a mut [u8],
    wall: &'a mut [u8],
) -> Run
    requires { Ran run.desk.mark (state_in (memory run.desk desk.old)).drawing entries.now others.now log.old [] run log.old desk.old wall.old }
    ensures { Ran run.desk.mark (state_in (memory run.desk desk.old)).drawing entries.now others.now log.old order.now result log.new desk.new wall.new }
{
    let mut last = run;
    for o in order {
        last = run_number(last, entries, others, log, desk, wall, *o);
    }
    last
}

// Whether a log has room for the messages of all calls, and for the largest room that one lends.
fn has_room(size: usize, room: usize) -> bool
    ensures { result ≡ has_room size room }
{
    MAX_ROOM <= room && size / CALL_SIZE <= (room - MAX_ROOM) / MESSAGE_SIZE
}

// Runs both from one image with one mark, by the numbers of `order`: the desk makes the calls in `entries`, and between them the wall is started
// again from what the desk has then, or is given one of the desk's messages so far, by its place, or what begins at a place of `others`, where the
// wall does not read it. The log takes the messages, and the two buffers the images. Refused are an image, as ever, and a log or a buffer that is
// too short: then nothing is run, and log and buffers are left.
pub fn run_both<'a>(
    image: &[u8],
    mark: Mark,
    entries: &[u8],
    order: &[usize],
    others: &[u8],
    log: &'a mut [u8],
    desk: &'a mut [u8],
    wall: &'a mut [u8],
) -> Result<RunResult, Refusal>
    ensures { RunsBoth image.now mark entries.now order.now others.now log.old log.new desk.old desk.new wall.old wall.new (answer_of result) }
{
    if !has_room(entries.len(), log.len())
        || desk.len() < MAX_IMAGE_SIZE
        || wall.len() < MAX_IMAGE_SIZE
    {
        return Err(first_refusal(image, Refusal::ShortBuffer));
    }
    let primary = start(image, mark, 0, desk)?;
    let second = start(image, mark, 0, wall)?;
    let first = Run {
        desk: primary,
        window: Window::empty(),
        wall: second,
        made: 0,
    };
    let last = run_order(first, entries, others, order, log, desk, wall);
    Ok(RunResult {
        desk: last.desk,
        window: last.window,
        wall: last.wall,
    })
}
