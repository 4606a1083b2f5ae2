// The desk's calls, in their order.
ghost use Rattle.std.specs.Prelude.{◌≡◌, List, ℕ, ◌+◌, ◌≤◌, length};
ghost use Rattle.std.specs.Float.Ieee.{of_bits};
ghost use Rattle.std.specs.Float.{binary64};
ghost use Rattle.replication.specs.DeskReply.{desk_reply_of};
ghost use Rattle.replication.specs.Transitions.{memory, DeskEdits};
ghost use Rattle.replication_runs.specs.RunBoth.{edit_at, call_size};
ghost use Rattle.replication_runs.specs.Clauses.{LogFits, RunsOn};

use crate::Run;
use big_endian::{get1, get4, get8};
use message::{MESSAGE_SIZE, operation_of};
use replication::{DeskTransition, Replica, desk_edit, is_number};
use sketch::ID_SIZE;
use window::Window;

// Where the parts of a call stand: operation, curve, the pick's x and y, the room, which is one byte.
const CURVE_AT: usize = 1;

const X_AT: usize = CURVE_AT + ID_SIZE;

const Y_AT: usize = X_AT + 8;

const ROOM_AT: usize = Y_AT + 8;

pub(crate) const CALL_SIZE: usize = ROOM_AT + 1;

// A NaN's bits give the NaN.
fn coordinate(bits: u64) -> f64
    ensures { result ≡ of_bits binary64 bits }
{
    if !is_number(bits) {
        return f64::NAN;
    }
    f64::from_bits(bits)
}

// Makes the call that stands at a place of the list.
fn desk_edit_at<'a>(
    replica: Replica,
    window: Window,
    buffer: &'a mut [u8],
    entries: &[u8],
    at: usize,
    out: &'a mut [u8],
) -> DeskTransition
    requires { at + call_size ≤ length entries.now }
    ensures { DeskEdits (memory replica buffer.old) window.bytes (record { edit = edit_at entries.now at; before = out.old; after = out.new; left = memory result.replica buffer.new; window = result.window.bytes; reply = desk_reply_of result.reply }) }
{
    let operation = operation_of(u32::from(get1(entries, at)));
    let x = coordinate(get8(entries, at + X_AT));
    let y = coordinate(get8(entries, at + Y_AT));
    desk_edit(
        replica,
        window,
        buffer,
        operation,
        get4(entries, at + CURVE_AT),
        x,
        y,
        out,
    )
}

// The desk makes its next call, where one is left, and its message goes to the log, behind those of before.
pub(crate) fn next_call<'a>(run: Run, entries: &[u8], log: &'a mut [u8], desk: &'a mut [u8]) -> Run
    requires { LogFits entries.now run log.old }
    ensures { (others wall : List ℕ) → RunsOn 0 entries.now others run log.old desk.old wall result log.new desk.new wall }
{
    let made = run.made;
    if entries.len() / CALL_SIZE <= made {
        return run;
    }
    let from = run.desk.count as usize * MESSAGE_SIZE;
    let to = from + get1(entries, made * CALL_SIZE + ROOM_AT) as usize;
    let answer = desk_edit_at(
        run.desk,
        run.window,
        desk,
        entries,
        made * CALL_SIZE,
        &mut log[from..to],
    );
    Run {
        desk: answer.replica,
        window: answer.window,
        wall: run.wall,
        made: made + 1,
    }
}
