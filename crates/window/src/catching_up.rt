// What a wall that fell behind is sent: every message after its count.
ghost use Rattle.std.specs.Prelude.{◌≡◌, ◌+◌, ◌*◌, ◌≤◌, ◌^◌, ◌<◌, length};
ghost use Rattle.big_endian.specs.Fields.{over};
ghost use Rattle.refusal.specs.Refusals.{refusal_number};
ghost use Rattle.message.specs.Message.{message_size};
ghost use Rattle.window.specs.Window.{all_held, due_bytes, CatchesUp};

use crate::WINDOW_MESSAGES;
use crate::slots::{is_held, slot};
use message::{EditNumber, MESSAGE_SIZE, Mark};
use refusal::Refusal;
use rows::put_run;

// Whether the n messages after a count are in the window.
fn all_held(window: &[u8], mark: Mark, wall: EditNumber, n: EditNumber) -> bool
    requires { wall + n < 2 ^ 32 }
    ensures { result ≡ all_held mark window.now wall n }
{
    (0..n).all(|i| is_held(window, mark, wall + (i + 1)))
}

// Copies the slots of the n numbers after a count, all of them whole, one after the other to the front of `out`.
fn copy_due(window: &[u8], wall: EditNumber, n: EditNumber, out: &mut [u8])
    requires { (wall + n < 2 ^ 32) × (length (due_bytes window.now wall n) ≡ message_size * n) × (message_size * n ≤ length out.old) }
    ensures { out.new ≡ over out.old 0 (due_bytes window.now wall n) }
{
    for i in 0..n {
        put_run(slot(window, wall + (i + 1)), out, i as usize * MESSAGE_SIZE);
    }
}

// Writes every message of a desk's window after a wall's count, up to the desk's count, in order to the front of `out`. Refused are a wall's
// count above the desk's, one whose next message has left the window, and a buffer too short for the messages due: then the buffer is left.
#[inline(always)]
#[tactic(auto, using(crate::proofs::CatchingUp::length_due), unfolding(sketch::specs::Lists::guard_number))]
pub fn catch_up(
    window: &[u8],
    count: EditNumber,
    mark: Mark,
    wall: EditNumber,
    out: &mut [u8],
) -> Result<(), Refusal>
    ensures { CatchesUp mark window.now count wall out.old out.new (refusal_number result) }
{
    if count < wall {
        return Err(Refusal::CountAbove);
    }
    let due = count - wall;
    if due > WINDOW_MESSAGES as EditNumber || !all_held(window, mark, wall, due) {
        return Err(Refusal::LeftWindow);
    }
    if out.len() / MESSAGE_SIZE < due as usize {
        return Err(Refusal::ShortBuffer);
    }
    copy_due(window, wall, due, out);
    Ok(())
}
