// Catching up by a desk's window, of any length: once, and many times over for timing.
ghost use Rattle.std.specs.Prelude.{◌≡◌};
ghost use Rattle.window.specs.Window.{window_size, catch_up_fault, CatchesUp};
ghost use Rattle.probe.specs.Edits.{repeated};

use crate::refusals::number_of;
use message::{EditNumber, Mark};
use window::WINDOW_SIZE;

// Writes every message after a wall's count, up to the desk's count, to the front of `messages`. Answers the refusal's number, or 0.
#[unsafe(no_mangle)]
pub extern "C" fn mulkefi_catch_up(
    window: &[u8],
    count: EditNumber,
    mark: Mark,
    wall: EditNumber,
    messages: &mut [u8],
) -> u32
    ensures { CatchesUp mark window.now count wall messages.old messages.new result }
{
    number_of(window::catch_up(window, count, mark, wall, messages))
}

// Catches up so many times, each time into a buffer that has room for all messages of a window. Answers the sum of the numbers.
#[unsafe(no_mangle)]
pub extern "C" fn mulkefi_catch_up_repeated(
    window: &[u8],
    count: EditNumber,
    mark: Mark,
    wall: EditNumber,
    times: u32,
) -> u32
    ensures { result ≡ repeated times (catch_up_fault mark window.now count wall window_size) }
{
    let mut messages = [0u8; WINDOW_SIZE];
    let mut sum = 0u32;
    for i in 0..times {
        let caught_up = window::catch_up(window, count, mark, wall, &mut messages);
        sum = sum.wrapping_add(number_of(caught_up));
    }
    sum
}
