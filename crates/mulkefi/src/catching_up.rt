// What a wall that fell behind is sent, from the desk's window in lent memory.
ghost use Rattle.window.specs.Window.{CatchesUp};

use crate::buffers::number_of;
use message::{EditNumber, Mark};
use window::WINDOW_SIZE;

// Writes every message of a desk's window after a wall's count, up to the desk's count, in order to the front of `messages`, and answers 0.
// Refused are a wall's count above the desk's (27), one after which a message is not in the window (26), and a buffer too short for the
// messages due (25): then it answers the number and leaves the buffer.
#[unsafe(no_mangle)]
pub extern "C" fn mulkefi_catch_up(
    window: &[u8; WINDOW_SIZE],
    count: EditNumber,
    mark: Mark,
    wall: EditNumber,
    messages: &mut [u8],
) -> u32
    ensures { CatchesUp mark window.now count wall messages.old messages.new result }
{
    number_of(window::catch_up(window, count, mark, wall, messages))
}
