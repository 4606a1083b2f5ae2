// The slots of a window: the message with number n stands in slot n % 64.
ghost use Rattle.std.specs.Prelude.{◌≡◌};
ghost use Rattle.window.specs.Window.{slot_at, slot, is_held};

use crate::WINDOW_MESSAGES;
use message::{EditNumber, MESSAGE_SIZE, Mark};
use rows::{front, rest};

// Where the message with a number stands.
pub(crate) fn slot_at(number: EditNumber) -> usize
    ensures { result ≡ slot_at number }
{
    number as usize % WINDOW_MESSAGES * MESSAGE_SIZE
}

// The bytes of a number's slot, as many as there are.
pub(crate) fn slot(window: &[u8], number: EditNumber) -> &[u8]
    ensures { result.now ≡ slot window.now number }
{
    front(rest(window, slot_at(number)), MESSAGE_SIZE)
}

// Whether a number's slot holds the message with that number, of a start with this mark.
pub(crate) fn is_held(window: &[u8], mark: Mark, number: EditNumber) -> bool
    ensures { result ≡ is_held mark window.now number }
{
    message::read_message(slot(window, number), mark).is_ok_and(|m| m.number == number)
}
