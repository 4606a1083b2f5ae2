// The desk's window (the glossary's term): its last messages as they were written, by which a wall catches up.
#![tactic(auto)]

mod catching_up;
mod slots;

ghost use Rattle.std.specs.Prelude.{◌≡◌, length};
ghost use Rattle.window.specs.Window.{window_size, empty_window, slid};

pub use catching_up::catch_up;
use message::{EditNumber, MESSAGE_SIZE};
use rows::{front, put_run};
use slots::slot_at;

// How many messages the window holds, and its size in bytes.
pub const WINDOW_MESSAGES: usize = 64;

pub const WINDOW_SIZE: usize = WINDOW_MESSAGES * MESSAGE_SIZE;

// Each slot has room for one message, which tells its own number: nothing stands beside them, and any bytes are a window.
#[derive(Clone, Copy)]
pub struct Window {
    pub bytes: [u8; WINDOW_SIZE],
}

// Puts a message over the slot of its number.
fn put_message(window: &mut [u8; WINDOW_SIZE], number: EditNumber, message: &[u8])
    requires { length window.old ≡ window_size }
    ensures { window.new ≡ slid window.old number message.now }
{
    put_run(
        front(message, MESSAGE_SIZE),
        &mut window[..],
        slot_at(number),
    );
}

impl Window {
    // The window of a desk that wrote no message yet.
    pub fn empty() -> Window
        ensures { result.bytes ≡ empty_window }
    {
        let bytes = [0u8; WINDOW_SIZE];
        Window { bytes }
    }

    // Slides by one: the message with this number stands in the place of the one that is as many numbers before it as the window has slots.
    pub fn slide(mut self, number: EditNumber, message: &[u8]) -> Window
        ensures { result.bytes ≡ slid self.bytes number message.now }
    {
        put_message(&mut self.bytes, number, message);
        self
    }
}
