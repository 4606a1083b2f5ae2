// The desk: a person's edit, and the message of it.
ghost use Rattle.std.specs.Prelude.{◌≡◌};
ghost use Rattle.replication.specs.Transitions.{memory, DeskEdits, desk_call};
ghost use Rattle.replication.specs.Clauses.{desk_refusing};

use crate::refusals::first_refusal;
use crate::{DeskTransition, Replica};
use geom::Vec2;
use message::{MAX_EDIT_NUMBER, MESSAGE_SIZE, Message, Operation};
use refusal::Refusal;
use rows::front;
use sketch::Id;
use window::Window;

fn refuse(replica: Replica, window: Window, refusal: Refusal) -> DeskTransition
    ensures { result ≡ desk_refusing replica window refusal }
{
    DeskTransition {
        replica,
        window,
        reply: Err(refusal),
    }
}

// Makes an edit of the replica's image, which stands at the front of `buffer`, counts it and writes its message, under the replica's mark, to the
// front of `message`, and the window slides by it; or refuses it and leaves replica, window, buffer and message.
pub fn desk_edit<'a>(
    replica: Replica,
    window: Window,
    buffer: &'a mut [u8],
    operation: Operation,
    curve: Id,
    x: f64,
    y: f64,
    message: &'a mut [u8],
) -> DeskTransition
    ensures { DeskEdits (memory replica buffer.old) window.bytes (desk_call operation curve x y message.old message.new buffer.new result) }
{
    if message.len() < MESSAGE_SIZE {
        let image = front(&buffer[..], replica.size);
        return refuse(replica, window, first_refusal(image, Refusal::ShortBuffer));
    }
    if MAX_EDIT_NUMBER <= replica.count {
        let image = front(&buffer[..], replica.size);
        return refuse(replica, window, first_refusal(image, Refusal::IdsSpent));
    }
    let at = Vec2 { x, y };
    let edited = match modify::edit_in_place(operation, buffer, replica.size, curve, at) {
        Ok(edited) => edited,
        Err(refusal) => return refuse(replica, window, refusal),
    };
    let number = replica.count + 1;
    let sent = Message {
        number,
        operation,
        curve,
        x: f64::to_bits(x),
        y: f64::to_bits(y),
    };
    message::write_message(sent, replica.mark, message).unwrap();
    let kept = window.slide(number, &message[..]);
    DeskTransition {
        replica: Replica {
            size: edited.size,
            mark: replica.mark,
            count: number,
        },
        window: kept,
        reply: Ok(edited.removed),
    }
}
