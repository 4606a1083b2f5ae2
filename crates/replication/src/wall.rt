// The wall: a message delivered.
ghost use Rattle.std.specs.Prelude.{◌≡◌, not, false};
ghost use Rattle.std.specs.Float.{binary64};
ghost use Rattle.std.specs.Float.Ieee.{nan_bits};
ghost use Rattle.replication.specs.Transitions.{memory, WallDelivers, wall_call};
ghost use Rattle.replication.specs.Clauses.{wall_refusing, OldAnswered, MessageApplied, DeliversMessage};

use crate::refusals::{first_refusal, test_image};
use crate::{Delivered, Replica, WallTransition};
use geom::Vec2;
use message::Message;
use refusal::Refusal;
use rows::front;

// Whether bits are no NaN's: only such may become a float.
pub fn is_number(bits: u64) -> bool
    ensures { result ≡ not (nan_bits binary64 bits) }
{
    bits % 0x8000_0000_0000_0000 <= 0x7ff0_0000_0000_0000
}

fn refuse(replica: Replica, refusal: Refusal) -> WallTransition
    ensures { result ≡ wall_refusing replica refusal }
{
    WallTransition {
        replica,
        reply: Err(refusal),
    }
}

// An old message changes nothing, where the image is good.
fn answer_old(replica: Replica, image: &[u8]) -> WallTransition
    ensures { OldAnswered replica image.now result }
{
    if let Err(refusal) = test_image(image) {
        return refuse(replica, refusal);
    }
    WallTransition {
        replica: Replica {
            size: image.len(),
            mark: replica.mark,
            count: replica.count,
        },
        reply: Ok(Delivered::Old),
    }
}

// The edit of a message whose pick is of numbers.
fn apply_message(replica: Replica, buffer: &mut [u8], m: Message) -> WallTransition
    requires { (nan_bits binary64 m.x ≡ false) × (nan_bits binary64 m.y ≡ false) }
    ensures { MessageApplied replica m buffer.old buffer.new result }
{
    let at = Vec2 {
        x: f64::from_bits(m.x),
        y: f64::from_bits(m.y),
    };
    match modify::edit_in_place(m.operation, buffer, replica.size, m.curve, at) {
        Err(refusal) => refuse(replica, refusal),
        Ok(edited) => {
            WallTransition {
                replica: Replica {
                    size: edited.size,
                    mark: replica.mark,
                    count: m.number,
                },
                reply: Ok(Delivered::Applied(edited.removed)),
            }
        }
    }
}

// A message at or below the count is old; the next one's edit is made; one beyond it is ahead.
fn deliver_message(replica: Replica, buffer: &mut [u8], m: Message) -> WallTransition
    ensures { DeliversMessage (memory replica buffer.old) m buffer.new result }
{
    if m.number <= replica.count {
        return answer_old(replica, front(&buffer[..], replica.size));
    }
    if m.number - replica.count != 1 {
        let image = front(&buffer[..], replica.size);
        return refuse(replica, first_refusal(image, Refusal::Ahead));
    }
    if !is_number(m.x) || !is_number(m.y) {
        let image = front(&buffer[..], replica.size);
        return refuse(replica, first_refusal(image, Refusal::BadPick));
    }
    apply_message(replica, buffer, m)
}

// Takes a message as it came, to the replica whose image stands at the front of `buffer`: makes its edit and counts it, finds it old, or refuses
// it, a foreign one where its mark is not the replica's, and leaves replica and buffer.
pub fn wall_deliver(replica: Replica, buffer: &mut [u8], bytes: &[u8]) -> WallTransition
    ensures { WallDelivers (memory replica buffer.old) (wall_call bytes.now buffer.new result) }
{
    match message::read_message(bytes, replica.mark) {
        Err(refusal) => {
            let image = front(&buffer[..], replica.size);
            refuse(replica, first_refusal(image, refusal))
        }
        Ok(m) => deliver_message(replica, buffer, m),
    }
}
