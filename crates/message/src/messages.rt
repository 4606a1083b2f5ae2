// Edit messages: read and written.
ghost use Rattle.std.specs.Prelude.{◌≡◌};
ghost use Rattle.refusal.specs.Refusals.{refusal_number, numbered};
ghost use Rattle.message.specs.Message.{parse, MessageWritten};

use crate::layout::{
    CURVE_AT, EDIT_NUMBER_AT, LENGTH_SIZE, MARK_AT, MESSAGE_SIZE, OPERATION_AT, VERSION_AT, X_AT,
    Y_AT,
};
use crate::{MESSAGE_VERSION, Mark, Message, Operation};
use big_endian::{get1, get4, get8, put1, put4, put8};
use refusal::Refusal;

// What a message's length field holds: the bytes behind it.
const MESSAGE_LENGTH: u32 = MESSAGE_SIZE as u32 - LENGTH_SIZE as u32;

// Reads a message that came to a start with a mark, or answers the first rule that it breaks.
#[tactic(auto, unfolding(crate::specs::Message::message_fault, crate::specs::Message::result_of, sketch::specs::Lists::guard_number))]
pub fn read_message(s: &[u8], mark: Mark) -> Result<Message, Refusal>
    ensures { numbered result ≡ parse mark s.now }
{
    let n = s.len();
    if n < MARK_AT {
        return Err(Refusal::BadLength);
    }
    if get1(s, VERSION_AT) != MESSAGE_VERSION {
        return Err(Refusal::BadVersion);
    }
    if n != MESSAGE_SIZE || get4(s, 0) != MESSAGE_LENGTH {
        return Err(Refusal::BadLength);
    }
    if get8(s, MARK_AT) != mark {
        return Err(Refusal::Foreign);
    }
    let number = get4(s, EDIT_NUMBER_AT);
    if number < 1 {
        return Err(Refusal::BadOperation);
    }
    let operation = Operation::try_from(u32::from(get1(s, OPERATION_AT)))?;
    Ok(Message {
        number,
        operation,
        curve: get4(s, CURVE_AT),
        x: get8(s, X_AT),
        y: get8(s, Y_AT),
    })
}

// Writes a message of a start with a mark to the buffer's front. The number 0 and a buffer that is too short are refused, and the buffer
// is left.
pub fn write_message(m: Message, mark: Mark, buf: &mut [u8]) -> Result<(), Refusal>
    ensures { MessageWritten mark m buf.old buf.new (refusal_number result) }
{
    if m.number < 1 {
        return Err(Refusal::BadOperation);
    }
    if buf.len() < MESSAGE_SIZE {
        return Err(Refusal::ShortBuffer);
    }
    put4(buf, 0, u64::from(MESSAGE_LENGTH));
    put1(buf, VERSION_AT, u64::from(MESSAGE_VERSION));
    put8(buf, MARK_AT, mark);
    put4(buf, EDIT_NUMBER_AT, u64::from(m.number));
    put1(buf, OPERATION_AT, u64::from(m.operation));
    put4(buf, CURVE_AT, u64::from(m.curve));
    put8(buf, X_AT, m.x);
    put8(buf, Y_AT, m.y);
    Ok(())
}
