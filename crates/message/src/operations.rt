// Operations and their numbers.
ghost use Rattle.std.specs.Prelude.{◌≡◌};
ghost use Rattle.message.specs.Message.{operation_byte, operation_numbered, operation_of};

use crate::Operation;
use refusal::Refusal;

impl TryFrom<u32> for Operation {
    type Error = Refusal;

    ghost try_from_gives = { λ number r. r ≡ operation_numbered number };

    #[tactic(auto, unfolding(crate::specs::Message::operation_of))]
    fn try_from(number: u32) -> Result<Operation, Refusal> {
        match number {
            1 => Ok(Operation::Trim),
            2 => Ok(Operation::Split),
            3 => Ok(Operation::Extend),
            _ => Err(Refusal::BadOperation),
        }
    }
}

// The operation that a number means, an extend where it means none. Who has to refuse such a number goes by `try_from`.
pub fn operation_of(number: u32) -> Operation
    ensures { result ≡ operation_of number }
{
    Operation::try_from(number).unwrap_or(Operation::Extend)
}

impl From<Operation> for u64 {
    ghost from_gives = { λ operation number. number ≡ operation_byte operation };

    #[tactic(auto, unfolding(crate::specs::Message::operation_byte))]
    fn from(operation: Operation) -> u64 {
        match operation {
            Operation::Trim => 1,
            Operation::Split => 2,
            Operation::Extend => 3,
        }
    }
}
