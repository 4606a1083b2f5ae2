// What is answered to a host: a refusal as one number, or count, size and report.
ghost use Rattle.std.specs.Prelude.{◌≡◌, ◌≤◌, ◌/◌, ◌%◌};
ghost use Rattle.refusal.specs.Refusals.{number, place, refusal_number};
ghost use Rattle.image.specs.Image.{max_image_size};
ghost use Rattle.mulkefi.specs.Clauses.{answer_with};

use crate::AnswerField;
use edit_plan::Removed;
use refusal::Refusal;
use replication::Replica;

// Above this stands the place of a relation.
const PLACES: usize = 65536;

// A refusal's number, or 0.
pub(crate) fn number_of(outcome: Result<(), Refusal>) -> u32
    ensures { result ≡ refusal_number outcome }
{
    match outcome {
        Ok(()) => 0,
        Err(refusal) => u32::from(refusal.number()),
    }
}

// A refusal's number, and above it the place that comes with it, which is small.
pub(crate) fn refusal_answer(refusal: Refusal) -> u32
    ensures { (result % 65536 ≡ number refusal) × (result / 65536 ≡ place refusal % 65536) }
{
    u32::from(refusal.number()) + (refusal.place() % PLACES) as u32 * PLACES as u32
}

// The count, the image's size and the report; the answer is 0.
pub(crate) fn write_answer(replica: Replica, removed: Removed, answer: &mut [AnswerField; 5]) -> u32
    requires { replica.size ≤ max_image_size }
    ensures { (result ≡ 0) × (answer.new ≡ answer_with answer.old replica.count replica.size removed) }
{
    answer[0] = replica.count;
    answer[1] = replica.size as AnswerField;
    answer[2] = removed.curve;
    answer[3] = removed.from;
    answer[4] = removed.to;
    0
}
