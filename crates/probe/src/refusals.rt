// What is answered to C: a refusal as its number, with the place that comes with it where the call gives one.
ghost use Rattle.std.specs.Prelude.{◌≡◌, ◌+◌, ◌*◌, ◌%◌};
ghost use Rattle.refusal.specs.Refusals.{number, place, refusal_number};
ghost use Rattle.probe.specs.Refusals.{number_or_sum, number_and_place};

use refusal::Refusal;

// A refusal's number, or 0.
pub fn number_of(outcome: Result<(), Refusal>) -> u32
    ensures { result ≡ refusal_number outcome }
{
    match outcome {
        Ok(()) => 0,
        Err(refusal) => u32::from(refusal.number()),
    }
}

// A refusal's number, or a sum.
pub fn number_or_sum(sum: Result<u32, Refusal>) -> u32
    ensures { result ≡ number_or_sum sum }
{
    match sum {
        Ok(sum) => sum,
        Err(refusal) => u32::from(refusal.number()),
    }
}

// A refusal's number, and above its 16 bits the place that comes with 13 and 19.
pub fn with_place(refusal: Refusal) -> u32
    ensures { result ≡ number refusal + place refusal % 65536 * 65536 }
{
    u32::from(refusal.number()) + (refusal.place() % 65536) as u32 * 65536
}

// A refusal's number with its place, or 0.
pub fn number_and_place(outcome: Result<(), Refusal>) -> u32
    ensures { result ≡ number_and_place outcome }
{
    match outcome {
        Ok(()) => 0,
        Err(refusal) => with_place(refusal),
    }
}
