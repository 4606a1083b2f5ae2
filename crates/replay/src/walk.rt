// The walk over a list: each entry replayed as its subject has it, and counted.
ghost use Rattle.std.specs.Prelude.{◌≤◌, length};
ghost use Rattle.replay.specs.Tally.{Kept};

use crate::entries::split_entry;
use crate::tally::Tally;
use crate::{catch_ups, edits, images, magnitudes, messages, roots, runs, square_roots};

// What a list records answers of.
#[derive(Clone, Copy)]
pub(crate) enum Subject {
    Images,
    Messages,
    CatchUps,
    SquareRoots,
    Magnitudes,
    Roots,
    Edits,
    Runs,
}

impl Subject {
    // In the order of their replay.
    pub(crate) const ALL: [Subject; 8] = [
        Subject::Images,
        Subject::Messages,
        Subject::CatchUps,
        Subject::SquareRoots,
        Subject::Magnitudes,
        Subject::Roots,
        Subject::Edits,
        Subject::Runs,
    ];

    pub(crate) fn name(self) -> &'static str {
        match self {
            Subject::Images => "images",
            Subject::Messages => "messages",
            Subject::CatchUps => "catch-ups",
            Subject::SquareRoots => "square roots",
            Subject::Magnitudes => "magnitudes",
            Subject::Roots => "roots",
            Subject::Edits => "edits",
            Subject::Runs => "runs",
        }
    }

    // The file with its list.
    pub(crate) fn path(self) -> &'static str {
        match self {
            Subject::Images => "images.bin",
            Subject::Messages => "messages.bin",
            Subject::CatchUps => "catch_ups.bin",
            Subject::SquareRoots => "square_roots.bin",
            Subject::Magnitudes => "magnitudes.bin",
            Subject::Roots => "roots.bin",
            Subject::Edits => "edits.bin",
            Subject::Runs => "runs.bin",
        }
    }

    // Whether the engine answers an input as the oracle did.
    fn alike(self, outcome: u8, input: &[u8]) -> bool {
        match self {
            Subject::Images => images::alike(outcome, input),
            Subject::Messages => messages::alike(outcome, input),
            Subject::CatchUps => catch_ups::alike(outcome, input),
            Subject::SquareRoots => square_roots::alike(outcome, input),
            Subject::Magnitudes => magnitudes::alike(outcome, input),
            Subject::Roots => roots::alike(outcome, input),
            Subject::Edits => edits::alike(outcome, input),
            Subject::Runs => runs::alike(outcome, input),
        }
    }
}

// An entry that the list does not hold whole differs.
pub(crate) fn replay(subject: Subject, list: &[u8]) -> Tally
    ensures { Kept result × (result.entries ≤ length list.now) }
{
    let mut tally = Tally::empty();
    let mut unread = list;
    while let Some((entry, rest)) = split_entry(unread) {
        let alike = match entry.input {
            Some(input) => subject.alike(entry.outcome, input),
            None => false,
        };
        tally = tally.counting(entry.outcome, alike);
        unread = rest;
    }
    tally
}
