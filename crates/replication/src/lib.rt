// State machine replication: the desk (the glossary's term) is the primary, at which a person edits a sketch; the wall (the glossary's term) is the replica, which
// applies the desk's messages in the order of their numbers. Each keeps its sketch as an image at the front of a buffer that is lent for a call; the desk keeps its
// last messages too, in a window.
#![tactic(auto)]

mod desk;
mod refusals;
mod starting;
mod wall;

pub use desk::desk_edit;
use edit_plan::Removed;
use message::{EditNumber, Mark};
use refusal::Refusal;
pub use refusals::{first_fault, first_refusal, test_image};
pub use starting::start;
pub use wall::{is_number, wall_deliver};
use window::Window;

// A replica's state, beside the buffer at whose front its image stands: the image's size, the mark of its start, and how many edits were applied
// to it (the glossary's count).
#[derive(Clone, Copy)]
pub struct Replica {
    pub size: usize,
    pub mark: Mark,
    pub count: EditNumber,
}

// What a call leaves of the desk, and its reply: the report of the edit.
#[derive(Clone, Copy)]
pub struct DeskTransition {
    pub replica: Replica,
    pub window: Window,
    pub reply: Result<Removed, Refusal>,
}

// What became of a message: it is old (the glossary's term: its number is at or below the count), or was applied, with the report.
#[derive(Clone, Copy)]
pub enum Delivered {
    Old,
    Applied(Removed),
}

// What a delivery leaves of the wall, and its reply.
#[derive(Clone, Copy)]
pub struct WallTransition {
    pub replica: Replica,
    pub reply: Result<Delivered, Refusal>,
}
