// Where the points of a sketch lie, and the shapes of its curves, from an image's records.
#![tactic(auto)]

pub mod positions;

use geom::Vec2;
use sketch::Id;

// A point that has moved, by its id, and where to; an image still has it where it was.
#[derive(Clone, Copy)]
pub struct Moved {
    pub point: Id,
    pub to: Vec2,
}
