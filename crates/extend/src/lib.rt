// The extend of a line: an end moves on to the nearest curve that it meets, and is pinned there.
#![tactic(auto)]

mod image_extend;
mod image_moves;

use edit_plan::Pin;
use geom::Vec2;
pub use image_moves::extend_image;

// Where the end of a line moves to, and its pin there: the end, or (false) the start, which is the point at a place.
#[derive(Clone, Copy)]
struct EndMove {
    at_b: bool,
    place: usize,
    to: Vec2,
    pin: Pin,
}
