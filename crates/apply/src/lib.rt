// A plan applied from image to image: every refusal is decided from counts, and then the new image is written, runs of old records and
// new ones in turn.
#![tactic(auto)]

mod changed;
mod curves;
mod image_plan;
mod limits;
mod moved;
mod points;
mod refusals;
mod relation_rows;
mod runs;
mod unused_points;
mod without;

use edit_plan::Removed;
pub use image_plan::apply_plan;
pub use moved::{apply_move, count_pinned, move_refusal};

// What applying a plan to an image answers: the report, and the size of the new image.
#[derive(Clone, Copy)]
pub struct Applied {
    pub removed: Removed,
    pub size: usize,
}

// How many records an image has.
#[derive(Clone, Copy)]
struct TableCounts {
    points: usize,
    curves: usize,
    relations: usize,
}
