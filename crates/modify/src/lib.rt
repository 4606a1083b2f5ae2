// Trim, split and extend, of an image and of a sketch by value: the tests, the plan, and applying it.
#![tactic(auto)]

mod edits;
mod image_edits;
mod in_place;

use edit_plan::Removed;
pub use edits::{edit, extend, split, trim};
pub use image_edits::edit_image;
pub use in_place::edit_in_place;
use sketch::Sketch;

// What an accepted edit leaves, with its report.
#[derive(Clone, Copy)]
pub struct Edited {
    pub sketch: Sketch,
    pub removed: Removed,
}
