// Sketches by value and their images: read, written, and written and read again.
#![tactic(auto)]

mod reader;
mod round_trip;
mod size;
mod writer;

pub use reader::read;
pub use round_trip::write_and_read;
pub use size::image_size;
pub use writer::write;
