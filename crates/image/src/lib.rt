// Images of sketches: the format, and one record of it as a value.
#![tactic(auto)]

mod checks;
pub mod layout;
mod records;
mod writer;

pub use checks::{curve_good, point_good, relation_good};
pub use layout::{CURVE_SIZE, HEADER_SIZE, MAX_IMAGE_SIZE, POINT_SIZE, RELATION_SIZE};
pub use records::{
    read_curve, read_curve_id, read_freeform, read_infinite, read_kind, read_point, read_relation,
    read_x, read_y,
};
pub use writer::{write_curve, write_header, write_point, write_relation};

// The version that is read and written.
pub const IMAGE_VERSION: u8 = 1;
