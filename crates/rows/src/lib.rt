// The records of an image where they lie: its tables as byte slices, a record as a value on demand, the place of an id, runs of
// records copied, and the test of the whole.
#![tactic(auto)]

mod faults;
mod image_tables;
mod places;
mod records;
mod references;
mod runs;
mod tables;

pub use faults::image_fault;
pub use image_tables::Tables;
pub use places::{curve_place, curve_record_of, point_place, point_record_of};
pub use records::{
    curve_at, curve_count, curve_record, point_at, point_count, relation_at, relation_count,
};
pub use runs::put_run;
pub use tables::{curves_of, front, next_id, points_of, relations_of, rest};
