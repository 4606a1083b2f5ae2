// Numbers, bit for bit: the square root that IEEE 754 asks for, sign, magnitude and order of an f64, and a list's largest magnitude.
#![tactic(auto)]

pub mod bounds;
mod magnitudes;
mod order;
mod root;
mod sign;

pub use magnitudes::largest_magnitude;
pub use order::{before_in_order, max};
pub use root::sqrt;
pub use sign::{abs, is_finite, is_negative, signum};

// The place, from 0, of the first number of a list that is not finite.
#[derive(Clone, Copy, Debug, PartialEq, Eq)]
pub struct NotFinite {
    pub place: usize,
}
