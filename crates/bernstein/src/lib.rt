// Polynomials in Bernstein form, by their coefficients: the value at a place, and the roots from 0 to 1.
#![tactic(auto)]

use refusal::Refusal;

mod bisection;
mod coefficients;
mod level;
pub mod search;
mod sort_dedup;
mod value;

pub use value::evaluate;

// As many coefficients as are taken.
pub(crate) const MOST: usize = 15;

// How many a search found, and the budget that is left.
#[derive(Clone, Copy)]
pub struct Found {
    pub count: usize,
    pub budget: usize,
}

// Why a search stopped, and the budget that is left.
#[derive(Clone, Copy)]
pub struct Stopped {
    pub refusal: Refusal,
    pub budget: usize,
}

// A root, and the budget that is left.
#[derive(Clone, Copy)]
pub(crate) struct Bisected {
    pub(crate) at: f64,
    pub(crate) budget: usize,
}
