// The plan of a trim or a split: which pieces of a curve go, where it is cut, and what its new ends are pinned to.
#![tactic(auto)]

pub mod image_pins;
pub mod image_plans;
mod planning;
