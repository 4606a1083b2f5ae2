// Which relations of an image are met, as its points and curves stand, and also once a point has moved.
#![tactic(auto)]

pub mod image_search;
mod measures;
mod whole_shapes;
