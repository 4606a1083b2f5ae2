// Where other curves cut a line or round, and which of these cuts lie around a place on it. Geometry only: no table is touched.
#![tactic(auto)]

use geom::Vec2;
use shape::Shape;
use sketch::Id;

mod bounded;
mod brackets;
mod gather;
pub mod image_cuts;
mod nearest;

// A line or round that may cut: its id, whether it is an infinite line, and its shape.
#[derive(Clone, Copy)]
pub struct Cutter {
    pub id: Id,
    pub infinite: bool,
    pub shape: Shape,
}

// A cut: the parameter on the curve that is cut, the place, and the curve that cuts.
#[derive(Clone, Copy)]
pub struct Cut {
    pub t: f64,
    pub at: Vec2,
    pub by: Id,
}

// The cuts around a place, in order of their parameters.
#[derive(Clone, Copy)]
pub enum Neighbours {
    Zero,
    One(Cut),
    Two(Cut, Cut),
}

// Which cuts a search is for: those between the ends and before tq, those between the ends and after it, those not past tq, those past it, or all.
#[derive(Clone, Copy)]
enum Side {
    Before,
    After,
    NotPast,
    Past,
    Any,
}
