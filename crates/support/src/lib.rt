// Where the endless line of a support meets other curves.
#![tactic(auto)]

use shape::Shape;

mod boundary;
mod distance;
mod freeform;
mod points;
pub mod search;
pub mod shapes;

pub use boundary::endless;

// As many hits as there can be, one for each root.
pub(crate) const ROOM: usize = 28;

// A line or round; a Bézier curve of so many control points, eight at most; or a conic, with its apex's weight. The control points stand beside it.
#[derive(Clone, Copy)]
pub enum Piece {
    Analytic(Shape),
    Bezier(usize),
    Conic(f64),
}

// A freeform piece whose control points are at hand: a Bézier curve, or a conic, with its apex's weight.
#[derive(Clone, Copy)]
enum Form {
    Polynomial,
    Rational(f64),
}
