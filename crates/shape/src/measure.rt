// Measures of a line and of a round.
ghost use Rattle.std.specs.Prelude.{◌≡◌};
ghost use Rattle.shape.specs.Measures as M;
ghost use Rattle.shape.specs.Measures.{arc, circle, up_to, is_full, line_param, line_point, on_circle};

use crate::turning::{forward, heading, turn, upward, wrapped};
use crate::{Range, Shape};
use geom::Vec2;

// Where p stands along the line from a to b: 0 at a, and 1 at b. A line of no length has a divisor all the same.
fn line_param(a: Vec2, b: Vec2, p: Vec2) -> f64
    ensures { result ≡ line_param a b p }
{
    let d = Vec2::from_points(a, b);
    Vec2::from_points(a, p).dot(d) / float::max(d.dot(d), 1e-30)
}

// The point at t along the line from a to b.
fn line_point(a: Vec2, b: Vec2, t: f64) -> Vec2
    ensures { result ≡ line_point a b t }
{
    a + Vec2::from_points(a, b) * t
}

// The point of a circle in a direction from its centre, or on the side of x where there is none.
fn on_circle(c: Vec2, r: f64, d: Option<Vec2>) -> Vec2
    ensures { result ≡ on_circle c r d }
{
    match d {
        Some(n) => c + n * r,
        None => c + Vec2::new(r, 0.0),
    }
}

impl Shape {
    // A line from a to b.
    pub fn from_line(a: Vec2, b: Vec2) -> Shape
        ensures { result ≡ Shape.Line a b }
    {
        Shape::Line(a, b)
    }

    // An arc around c from a to b, to the left.
    pub fn from_arc(c: Vec2, a: Vec2, b: Vec2) -> Shape
        ensures { result ≡ arc c a b }
    {
        let u = Vec2::from_points(c, a);
        let start = turn(u);
        let sweep = upward(turn(Vec2::from_points(c, b)) - start);
        Shape::Round(c, u.len(), start, sweep)
    }

    // A whole circle.
    pub fn from_circle(c: Vec2, r: f64) -> Shape
        ensures { result ≡ circle c r }
    {
        Shape::Round(c, r, 0.0, 4.0)
    }

    // The parameters that it runs through.
    pub fn range(self) -> Range
        ensures { result ≡ M.range self }
    {
        match self {
            Shape::Line(_, _) => Range {
                start: 0.0,
                end: 1.0,
            },
            Shape::Round(_, _, _, sweep) => Range {
                start: 0.0,
                end: sweep,
            },
        }
    }

    // Whether it is a whole circle, or as good as one.
    pub fn is_full(self) -> bool
        ensures { result ≡ is_full self }
    {
        match self {
            Shape::Line(_, _) => false,
            Shape::Round(_, _, _, sweep) => 4.0 - 1e-12 <= sweep,
        }
    }

    // Where p stands along it, which need not be within its range.
    pub fn param(self, p: Vec2) -> f64
        ensures { result ≡ M.param self p }
    {
        match self {
            Shape::Line(a, b) => line_param(a, b, p),
            Shape::Round(c, _, start, _) => forward(turn(Vec2::from_points(c, p)) - start),
        }
    }

    // The point at a parameter.
    pub fn point(self, t: f64) -> Vec2
        ensures { result ≡ M.point self t }
    {
        match self {
            Shape::Line(a, b) => line_point(a, b, t),
            Shape::Round(c, r, start, _) => heading(wrapped(start + t)) * r + c,
        }
    }

    // The nearest point of its endless line or full circle.
    pub fn project(self, p: Vec2) -> Vec2
        ensures { result ≡ M.project self p }
    {
        match self {
            Shape::Line(a, b) => line_point(a, b, line_param(a, b, p)),
            Shape::Round(c, r, _, _) => on_circle(c, r, Vec2::from_points(c, p).normalized()),
        }
    }

    // How far p is from its endless line or full circle.
    pub fn dist(self, p: Vec2) -> f64
        ensures { result ≡ M.dist self p }
    {
        p.dist(self.project(p))
    }
    // The square of that distance, for a bound that float::bounds has.
    pub fn dist2(self, p: Vec2) -> f64
        ensures { result ≡ M.dist2 self p }
    {
        p.dist2(self.project(p))
    }
}
