// Measures held against the 1e-7 within which a relation is met.
ghost use Rattle.std.specs.Prelude.{◌≡◌};
ghost use Rattle.sketch.specs.Lists.{every};
ghost use Rattle.sketch_geometry.specs.Positions.{shape_found};
ghost use Rattle.relations.specs.Met as M;

use float::bounds::ABOVE_1E_7;
use geom::Vec2;
use shape::Shape;

// Whether two measures count as one.
pub(crate) fn same(x: f64, y: f64) -> bool
    ensures { result ≡ M.same x y }
{
    float::abs(x - y) <= 1e-7
}

// Whether two points count as one: by the square of their distance, so that no root is taken.
pub(crate) fn close(p: Vec2, q: Vec2) -> bool
    ensures { result ≡ M.close p q }
{
    p.dist2(q) <= ABOVE_1E_7
}

// Whether p lies on the endless line or the full circle; a freeform curve has neither, and every point passes.
pub(crate) fn on(sh: Option<Shape>, p: Vec2) -> bool
    ensures { result ≡ M.on (shape_found sh) p }
{
    match sh {
        Some(sh) => sh.dist2(p) <= ABOVE_1E_7,
        None => true,
    }
}

// A line's length, or a round's radius; of any other curve a NaN.
pub(crate) fn length_or_radius_of(sh: Option<Shape>) -> f64
    ensures { result ≡ M.length_or_radius_of (shape_found sh) }
{
    match sh {
        Some(sh) => match sh {
            Shape::Line(a, b) => a.dist(b),
            Shape::Round(_, r, _, _) => r,
        },
        None => 0.0 / 0.0,
    }
}

// Whether both ends of the line t lie on the curve s.
pub(crate) fn is_collinear(s: Option<Shape>, t: Option<Shape>) -> bool
    ensures { result ≡ every (M.on (shape_found s)) (M.line_end_points (shape_found t)) }
{
    match t {
        Some(sh) => match sh {
            Shape::Line(a, b) => on(s, a) & on(s, b),
            Shape::Round(_, _, _, _) => true,
        },
        None => true,
    }
}

// Whether p is the middle of the line s.
pub(crate) fn is_midpoint(p: Vec2, s: Option<Shape>) -> bool
    ensures { result ≡ M.close p (M.line_midpoint (shape_found s)) }
{
    match s {
        Some(sh) => match sh {
            Shape::Line(a, b) => close(p, (a + b) * 0.5),
            Shape::Round(_, _, _, _) => false,
        },
        None => false,
    }
}
