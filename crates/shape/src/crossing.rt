// Where endless lines and full circles cross.
ghost use Rattle.std.specs.Prelude.{◌≡◌};
ghost use Rattle.shape.specs.Intersections as I;
ghost use Rattle.shape.specs.Intersections.{line_and_round, crossings, direction_of, crossings_by};

use crate::{Crossings, Shape};
use geom::Vec2;

// From a along r, and from c along s.
fn lines(a: Vec2, r: Vec2, c: Vec2, s: Vec2) -> Crossings
    ensures { result ≡ I.lines a r c s }
{
    let k = r.cross(s);
    if float::abs(k) < 1e-15 {
        return Crossings::Zero;
    }
    let t = Vec2::from_points(a, c).cross(s) / k;
    Crossings::One(a + r * t)
}

// From a in the direction d, and around c with the radius r. A root is taken only where there are two crossings.
fn line_and_round(a: Vec2, d: Option<Vec2>, c: Vec2, r: f64) -> Crossings
    ensures { result ≡ line_and_round a d c r }
{
    let Some(u) = d else {
        return Crossings::Zero;
    };
    let m = a + u * Vec2::from_points(a, c).dot(u);
    let w = Vec2::from_points(c, m);
    let h = r * r - w.dot(w);
    if h < 0.0 {
        return Crossings::Zero;
    }
    if h == 0.0 {
        return Crossings::One(m);
    }
    let k = u * float::sqrt(h);
    Crossings::Two(m - k, m + k)
}

// Around c1 with the radius r1, and around c2 with r2. The second root is taken only where there are two crossings.
fn rounds(c1: Vec2, r1: f64, c2: Vec2, r2: f64) -> Crossings
    ensures { result ≡ I.rounds c1 r1 c2 r2 }
{
    let e = Vec2::from_points(c1, c2);
    let d = e.len();
    if d < 1e-12 {
        return Crossings::Zero;
    }
    let g = (d * d + r1 * r1 - r2 * r2) / (2.0 * d);
    let h = r1 * r1 - g * g;
    if h < 0.0 {
        return Crossings::Zero;
    }
    let m = c1 + e * (g / d);
    if h == 0.0 {
        return Crossings::One(m);
    }
    let k = e.perp() / d * float::sqrt(h);
    Crossings::Two(m + k, m - k)
}

// The crossings of the endless line or the full circle of each. Between a line and a round they run along the line, whichever is given first.
pub fn intersections(sh: Shape, other: Shape) -> Crossings
    ensures { result ≡ crossings sh other }
{
    match (sh, other) {
        (Shape::Line(a, b), Shape::Line(c, d)) => {
            lines(a, Vec2::from_points(a, b), c, Vec2::from_points(c, d))
        }
        (Shape::Line(a, b), Shape::Round(c, r, _, _)) => {
            line_and_round(a, Vec2::from_points(a, b).normalized(), c, r)
        }
        (Shape::Round(c, r, _, _), Shape::Line(a, b)) => {
            line_and_round(a, Vec2::from_points(a, b).normalized(), c, r)
        }
        (Shape::Round(c1, r1, _, _), Shape::Round(c2, r2, _, _)) => rounds(c1, r1, c2, r2),
    }
}

// The direction of a line, none of a round: for a caller that asks for many crossings with one shape.
pub fn direction_of(sh: Shape) -> Option<Vec2>
    ensures { result ≡ direction_of sh }
{
    match sh {
        Shape::Line(a, b) => Vec2::from_points(a, b).normalized(),
        Shape::Round(_, _, _, _) => None,
    }
}

// The crossings of the endless line through a and b, whose direction is given.
pub fn line_crossings(a: Vec2, b: Vec2, d: Option<Vec2>, other: Shape) -> Crossings
    ensures { result ≡ crossings_by d (Shape.Line a b) other }
{
    match other {
        Shape::Line(p, q) => lines(a, Vec2::from_points(a, b), p, Vec2::from_points(p, q)),
        Shape::Round(c, r, _, _) => line_and_round(a, d, c, r),
    }
}

// The crossings, given the direction of the first where it is a line.
pub fn intersections_by(sh: Shape, d: Option<Vec2>, other: Shape) -> Crossings
    ensures { result ≡ crossings_by d sh other }
{
    match sh {
        Shape::Line(a, b) => line_crossings(a, b, d, other),
        Shape::Round(_, _, _, _) => intersections(sh, other),
    }
}
