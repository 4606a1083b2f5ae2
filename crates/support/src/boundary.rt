// Infinite lines as boundaries.
ghost use Rattle.std.specs.Prelude.{◌≡◌};
ghost use Rattle.support.specs.Hits.{endless_line};

use geom::Vec2;
use shape::Shape;

// How far an infinite line reaches each way: well past any coordinate.
const REACH: f64 = 1e7;

// The infinite line through a and b, each way from its point nearest to `near`. A line of no length stays as it is.
pub fn endless(a: Vec2, b: Vec2, near: Vec2) -> Shape
    ensures { result ≡ endless_line a b near }
{
    let Some(d) = Vec2::from_points(a, b).normalized() else {
        return Shape::Line(a, b);
    };
    let m = a + d * Vec2::from_points(a, near).dot(d);
    let reach = d * REACH;
    Shape::Line(m - reach, m + reach)
}
