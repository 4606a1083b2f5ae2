// Whether a point lies on a curve, between its ends.
ghost use Rattle.std.specs.Prelude.{◌≡◌};
ghost use Rattle.std.specs.Float.Ieee.{lt};
ghost use Rattle.float.specs.Numbers.{1e-6};
ghost use Rattle.shape.specs.Measures.{dist, param};
ghost use Rattle.cuts.specs.Bounded as B;
ghost use Rattle.cuts.specs.Bounded.{in_range, on_bounded};

use geom::Vec2;
use shape::Shape;

// A line's length, and a round's radius.
fn length_or_radius(sh: Shape) -> f64
    ensures { result ≡ B.length_or_radius sh }
{
    match sh {
        Shape::Line(a, b) => a.dist(b),
        Shape::Round(_, r, _, _) => r,
    }
}

// How far beyond its range a parameter may lie.
pub(crate) fn slack(sh: Shape) -> f64
    ensures { result ≡ B.slack sh }
{
    1e-6 / float::max(length_or_radius(sh), 1e-12)
}

// Further than 1e-6 from its endless line or full circle.
fn is_off(sh: Shape, p: Vec2) -> bool
    ensures { result ≡ lt 1e-6 (dist sh p) }
{
    float::bounds::ABOVE_1E_6 < sh.dist2(p)
}

fn in_range(sh: Shape, slack: f64, p: Vec2) -> bool
    requires { slack ≡ B.slack sh }
    ensures { result ≡ in_range sh (param sh p) }
{
    if sh.is_full() {
        return true;
    }
    let t = sh.param(p);
    let r = sh.range();
    (r.start - slack <= t) & (t <= r.end + slack)
}

// The same as on_bounded, for a caller that asks often and has the slack: the range is then tested sooner than the distance.
pub(crate) fn lies_on(sh: Shape, slack: f64, p: Vec2) -> bool
    requires { slack ≡ B.slack sh }
    ensures { result ≡ on_bounded sh p }
{
    in_range(sh, slack, p) && !is_off(sh, p)
}

// Whether p is on the curve, its ends included, but for 1e-6. The slack costs a root, and most points are off.
pub(crate) fn on_bounded(sh: Shape, p: Vec2) -> bool
    ensures { result ≡ on_bounded sh p }
{
    !is_off(sh, p) && in_range(sh, slack(sh), p)
}
