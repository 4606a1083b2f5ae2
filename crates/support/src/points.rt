// The points of freeform curves.
ghost use Rattle.std.specs.Prelude.{◌≤◌, ◌≡◌, length};
ghost use Rattle.support.specs.Freeform.{point_at};
ghost use Rattle.support.specs.Pieces.{conic_of};
ghost use Rattle.support.specs.Clauses.{freeform_of, at_most8, Controls};

use crate::Form;
use geom::Vec2;

const CONTROLS: usize = 8;

// A conic's point: the polynomial of the coordinates times the weights 1, w, 1, over that of the weights.
fn rational_point<'a>(w: f64, xs: &'a [f64], ys: &'a [f64], t: f64) -> Vec2
    requires { (3 ≤ length xs.now) × (3 ≤ length ys.now) }
    ensures { result ≡ point_at (conic_of w xs.now ys.now) t }
{
    let across = [xs[0] * 1.0, xs[1] * w, xs[2] * 1.0];
    let up = [ys[0] * 1.0, ys[1] * w, ys[2] * 1.0];
    let weights = [1.0, w, 1.0];
    let p = Vec2::new(bernstein::evaluate(&across, t), bernstein::evaluate(&up, t));
    p / bernstein::evaluate(&weights, t)
}

pub(crate) fn curve_point<'a>(curve: Form, xs: &'a [f64], ys: &'a [f64], t: f64) -> Vec2
    requires { Controls curve xs.now ys.now }
    ensures { result ≡ point_at (freeform_of curve xs.now ys.now) t }
{
    match curve {
        Form::Polynomial => Vec2::new(bernstein::evaluate(xs, t), bernstein::evaluate(ys, t)),
        Form::Rational(w) => rational_point(w, xs, ys, t),
    }
}

pub(crate) fn at_most_8(n: usize) -> usize
    ensures { (result ≡ at_most8 n) × (result ≤ 8) }
{
    n.min(CONTROLS)
}
