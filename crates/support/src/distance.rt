// How far a freeform curve lies from a line, as a polynomial.
ghost use Rattle.std.specs.Prelude.{◌≤◌, map, ◌≡◌, length, take};
ghost use Rattle.std.specs.Float.Ieee.{lt};
ghost use Rattle.float.specs.Numbers.{◌⊘◌, 1f, 1e-28};
ghost use Rattle.float.specs.Sign.{abs};
ghost use Rattle.sketch.specs.Lists.{every};
ghost use Rattle.support.specs.Hits as Defs;
ghost use Rattle.support.specs.Hits.{off_each};
ghost use Rattle.support.specs.Pieces.{zip_points};
ghost use Rattle.support.specs.Clauses.{freeform_of, weights_of, farthest_of, Controls};

use crate::Form;
use geom::Vec2;

// How far the farthest of the points lies from o, and 1 at least.
fn farthest<'a>(o: Vec2, xs: &'a [f64], ys: &'a [f64]) -> f64
    requires { length ys.now ≡ length xs.now }
    ensures { result ≡ farthest_of o (zip_points xs.now ys.now) }
{
    let mut m = 1.0;
    for (x, y) in xs.iter().zip(ys) {
        m = float::max(m, Vec2::new(*x, *y).dist(o));
    }
    m
}

// The largest weight, and 1 at least.
fn heaviest(ws: &[f64]) -> f64
    ensures { result ≡ Defs.max_of 1f ws.now }
{
    let mut m = 1.0;
    for w in ws {
        m = float::max(m, *w);
    }
    m
}

// The weights of the control points, at the front.
fn weights(curve: Form) -> [f64; 8]
    ensures { result ≡ weights_of curve }
{
    match curve {
        Form::Polynomial => [1.0; 8],
        Form::Rational(w) => [1.0, w, 1.0, 1.0, 1.0, 1.0, 1.0, 1.0],
    }
}

// How far p, with its weight, lies off the line through o in the direction d; over the scale.
fn off(d: Vec2, o: Vec2, scale: f64, p: Vec2, w: f64) -> f64
    ensures { result ≡ Defs.off d o scale p w }
{
    d.x * ((p.y - o.y) * w / scale) - d.y * ((p.x - o.x) * w / scale)
}

// That of each control point, at the front. The largest weight counts as 1.
fn off_each<'a>(
    d: Vec2,
    o: Vec2,
    scale: f64,
    top: f64,
    xs: &'a [f64],
    ys: &'a [f64],
    ws: &'a [f64],
) -> [f64; 8]
    requires { (length ys.now ≡ length xs.now) × (length ws.now ≡ length xs.now) × (length xs.now ≤ 8) }
    ensures { (take (length xs.now) result ≡ off_each d o scale (zip_points xs.now ys.now) (map (λ w. w ⊘ top) ws.now)) × (length result ≡ 8) }
{
    let mut c = [0.0; 8];
    for i in 0..xs.len() {
        c[i] = off(d, o, scale, Vec2::new(xs[i], ys[i]), ws[i] / top);
    }
    c
}

// The coefficients of the distance from the line through o in the direction d, at the front.
pub(crate) fn polynomial<'a>(
    d: Vec2,
    o: Vec2,
    curve: Form,
    xs: &'a [f64],
    ys: &'a [f64],
) -> [f64; 8]
    requires { Controls curve xs.now ys.now }
    ensures { (take (length xs.now) result ≡ Defs.polynomial d o (freeform_of curve xs.now ys.now)) × (length result ≡ 8) }
{
    let ws = weights(curve);
    let n = xs.len();
    let scale = farthest(o, xs, ys);
    let top = heaviest(&ws[..n]);
    off_each(d, o, scale, top, xs, ys, &ws[..n])
}

// Whether every coefficient counts as nothing.
pub(crate) fn vanishes(c: &[f64]) -> bool
    ensures { result ≡ every (λ x. lt (abs x) 1e-28) c.now }
{
    c.iter().all(|x| float::abs(*x) < 1e-28)
}
