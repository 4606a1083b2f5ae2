// Directions without sine or arctangent. A full turn counts 4.
ghost use Rattle.std.specs.Prelude.{◌≡◌};
ghost use Rattle.shape.specs.Turn as T;
ghost use Rattle.shape.specs.Turn.{in_quarter, below4, first_quarter};

use geom::Vec2;

// The turn of (x, y), by the quarter in which it lies; s is |x| + |y|.
fn in_quarter(x: f64, y: f64, s: f64) -> f64
    ensures { result ≡ in_quarter x y s }
{
    if (0.0 < x) & (0.0 <= y) {
        return y / s;
    }
    if (x <= 0.0) & (0.0 < y) {
        return 1.0 + -x / s;
    }
    if (x < 0.0) & (y <= 0.0) {
        return 2.0 + -y / s;
    }
    3.0 + x / s
}

// A full turn is none.
fn below_4(t: f64) -> f64
    ensures { result ≡ below4 t }
{
    if t == 4.0 { 0.0 } else { t }
}

// How far a vector has turned from the x axis to the left, from 0 up to 4; 0 for one of no length.
pub fn turn(v: Vec2) -> f64
    ensures { result ≡ T.turn v }
{
    let s = float::abs(v.x) + float::abs(v.y);
    if s == 0.0 {
        return 0.0;
    }
    below_4(in_quarter(v.x, v.y, s))
}

// A parameter, by the turn from a start.
pub(crate) fn forward(t: f64) -> f64
    ensures { result ≡ T.forward t }
{
    if t < 0.0 { t + 4.0 } else { t }
}

// A sweep, by the turn from start to end.
pub(crate) fn upward(t: f64) -> f64
    ensures { result ≡ T.upward t }
{
    if 0.0 < t { t } else { t + 4.0 }
}

// Within one turn.
pub(crate) fn wrapped(s: f64) -> f64
    ensures { result ≡ T.wrapped s }
{
    if 4.0 <= s { s - 4.0 } else { s }
}

// The direction at a fraction of the first quarter.
fn first_quarter(f: f64) -> Vec2
    ensures { result ≡ first_quarter f }
{
    let u = Vec2::new(1.0 - f, f);
    u / u.len()
}

// The direction that has turned by s.
pub(crate) fn heading(s: f64) -> Vec2
    ensures { result ≡ T.heading s }
{
    if s < 1.0 {
        return first_quarter(s - 0.0);
    }
    if s < 2.0 {
        return first_quarter(s - 1.0).perp();
    }
    if s < 3.0 {
        return first_quarter(s - 2.0).perp().perp();
    }
    first_quarter(s - 3.0).perp().perp().perp()
}
