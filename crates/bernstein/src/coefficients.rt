// The derivative's coefficients.
ghost use Rattle.std.specs.Prelude.{◌-◌, ◌≤◌, ◌≡◌, length, take};
ghost use Rattle.bernstein.specs.Roots.{derivative_of};

use crate::MOST;

// They are one fewer, and stand at the front.
pub(crate) fn derivative(c: &[f64]) -> [f64; MOST]
    requires { (1 ≤ length c.now) × (length c.now ≤ 15) }
    ensures { take (length c.now - 1) result ≡ derivative_of c.now }
{
    let mut d = [0.0; MOST];
    let n = c.len() - 1;
    let degree = n as f64;
    for i in 0..n {
        d[i] = (c[i + 1] - c[i]) * degree;
    }
    d
}
