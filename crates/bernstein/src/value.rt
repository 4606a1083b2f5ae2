// The value at a place, by de Casteljau's scheme: each coefficient is mixed with the one behind it, until one is left.
ghost use Rattle.std.specs.Prelude.{◌+◌, ◌-◌, ◌≤◌, ◌<◌, ◌++◌, ◌≡◌, length, drop};
ghost use Rattle.bernstein.specs.Evaluate as E;
ghost use Rattle.bernstein.specs.Evaluate.{casteljau_steps, value_of, evaluate_of};

use crate::MOST;

fn mix(t: f64, x: f64, y: f64) -> f64
    ensures { result ≡ E.mix t x y }
{
    x * (1.0 - t) + y * t
}

// Four steps in one walk. What each step made last stays in a local, so that a turn reads one number and stores one.
fn casteljau_four(u: &[f64], v: &mut [f64], t: f64)
    requires { (4 < length u.now) × (length u.now ≤ length v.old + 4) }
    ensures { v.new ≡ casteljau_steps t 4 u.now ++ drop (length u.now - 4) v.old }
{
    let second = mix(t, u[1], u[2]);
    let mut last0 = u[3];
    let mut last1 = mix(t, u[2], last0);
    let mut last2 = mix(t, second, last1);
    let mut last3 = mix(t, mix(t, mix(t, u[0], u[1]), second), last2);
    let n = u.len() - 4;
    for i in 0..n {
        let next0 = u[i + 4];
        let next1 = mix(t, last0, next0);
        let next2 = mix(t, last1, next1);
        let next3 = mix(t, last2, next2);
        v[i] = mix(t, last3, next3);
        last0 = next0;
        last1 = next1;
        last2 = next2;
        last3 = next3;
    }
}

// The value of four coefficients at most.
fn short_value(c: &[f64], t: f64) -> f64
    requires { length c.now ≤ 4 }
    ensures { result ≡ value_of c.now t }
{
    let n = c.len();
    if n == 0 {
        return 0.0;
    }
    if n == 1 {
        return c[0];
    }
    let a = mix(t, c[0], c[1]);
    if n == 2 {
        return a;
    }
    let b = mix(t, c[1], c[2]);
    let d = mix(t, a, b);
    if n == 3 {
        return d;
    }
    mix(t, d, mix(t, b, mix(t, c[2], c[3])))
}

// The value at t. No coefficients, and more than 15, have the value 0. Inlined, since halving spends most of its time here.
#[inline(always)]
pub fn evaluate(c: &[f64], t: f64) -> f64
    ensures { result ≡ evaluate_of c.now t }
{
    let n = c.len();
    if n <= 4 {
        return short_value(c, t);
    }
    if MOST < n {
        return 0.0;
    }
    let mut a = [0.0; 11];
    casteljau_four(c, &mut a, t);
    if n <= 8 {
        return short_value(&a[..n - 4], t);
    }
    let mut b = [0.0; 7];
    casteljau_four(&a[..n - 4], &mut b, t);
    if n <= 12 {
        return short_value(&b[..n - 8], t);
    }
    let mut d = [0.0; 3];
    casteljau_four(&b[..n - 8], &mut d, t);
    short_value(&d[..n - 12], t)
}
