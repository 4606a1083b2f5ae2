// The roots of a polynomial, given those of its derivative.
ghost use Rattle.std.specs.Prelude.{◌+◌, ◌≤◌, [], ◌∷◌, ◌++◌, ◌≡◌, length, take, drop};
ghost use Rattle.float.specs.Numbers.{0f, 1f, 1e-10};
ghost use Rattle.float.specs.Magnitude.{largest_of};
ghost use Rattle.bernstein.specs.Answers.{answer_in};
ghost use Rattle.bernstein.specs.Roots.{sort_onto, dedup_of, is_zero, zeros_of, no_sign_change, bisect_between, gathered, level_of, Searched};
ghost use Rattle.bernstein.specs.Clauses.{RootsAtFront};

use crate::bisection::{bisect, same_sign};
use crate::sort_dedup::sort_dedup;
use crate::value::evaluate;
use crate::{Found, Stopped};
use refusal::Refusal;

// The derivative's roots and the two ends.
fn join(ts: &[f64]) -> [f64; 28]
    requires { length ts.now ≤ 26 }
    ensures { (take (length ts.now + 2) result ≡ ts.now ++ (0f ∷ 1f ∷ [])) × (length result ≡ 28) }
{
    let mut k = [0.0; 28];
    let n = ts.len();
    k[..n].copy_from_slice(ts);
    k[n] = 0.0;
    k[n + 1] = 1.0;
    k
}

fn is_zero(eps: f64, f: f64) -> bool
    ensures { result ≡ is_zero eps f }
{
    float::abs(f) <= eps
}

// The knots that are zeros, to the front of f, and how many.
fn zeros(c: &[f64], knots: &[f64], eps: f64, f: &mut [f64]) -> usize
    requires { length knots.now ≤ length f.old }
    ensures { (take result f.new ≡ zeros_of c.now eps knots.now) × (result ≤ length knots.now) }
{
    let mut m = 0usize;
    for t in knots {
        if is_zero(eps, evaluate(c, *t)) {
            f[m] = *t;
            m += 1;
        }
    }
    m
}

// Whether two neighbouring knots with these values have no root between them.
fn no_sign_change(eps: f64, fl: f64, fh: f64) -> bool
    ensures { result ≡ no_sign_change eps fl fh }
{
    is_zero(eps, fl) || is_zero(eps, fh) || same_sign(fl, fh)
}

// The roots between neighbouring knots, behind the first z of f.
fn between(
    c: &[f64],
    knots: &[f64],
    eps: f64,
    f: &mut [f64],
    z: usize,
    budget: usize,
) -> Result<Found, Stopped>
    requires { z + length knots.now ≤ length f.old }
    ensures { RootsAtFront (gathered (take z f.old) (bisect_between c.now eps knots.now budget)) f.new (answer_in result) }
{
    let mut count = z;
    let mut left = budget;
    if knots.is_empty() {
        return Ok(Found { count, budget });
    }
    let mut lo = knots[0];
    let mut fl = evaluate(c, lo);
    for i in 1..knots.len() {
        let hi = knots[i];
        let fh = evaluate(c, hi);
        if !no_sign_change(eps, fl, fh) {
            let Some(root) = bisect(c, lo, hi, fl, left) else {
                return Err(Stopped {
                    refusal: Refusal::BudgetSpent,
                    budget: 0,
                });
            };
            f[count] = root.at;
            count += 1;
            left = root.budget;
        }
        lo = hi;
        fl = fh;
    }
    Ok(Found {
        count,
        budget: left,
    })
}

// What was found, tidied, to the front of out.
fn settle(f: &mut [f64], out: &mut [f64]) -> usize
    requires { length (dedup_of 1e-10 (sort_onto [] f.old)) ≤ length out.old }
    ensures value { result ≡ length (dedup_of 1e-10 (sort_onto [] f.old)) }
    ensures out_after { out.new ≡ dedup_of 1e-10 (sort_onto [] f.old) ++ drop (length (dedup_of 1e-10 (sort_onto [] f.old))) out.old }
{
    let r = sort_dedup(f, 1e-10);
    out[..r].copy_from_slice(&f[..r]);
    r
}

// One level of the search, at the derivative's roots ts; the largest magnitude of c is known.
pub(crate) fn roots_between(
    c: &[f64],
    largest: f64,
    ts: &[f64],
    out: &mut [f64],
    budget: usize,
) -> Result<Found, Stopped>
    requires { (length ts.now ≤ 26) × (28 ≤ length out.old) × (largest ≡ largest_of 0f c.now) }
    ensures { Searched (level_of c.now ts.now budget) out.old out.new (answer_in result) }
{
    let eps = largest * 2e-13;
    let n = ts.len() + 2;
    let mut k = join(ts);
    let m = sort_dedup(&mut k[..n], 1e-13);
    let mut f = [0.0; 56];
    let z = zeros(c, &k[..m], eps, &mut f);
    let all = between(c, &k[..m], eps, &mut f, z, budget)?;
    let count = settle(&mut f[..all.count], out);
    Ok(Found {
        count,
        budget: all.budget,
    })
}
