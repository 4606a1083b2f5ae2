// A root between two places at which the signs differ.
ghost use Rattle.std.specs.Prelude.{◌≡◌};
ghost use Rattle.bernstein.specs.Bisect.{same_sign, bisect_of};

use crate::Bisected;
use crate::value::evaluate;

const STEPS: usize = 64;

// Whether the sign bits are alike; a NaN's is like none.
pub(crate) fn same_sign(f: f64, g: f64) -> bool
    ensures { result ≡ same_sign f g }
{
    f == f && g == g && float::is_negative(f) == float::is_negative(g)
}

// Halves the way from a, where the value is fa, to b; none where the budget runs out. A step is paid for before it is known whether it is the last.
pub(crate) fn bisect(c: &[f64], a: f64, b: f64, fa: f64, budget: usize) -> Option<Bisected>
    ensures { result ≡ bisect_of c.now 64 a b fa budget }
{
    let mut lo = a;
    let mut hi = b;
    let mut fl = fa;
    let mut left = budget;
    for _step in 0..STEPS {
        if left == 0 {
            return None;
        }
        left -= 1;
        let mid = (lo + hi) * 0.5;
        if hi - lo < 2e-14 {
            return Some(Bisected {
                at: mid,
                budget: left,
            });
        }
        let f = evaluate(c, mid);
        if same_sign(f, fl) {
            lo = mid;
            fl = f;
        } else {
            hi = mid;
        }
    }
    Some(Bisected {
        at: (lo + hi) * 0.5,
        budget: left,
    })
}
