// The search for the roots from 0 to 1.
ghost use Rattle.std.specs.Prelude.{◌≤◌, length};
ghost use Rattle.bernstein.specs.Answers.{answer_in};
ghost use Rattle.bernstein.specs.Roots.{roots_of, search_of, Searched};

use crate::coefficients::derivative;
use crate::level::roots_between;
use crate::{Found, MOST, Stopped};
use refusal::Refusal;

// As many roots as 15 coefficients can have, two for each degree.
const ROOM: usize = 28;

// First the roots of the derivative, which has one coefficient fewer: between them the polynomial rises or falls throughout.
fn roots_in(c: &[f64], found: &mut [f64], budget: usize) -> Result<Found, Stopped>
    requires { 28 ≤ length found.old }
    ensures { Searched (roots_of c.now budget) found.old found.new (answer_in result) }
{
    let n = c.len();
    let refused = Stopped {
        refusal: Refusal::BadCoefficients,
        budget,
    };
    if n == 0 || MOST < n {
        return Err(refused);
    }
    let Ok(largest) = float::largest_magnitude(c) else {
        return Err(refused);
    };
    if largest < 1e-28 || n == 1 {
        return Ok(Found { count: 0, budget });
    }
    let d = derivative(c);
    let mut ts = [0.0; ROOM];
    let answer = roots_in(&d[..n - 1], &mut ts, budget);
    // The scope asks each caller of the search to take its answer apart by `let .. else`.
    let Ok(below) = answer else {
        return answer;
    };
    roots_between(c, largest, &ts[..below.count], found, below.budget)
}

// Finds the roots of the polynomial with the coefficients c and puts them, in order, to the front of found. Each halving takes one of
// the budget. Refused are fewer than 28 floats lent (25), no coefficients, more than 15 or one that is not finite, also in a
// derivative (20), and a budget that runs out (21).
pub fn roots(c: &[f64], found: &mut [f64], budget: usize) -> Result<Found, Stopped>
    ensures { Searched (search_of (length found.old) c.now budget) found.old found.new (answer_in result) }
{
    if found.len() < ROOM {
        return Err(Stopped {
            refusal: Refusal::ShortBuffer,
            budget,
        });
    }
    roots_in(c, found, budget)
}
