// The magnitudes of a list's numbers.
ghost use Rattle.std.specs.Prelude.{◌≡◌};
ghost use Rattle.float.specs.Magnitude.{magnitude_of, magnitude_in};

use crate::NotFinite;
use crate::order::max;
use crate::sign::{abs, is_finite};

// One pass over a list of any length tells whether all its numbers are finite, and the largest magnitude, which is +0 for an empty list.
pub fn largest_magnitude(c: &[f64]) -> Result<f64, NotFinite>
    ensures { magnitude_in result ≡ magnitude_of c.now }
{
    let mut largest = 0.0;
    for (place, x) in c.iter().enumerate() {
        if !is_finite(*x) {
            return Err(NotFinite { place });
        }
        largest = max(largest, abs(*x));
    }
    Ok(largest)
}
