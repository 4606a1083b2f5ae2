// Which of two floats is larger, and which comes first where lists are sorted.
ghost use Rattle.std.specs.Prelude.{◌≡◌};
ghost use Rattle.float.specs.Order as O;
ghost use Rattle.float.specs.Order.{before};

use crate::sign::is_negative;

// The larger of the two; a NaN gives way to the other.
//
// Of a +0 and a -0 it is the first. No caller shows it: each holds a number against a bound above 0, or against a magnitude.
pub fn max(a: f64, b: f64) -> f64
    ensures { result ≡ O.max a b }
{
    if a < b {
        return b;
    }
    if a != a { b } else { a }
}

// Whether a stands before b in the total order: as `<` has it, with -0 before +0 and a NaN last.
pub fn before_in_order(a: f64, b: f64) -> bool
    ensures { result ≡ before a b }
{
    if a < b {
        return true;
    }
    if a == b {
        return is_negative(a) & !is_negative(b);
    }
    (b != b) & (a == a)
}
