// What stands in for a bound on a length, so that no root is taken. For s, a sum of two squares, sqrt(s) < 1e-6 is s < BELOW_1E_6 and
// sqrt(s) >= 1e-6 is s >= BELOW_1E_6; sqrt(s) > 1e-6 is s > ABOVE_1E_6 and sqrt(s) <= 1e-6 is s <= ABOVE_1E_6. So for 1e-7.
// proofs/Lengths.antt has the laws.
pub const BELOW_1E_6: f64 = 9.999999999999998e-13;

pub const ABOVE_1E_6: f64 = 1e-12;

pub const BELOW_1E_7: f64 = 9.999999999999998e-15;

pub const ABOVE_1E_7: f64 = 1e-14;
