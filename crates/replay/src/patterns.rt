// Floats by their patterns.
ghost use Rattle.std.specs.Prelude.{◌≡◌};
ghost use Rattle.std.specs.Float.{binary64};
ghost use Rattle.std.specs.Float.Ieee.{nan_bits};

use big_endian::get8;

// As many numbers as any entry has in a row.
pub(crate) const MOST_NUMBERS: usize = 40;

// Whether it is the pattern of a NaN: only others may become a number.
fn is_nan(pattern: u64) -> bool
    ensures { result ≡ nan_bits binary64 pattern }
{
    0x7ff0_0000_0000_0000 < pattern % 0x8000_0000_0000_0000
}

pub(crate) fn number(pattern: u64) -> f64 {
    if is_nan(pattern) {
        return 0.0 / 0.0;
    }
    f64::from_bits(pattern)
}

// The numbers with some patterns, of eight bytes each, at the front.
pub(crate) fn numbers(patterns: &[u8]) -> [f64; MOST_NUMBERS] {
    let mut c = [0.0; MOST_NUMBERS];
    for (x, pattern) in c.iter_mut().zip(patterns.chunks_exact(8)) {
        *x = number(get8(pattern, 0));
    }
    c
}

// Whether a number has a pattern. A NaN has every NaN's.
pub(crate) fn has_pattern(x: f64, pattern: u64) -> bool {
    if x.is_nan() {
        is_nan(pattern)
    } else {
        x.to_bits() == pattern
    }
}
