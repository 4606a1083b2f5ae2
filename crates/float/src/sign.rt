// Sign, magnitude and finiteness.
ghost use Rattle.std.specs.Prelude.{◌≡◌};
ghost use Rattle.float.specs.Sign as S;
ghost use Rattle.float.specs.Sign.{is_finite, negative};

const SIGN_BIT: u64 = 0x8000_0000_0000_0000;

// Neither a NaN nor an infinity.
pub fn is_finite(x: f64) -> bool
    ensures { result ≡ is_finite x }
{
    let infinity = 1.0 / 0.0;
    (-infinity < x) & (x < infinity)
}

// Whether the sign bit is set, also of a zero. A NaN counts as having none.
pub fn is_negative(x: f64) -> bool
    ensures { result ≡ negative x }
{
    x == x && SIGN_BIT <= f64::to_bits(x)
}

// The sign bit cleared.
pub fn abs(x: f64) -> f64
    ensures { result ≡ S.abs x }
{
    if x != x {
        return x;
    }
    f64::from_bits(f64::to_bits(x) % SIGN_BIT)
}

// 1 for a clear sign bit and -1 for a set one, so that the two zeros differ; a NaN stays one.
pub fn signum(x: f64) -> f64
    ensures { result ≡ S.signum x }
{
    if x != x {
        return x;
    }
    if is_negative(x) { -1.0 } else { 1.0 }
}
