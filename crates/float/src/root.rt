// The square root of an f64, correctly rounded. A guess in floats is certified in whole numbers, and the digits are worked out where it fails.
ghost use Rattle.std.specs.Prelude.{◌≡◌, ◌+◌, ◌*◌, ◌/◌, ◌%◌, ◌^◌, ◌<◌, ◌≤◌};
ghost use Rattle.std.specs.Float.{binary64};
ghost use Rattle.std.specs.Float.Ieee.{of_bits};
ghost use Rattle.float.specs.Root.{closest_root};
ghost use Rattle.float.specs.Rooted.{Rooted};
ghost use Rattle.float.specs.Numbers.{√};

// A whole root, and what its square leaves.
#[derive(Clone, Copy)]
struct WholeRoot {
    whole: u64,
    left: u64,
}

// The root of m * 2^52, by its 53 binary digits, and the remainder.
fn digits(m: u64) -> WholeRoot
    requires { m < 2 ^ 54 }
    ensures { (result.whole * result.whole + result.left ≡ m * 2 ^ 52) × (result.left ≤ result.whole + result.whole) }
{
    let mut rest = m << 10;
    let mut whole: u64 = 0;
    let mut left: u64 = 0;
    for _digit in 0..53u32 {
        left = (left << 2) + (rest >> 62);
        rest = rest << 2;
        whole = whole << 1;
        if whole + whole < left {
            left = left - (whole + whole) - 1;
            whole = whole + 1;
        }
    }
    WholeRoot { whole, left }
}

// Heron's rule, twice, from the guess s at the root of 2 * half: the 53 digits of what it gives, less one. Nothing rests on how good that is.
fn heron(half: f64, s: f64) -> u64
    ensures { result < 2 ^ 53 }
{
    let a = 0.5 * s + half / s;
    let b = 0.5 * a + half / a;
    if b != b {
        return 0;
    }
    f64::to_bits(b) % 0x0010_0000_0000_0000 + 0x000f_ffff_ffff_ffff
}

// A guess at the root of m * 2^odd * 2^52, hardly ever off by more than one: by a cubic that fits the root from 1 to 2, and Heron's rule.
fn guess(m: u64, odd: u64) -> u64
    requires { (m < 2 ^ 53) × (odd < 2) }
    ensures { result < 2 ^ 53 }
{
    let x = f64::from_bits(0x3fe0_0000_0000_0000 + m);
    let half = f64::from_bits(0x3fd0_0000_0000_0000 + (odd << 52) + m);
    let low = 0.3699563895255328 + 0.7879232335393752 * x;
    let high = -0.1827476351191314 + 0.024937426666415876 * x;
    // 1, or the root of 2
    let stretch = f64::from_bits(0x3ff0_0000_0000_0000 + odd * 0x0006_a09e_667f_3bcd);
    heron(half, low * stretch + x * x * stretch * high)
}

// This number stands for no remainder: with an Option in its place the root took 2 to 3 percent longer.
const TOO_MUCH: u64 = 0xffff_ffff_ffff_ffff;

// What q * q leaves of n * 2^52, if that is not negative and not large. q is squared by its upper 26 and its lower 27 digits.
fn remainder(n: u64, q: u64) -> u64
    requires { (n < 2 ^ 54) × (q < 2 ^ 53) }
    ensures { result < 2 ^ 63 → q * q + result ≡ n * 2 ^ 52 }
{
    let h = q >> 27;
    let l = q % 0x0800_0000;
    let hh = h * h;
    let hl = h * l;
    let ll = l * l;
    if n < hh * 4 {
        return TOO_MUCH;
    }
    let c = n - hh * 4;
    if 0x3f_ffff_ffff < c {
        return TOO_MUCH;
    }
    if c * 0x0100_0000 < hl {
        return TOO_MUCH;
    }
    let d = c * 0x0100_0000 - hl;
    if 0x07_ffff_ffff < d {
        return TOO_MUCH;
    }
    if d * 0x1000_0000 < ll {
        return TOO_MUCH;
    }
    d * 0x1000_0000 - ll
}

// The root of m * 2^odd * 2^52, to the nearest whole number: the guess or one of the two after it, without a branch between the three.
fn nearest_root(m: u64, odd: u64) -> u64
    requires { (m < 2 ^ 53) × (odd < 2) }
    ensures { result ≡ closest_root (m * 2 ^ odd * 2 ^ 52) }
{
    let n = m << odd;
    let q = guess(m, odd);
    let e = remainder(n, q);
    if e <= 5 * q + 6 {
        return q + (q < e) as u64 + (3 * q + 2 < e) as u64;
    }
    let r = digits(n);
    r.whole + (r.whole < r.left) as u64
}

// The value m * 2^(g + 52), counted in units of 2^-2148, the square of the smallest value.
#[derive(Clone, Copy)]
struct Value {
    m: u64,
    g: u64,
}

// The value whose pattern is b, above 0 and finite, with an m of 53 digits: the pattern of its root is known from the root of m.
fn scaled(b: u64) -> Value
    requires { (0 < b) × (b < 0x7ff0_0000_0000_0000) }
    ensures { (2 ^ 52 ≤ result.m) × (result.m < 2 ^ 53) × (result.g ≤ 3067) × Rooted b result.m result.g }
{
    let e = b >> 52;
    let t = b % 0x0010_0000_0000_0000;
    if e == 0 {
        let s = (u64::leading_zeros(t) - 11) as u64;
        return Value {
            m: t << s,
            g: 1022 - s,
        };
    }
    Value {
        m: t + 0x0010_0000_0000_0000,
        g: e + 1021,
    }
}

// The pattern of the root of the value whose pattern is b, which is above 0 and finite.
fn root_bits(b: u64) -> u64
    requires { (0 < b) × (b < 0x7ff0_0000_0000_0000) }
    ensures { (result < 0x7ff0_0000_0000_0000) × (of_bits binary64 result ≡ √ (of_bits binary64 b)) }
{
    let v = scaled(b);
    ((v.g >> 1) << 52) + nearest_root(v.m, v.g % 2)
}

// The root of x, rounded once to nearest even. That of a zero is that zero, and that of a negative number is a NaN.
pub fn sqrt(x: f64) -> f64
    ensures { result ≡ √ x }
{
    if x != x {
        return x;
    }
    let b = f64::to_bits(x);
    if b == 0 {
        return x;
    }
    if b < 0x7ff0_0000_0000_0000 {
        return f64::from_bits(root_bits(b));
    }
    if x < 0.0 {
        return 0.0 / 0.0;
    }
    x
}
