// Big-endian numbers in byte slices. A read of bytes that are all there compiles to one load, and a write to one store.
#![tactic(auto)]

ghost use Rattle.std.specs.Prelude.{◌≡◌, ℕ, ◌+◌, ◌<◌, ◌≤◌, length, get_or};
ghost use Rattle.big_endian.specs.Fields.{field, bytes, over_if_fits};

// The bytes that are left, and zeros behind them. It stands apart from `bytes_at`, so that this stays small.
fn with_zeros<const N: usize>(rest: &[u8]) -> [u8; N]
    requires { length rest.now < N }
    ensures { (k : ℕ) → k < N → get_or result k 0 ≡ get_or rest.now k 0 }
{
    let mut bytes = [0; N];
    bytes[..rest.len()].copy_from_slice(rest);
    bytes
}

// The N bytes at a place; those past the end count as 0.
fn bytes_at<const N: usize>(s: &[u8], at: usize) -> [u8; N]
    ensures { (k : ℕ) → k < N → get_or result k 0 ≡ get_or s.now (at + k) 0 }
{
    let rest = s.get(at..).unwrap_or(&[]);
    match rest.split_first_chunk() {
        Some((bytes, _)) => *bytes,
        None => with_zeros(rest),
    }
}

// The byte at a place; 0 past the end.
pub fn get1(s: &[u8], at: usize) -> u8
    ensures { result ≡ field s.now at 1 }
{
    s.get(at).copied().unwrap_or(0)
}

// The big-endian value of two bytes; bytes past the end count as 0.
pub fn get2(s: &[u8], at: usize) -> u16
    ensures { result ≡ field s.now at 2 }
{
    u16::from_be_bytes(bytes_at(s, at))
}

// The big-endian value of four bytes; bytes past the end count as 0.
pub fn get4(s: &[u8], at: usize) -> u32
    ensures { result ≡ field s.now at 4 }
{
    u32::from_be_bytes(bytes_at(s, at))
}

// The big-endian value of eight bytes; bytes past the end count as 0.
pub fn get8(s: &[u8], at: usize) -> u64
    ensures { result ≡ field s.now at 8 }
{
    u64::from_be_bytes(bytes_at(s, at))
}

// Writes bytes over those from a place on; nothing where they don't fit.
pub fn put_bytes(buf: &mut [u8], at: usize, bytes: &[u8])
    ensures { buf.new ≡ over_if_fits buf.old at bytes.now }
{
    let n = bytes.len();
    if n <= buf.len() && at <= buf.len() - n {
        buf[at..at + n].copy_from_slice(bytes);
    }
}

// Writes the n low bytes of a number, the highest first; nothing where they don't fit.
fn put(buf: &mut [u8], at: usize, n: usize, v: u64)
    requires { n ≤ 8 }
    ensures { buf.new ≡ over_if_fits buf.old at (bytes n v) }
{
    put_bytes(buf, at, &v.to_be_bytes()[8 - n..]);
}

// Writes the low byte of a number; nothing past the end.
pub fn put1(buf: &mut [u8], at: usize, v: u64)
    ensures { buf.new ≡ over_if_fits buf.old at (bytes 1 v) }
{
    put(buf, at, 1, v);
}

// Writes the two low bytes of a number, the higher first; nothing where they don't fit.
pub fn put2(buf: &mut [u8], at: usize, v: u64)
    ensures { buf.new ≡ over_if_fits buf.old at (bytes 2 v) }
{
    put(buf, at, 2, v);
}

// Writes the four low bytes of a number, the highest first; nothing where they don't fit.
pub fn put4(buf: &mut [u8], at: usize, v: u64)
    ensures { buf.new ≡ over_if_fits buf.old at (bytes 4 v) }
{
    put(buf, at, 4, v);
}

// Writes the eight bytes of a number, the highest first; nothing where they don't fit.
pub fn put8(buf: &mut [u8], at: usize, v: u64)
    ensures { buf.new ≡ over_if_fits buf.old at (bytes 8 v) }
{
    put(buf, at, 8, v);
}
