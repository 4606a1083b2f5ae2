// Runs of records copied.
ghost use Rattle.std.specs.Prelude.{◌≡◌, ◌≤◌, length};
ghost use Rattle.big_endian.specs.Fields.{over, over_if_fits};

// Copies all of `run` to the front of `out`, byte by byte: `copy_from_slice` would become a call of memmove, which hosts are not asked for.
fn copy_to_front(run: &[u8], out: &mut [u8])
    requires { length run.now ≤ length out.old }
    ensures { out.new ≡ over out.old 0 run.now }
{
    for i in 0..run.len() {
        out[i] = run[i];
    }
}

// Writes a run of bytes over those of `out` from a place on; nothing where it doesn't fit.
pub fn put_run(run: &[u8], out: &mut [u8], at: usize)
    ensures { out.new ≡ over_if_fits out.old at run.now }
{
    let n = run.len();
    if n <= out.len() && at <= out.len() - n {
        copy_to_front(run, &mut out[at..at + n]);
    }
}
