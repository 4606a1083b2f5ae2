// The curves, one of them rewritten or left out.
ghost use Rattle.std.specs.Prelude.{◌≡◌, ◌+◌, ◌*◌, ◌/◌, ◌≤◌, ◌<◌, length};
ghost use Rattle.big_endian.specs.Fields.{over};
ghost use Rattle.image.specs.Records.{curve_size};
ghost use Rattle.edit_plan.specs.Changes.{curves_new};
ghost use Rattle.apply.specs.Clauses.{row_bytes, curves_after, curves_without, EightSlots};

use crate::runs::put_rows;
use edit_plan::Change;
use image::{CURVE_SIZE, write_curve};

// How many curves a change adds.
pub(crate) fn count_new_curves(ch: Change) -> usize
    ensures { result ≡ length (curves_new ch) }
{
    usize::from(ch.added.is_some())
}

// Writes all curves of the new image: that at place k as the change has it, and the one that it adds.
pub(crate) fn write_curves_after(curves: &[u8], k: usize, ch: Change, out: &mut [u8], at: usize)
    requires { (k < length curves.now / curve_size) × (at + length (curves_after k ch curves.now) * curve_size ≤ length out.old) × EightSlots ch }
    ensures { out.new ≡ over out.old at (row_bytes (curves_after k ch curves.now)) }
{
    let n = curves.len() / CURVE_SIZE;
    let a = put_rows(curves, CURVE_SIZE, 0, k, out, at);
    write_curve(out, a, ch.kept);
    let b = put_rows(curves, CURVE_SIZE, k + 1, n, out, a + CURVE_SIZE);
    if let Some(added) = ch.added {
        write_curve(out, b, added);
    }
}

// Writes all curves but the one at place k.
pub(crate) fn write_curves_without(curves: &[u8], k: usize, out: &mut [u8], at: usize)
    requires { (k < length curves.now / curve_size) × (at + length (curves_without k curves.now) * curve_size ≤ length out.old) }
    ensures { out.new ≡ over out.old at (row_bytes (curves_without k curves.now)) }
{
    let n = curves.len() / CURVE_SIZE;
    let a = put_rows(curves, CURVE_SIZE, 0, k, out, at);
    put_rows(curves, CURVE_SIZE, k + 1, n, out, a);
}
