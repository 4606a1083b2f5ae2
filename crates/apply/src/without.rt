// The image without a curve.
ghost use Rattle.std.specs.Prelude.{◌≡◌, ◌<◌, ◌/◌, length};
ghost use Rattle.image.specs.Records.{curve_size};
ghost use Rattle.edit_plan.specs.Changes.{orphan_list, whole_gone};
ghost use Rattle.apply.specs.Answers.{answer_of};
ghost use Rattle.apply.specs.Applied.{Answered};
ghost use Rattle.apply.specs.Clauses.{staying_rows, curves_without, left_rows, rows_image, mk_table_counts};

use crate::curves::write_curves_without;
use crate::limits::Limited;
use crate::points::{count_staying, write_staying};
use crate::relation_rows::{count_left, write_left};
use crate::runs::image_size;
use crate::{Applied, TableCounts};
use edit_plan::{Extent, Orphans, Removed};
use image::{CURVE_SIZE, HEADER_SIZE, write_header};
use refusal::Refusal;

// How many records the image has without the curve at place k.
fn counts_without<'a>(t: &Limited<'a>, k: usize, e: Extent, os: Orphans) -> TableCounts
    requires { (k < length t.now.curves.now / curve_size) }
    ensures { result ≡ mk_table_counts (length (staying_rows (orphan_list os) t.now.points.now)) (length (curves_without k t.now.curves.now)) (length (left_rows e (orphan_list os) t.now.relations.now)) }
{
    TableCounts {
        points: count_staying(t.points, os),
        curves: t.curves.len() / CURVE_SIZE - 1,
        relations: count_left(t.relations, e, os),
    }
}

// Writes the image without the curve at place k, where it fits.
pub(crate) fn write_without<'a>(
    t: &Limited<'a>,
    k: usize,
    e: Extent,
    os: Orphans,
    out: &mut [u8],
) -> Result<Applied, Refusal>
    requires { (k < length t.now.curves.now / curve_size) }
    ensures { Answered 0 (rows_image t.now.next (staying_rows (orphan_list os) t.now.points.now) (curves_without k t.now.curves.now) (left_rows e (orphan_list os) t.now.relations.now)) (whole_gone e) out.old out.new (answer_of result) }
{
    let n = counts_without(t, k, e, os);
    let size = image_size(n);
    if out.len() < size {
        return Err(Refusal::ShortBuffer);
    }
    write_header(out, t.next, n.points, n.curves, n.relations);
    let from = write_staying(t.points, os, out, HEADER_SIZE);
    write_curves_without(t.curves, k, out, from);
    write_left(t.relations, e, os, out, from + n.curves * CURVE_SIZE);
    Ok(Applied {
        removed: Removed {
            curve: e.id,
            from: e.from,
            to: e.to,
        },
        size,
    })
}
