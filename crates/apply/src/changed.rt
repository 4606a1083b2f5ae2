// The image with a curve cut or divided.
ghost use Rattle.std.specs.Prelude.{◌≡◌, ◌<◌, ◌/◌, length};
ghost use Rattle.image.specs.Records.{curve_size};
ghost use Rattle.edit_plan.specs.Changes.{orphan_list};
ghost use Rattle.apply.specs.Answers.{answer_of};
ghost use Rattle.apply.specs.Applied.{Answered};
ghost use Rattle.apply.specs.Clauses.{points_after, curves_after, relations_after, rows_image, EightSlots, CountsWithin, mk_table_counts};

use crate::curves::{count_new_curves, write_curves_after};
use crate::limits::Limited;
use crate::points::{count_new_points, count_staying, write_points_after};
use crate::relation_rows::{count_left, count_new_relations, write_relations_after};
use crate::runs::image_size;
use crate::{Applied, TableCounts};
use edit_plan::{Change, Extent, Orphans};
use image::{CURVE_SIZE, HEADER_SIZE, POINT_SIZE, write_header};
use refusal::Refusal;

// How many records the image has once a change is made.
fn counts_changed<'a>(t: &Limited<'a>, k: usize, e: Extent, os: Orphans, ch: Change) -> TableCounts
    requires { (k < length t.now.curves.now / curve_size) }
    ensures { result ≡ mk_table_counts (length (points_after (orphan_list os) ch t.now.points.now)) (length (curves_after k ch t.now.curves.now)) (length (relations_after e (orphan_list os) ch t.now.relations.now)) }
{
    TableCounts {
        points: count_staying(t.points, os) + count_new_points(ch),
        curves: t.curves.len() / CURVE_SIZE + count_new_curves(ch),
        relations: count_left(t.relations, e, os) + count_new_relations(ch),
    }
}

// Writes the image with the curve at place k changed, where it fits.
pub(crate) fn write_changed<'a>(
    t: &Limited<'a>,
    k: usize,
    e: Extent,
    os: Orphans,
    ch: Change,
    out: &mut [u8],
) -> Result<Applied, Refusal>
    requires { (k < length t.now.curves.now / curve_size) × EightSlots ch × CountsWithin (length (points_after (orphan_list os) ch t.now.points.now)) (length (curves_after k ch t.now.curves.now)) (length (relations_after e (orphan_list os) ch t.now.relations.now)) }
    ensures { Answered 0 (rows_image ch.next (points_after (orphan_list os) ch t.now.points.now) (curves_after k ch t.now.curves.now) (relations_after e (orphan_list os) ch t.now.relations.now)) ch.removed out.old out.new (answer_of result) }
{
    let n = counts_changed(t, k, e, os, ch);
    let size = image_size(n);
    if out.len() < size {
        return Err(Refusal::ShortBuffer);
    }
    let from = HEADER_SIZE + n.points * POINT_SIZE;
    write_header(out, ch.next, n.points, n.curves, n.relations);
    write_points_after(t.points, os, ch, out, HEADER_SIZE);
    write_curves_after(t.curves, k, ch, out, from);
    write_relations_after(t.relations, e, os, ch, out, from + n.curves * CURVE_SIZE);
    Ok(Applied {
        removed: ch.removed,
        size,
    })
}
