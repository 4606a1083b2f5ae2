// The points that stay, in runs between those that go, and the new ones after them.
ghost use Rattle.std.specs.Prelude.{◌≡◌, map, ◌+◌, ◌*◌, ◌/◌, ◌≤◌, ◌<◌, length};
ghost use Rattle.big_endian.specs.Fields.{over};
ghost use Rattle.image.specs.Records.{point_size};
ghost use Rattle.image.specs.Encode.{encode_point};
ghost use Rattle.edit_plan.specs.Changes.{orphan_list, points_new};
ghost use Rattle.apply.specs.Clauses.{row_bytes, staying_rows, points_after};

use crate::runs::put_rows;
use big_endian::get4;
use edit_plan::{Change, Orphans};
use image::{POINT_SIZE, write_point};

// How many points stay.
pub(crate) fn count_staying(points: &[u8], os: Orphans) -> usize
    ensures { result ≡ length (staying_rows (orphan_list os) points.now) }
{
    let (rows, _) = points.as_chunks::<POINT_SIZE>();
    if os.is_empty() {
        return rows.len();
    }
    rows.iter().filter(|r| !os.contains(get4(*r, 0))).count()
}

// Writes the points that stay; answers the place after them.
pub(crate) fn write_staying(points: &[u8], os: Orphans, out: &mut [u8], at: usize) -> usize
    requires { at + length (staying_rows (orphan_list os) points.now) * point_size ≤ length out.old }
    ensures { (out.new ≡ over out.old at (row_bytes (staying_rows (orphan_list os) points.now))) × (result ≡ at + length (staying_rows (orphan_list os) points.now) * point_size) }
{
    let (rows, _) = points.as_chunks::<POINT_SIZE>();
    let n = rows.len();
    if os.is_empty() {
        return put_rows(points, POINT_SIZE, 0, n, out, at);
    }
    let mut from = 0;
    let mut to = at;
    for (i, r) in rows.iter().enumerate() {
        if !os.contains(get4(r, 0)) {
            continue;
        }
        to = put_rows(points, POINT_SIZE, from, i, out, to);
        from = i + 1;
    }
    put_rows(points, POINT_SIZE, from, n, out, to)
}

// How many points a change adds.
pub(crate) fn count_new_points(ch: Change) -> usize
    ensures { result ≡ length (points_new ch) }
{
    1 + usize::from(ch.second_point.is_some())
}

// Writes the points that a change adds.
fn write_new_points(ch: Change, out: &mut [u8], at: usize)
    requires { at + length (points_new ch) * point_size ≤ length out.old }
    ensures { out.new ≡ over out.old at (row_bytes (map encode_point (points_new ch))) }
{
    write_point(out, at, ch.point);
    if let Some(second) = ch.second_point {
        write_point(out, at + POINT_SIZE, second);
    }
}

// Writes all points of the new image.
pub(crate) fn write_points_after(points: &[u8], os: Orphans, ch: Change, out: &mut [u8], at: usize)
    requires { at + length (points_after (orphan_list os) ch points.now) * point_size ≤ length out.old }
    ensures { out.new ≡ over out.old at (row_bytes (points_after (orphan_list os) ch points.now)) }
{
    let to = write_staying(points, os, out, at);
    write_new_points(ch, out, to);
}
