// Runs of rows, and the size of an image.
ghost use Rattle.std.specs.Prelude.{◌≡◌, ◌+◌, ◌-◌, ◌*◌, ◌/◌, ◌≤◌, length, take, drop};
ghost use Rattle.big_endian.specs.Fields.{over};
ghost use Rattle.image.specs.Image.{size_of};
ghost use Rattle.rows.specs.Rows.{rows_in};
ghost use Rattle.apply.specs.Clauses.{row_bytes, CountsWithin};

use crate::TableCounts;
use image::{CURVE_SIZE, HEADER_SIZE, POINT_SIZE, RELATION_SIZE};
use rows::put_run;

// Writes the rows i up to j of a table; answers the place after them.
pub(crate) fn put_rows(
    table: &[u8],
    size: usize,
    i: usize,
    j: usize,
    out: &mut [u8],
    at: usize,
) -> usize
    requires { (i ≤ j) × (j ≤ length table.now / size) × (at + (j - i) * size ≤ length out.old) }
    ensures { (out.new ≡ over out.old at (row_bytes (take (j - i) (drop i (rows_in size table.now))))) × (result ≡ at + (j - i) * size) }
{
    let from = i * size;
    let end = j * size;
    put_run(&table[from..end], out, at);
    at + (end - from)
}

// The size of an image with so many records.
pub(crate) fn image_size(n: TableCounts) -> usize
    requires { CountsWithin n.points n.curves n.relations }
    ensures { result ≡ size_of n.points n.curves n.relations }
{
    HEADER_SIZE + n.points * POINT_SIZE + n.curves * CURVE_SIZE + n.relations * RELATION_SIZE
}
