// The relations that are left, in runs between those that name the curve or a point that goes, and the new ones after them.
ghost use Rattle.std.specs.Prelude.{◌≡◌, map, ◌+◌, ◌*◌, ◌/◌, ◌≤◌, ◌<◌, length, ltb, option_to_list};
ghost use Rattle.big_endian.specs.Fields.{over};
ghost use Rattle.image.specs.Records.{relation_size};
ghost use Rattle.image.specs.Decode.{read_relation};
ghost use Rattle.image.specs.Encode.{encode_relation};
ghost use Rattle.edit_plan.specs.Changes.{orphan_list, left_of, relations_new};
ghost use Rattle.apply.specs.Clauses.{row_bytes, concerned, left_row, left_rows, relations_after};

use crate::runs::put_rows;
use big_endian::get4;
use edit_plan::{Change, Extent, Orphans, left_of};
use image::layout::{FIRST_ID_AT, SECOND_ID_AT};
use image::{RELATION_SIZE, read_relation, write_relation};
use sketch::Relation;

// Whether a relation's row names the curve, or a point that goes: then it needs a look.
fn is_concerned(r: &[u8], e: Extent, os: Orphans) -> bool
    ensures { result ≡ concerned e (orphan_list os) r.now }
{
    let a = get4(r, FIRST_ID_AT);
    let b = get4(r, SECOND_ID_AT);
    let named = (a == e.id) | (b == e.id);
    if os.is_empty() {
        return named;
    }
    named | os.contains(a) | os.contains(b)
}

// Whether anything is left of a relation's row.
fn is_left(r: &[u8], e: Extent, os: Orphans) -> bool
    ensures { result ≡ ltb 0 (length (left_row e (orphan_list os) r.now)) }
{
    !is_concerned(r, e, os) || left_of(read_relation(r), e, os).is_some()
}

// How many relations are left.
pub(crate) fn count_left(relations: &[u8], e: Extent, os: Orphans) -> usize
    ensures { result ≡ length (left_rows e (orphan_list os) relations.now) }
{
    let (rows, _) = relations.as_chunks::<RELATION_SIZE>();
    rows.iter().filter(|r| is_left(*r, e, os)).count()
}

// Writes a relation, where there is one; answers the place after it.
fn write_if_some(relation: Option<Relation>, out: &mut [u8], at: usize) -> usize
    requires { at + length (option_to_list relation) * relation_size ≤ length out.old }
    ensures { (out.new ≡ over out.old at (row_bytes (map encode_relation (option_to_list relation)))) × (result ≡ at + length (option_to_list relation) * relation_size) }
{
    let Some(r) = relation else {
        return at;
    };
    write_relation(out, at, r);
    at + RELATION_SIZE
}

// Writes what is left of a relation's row that needs a look; answers the place after it.
fn write_kept(r: &[u8], e: Extent, os: Orphans, out: &mut [u8], at: usize) -> usize
    requires { at + length (left_of e (orphan_list os) (read_relation r.now)) * relation_size ≤ length out.old }
    ensures { (out.new ≡ over out.old at (row_bytes (map encode_relation (left_of e (orphan_list os) (read_relation r.now))))) × (result ≡ at + length (left_of e (orphan_list os) (read_relation r.now)) * relation_size) }
{
    write_if_some(left_of(read_relation(r), e, os), out, at)
}

// Writes the relations that are left; answers the place after them.
pub(crate) fn write_left(
    relations: &[u8],
    e: Extent,
    os: Orphans,
    out: &mut [u8],
    at: usize,
) -> usize
    requires { at + length (left_rows e (orphan_list os) relations.now) * relation_size ≤ length out.old }
    ensures { (out.new ≡ over out.old at (row_bytes (left_rows e (orphan_list os) relations.now))) × (result ≡ at + length (left_rows e (orphan_list os) relations.now) * relation_size) }
{
    let (rows, _) = relations.as_chunks::<RELATION_SIZE>();
    let mut from = 0;
    let mut to = at;
    for (i, r) in rows.iter().enumerate() {
        if !is_concerned(r, e, os) {
            continue;
        }
        to = put_rows(relations, RELATION_SIZE, from, i, out, to);
        to = write_kept(r, e, os, out, to);
        from = i + 1;
    }
    put_rows(relations, RELATION_SIZE, from, rows.len(), out, to)
}

// How many relations a change adds.
pub(crate) fn count_new_relations(ch: Change) -> usize
    ensures { result ≡ length (relations_new ch) }
{
    1 + usize::from(ch.second_relation.is_some()) + usize::from(ch.third_relation.is_some())
}

// Writes the relations that a change adds.
fn write_new_relations(ch: Change, out: &mut [u8], at: usize)
    requires { at + length (relations_new ch) * relation_size ≤ length out.old }
    ensures { out.new ≡ over out.old at (row_bytes (map encode_relation (relations_new ch))) }
{
    write_relation(out, at, ch.relation);
    let to = write_if_some(ch.second_relation, out, at + RELATION_SIZE);
    write_if_some(ch.third_relation, out, to);
}

// Writes all relations of the new image.
pub(crate) fn write_relations_after(
    relations: &[u8],
    e: Extent,
    os: Orphans,
    ch: Change,
    out: &mut [u8],
    at: usize,
)
    requires { at + length (relations_after e (orphan_list os) ch relations.now) * relation_size ≤ length out.old }
    ensures { out.new ≡ over out.old at (row_bytes (relations_after e (orphan_list os) ch relations.now)) }
{
    let to = write_left(relations, e, os, out, at);
    write_new_relations(ch, out, to);
}
