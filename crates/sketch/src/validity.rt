// The test of a sketch: the first rule that it breaks, as its image would be refused.
ghost use Rattle.std.specs.Prelude.{◌≡◌, map, ◌≤◌, length, drop, eqb};
ghost use Rattle.refusal.specs.Refusals.{refusal_number};
ghost use Rattle.sketch.specs.Lists.{every};
ghost use Rattle.sketch.specs.Lookup.{among, Ascends, sort_among};
ghost use Rattle.sketch.specs.Sorts.{sort_number};
ghost use Rattle.sketch.specs.Valid.{ok_point, ok_number, in_slots, ok_curve, ok_relation, distinct, fits, apart, sound_curve, sound_relation, sort_of, counts_fit, sketch_fault};
ghost use Rattle.sketch.specs.Drawing.{view, point_ids, uses_of, points_of};
ghost use Rattle.sketch.specs.Facts.{Sized};
ghost use Rattle.sketch.specs.Columns.{PointsChecked, CurvesChecked, RelationsChecked, shapes_fault};

use crate::lookup::{has, note, sort_at};
use crate::values::{coordinate_ok, measure_ok, radius_ok, rho_ok};
use crate::{Curve, CurveKind, Id, Point, Relation, RelationSlot, Sketch, Sort};
use refusal::Refusal;
use std::cmp::min;

// A point's values.
fn point_ok(p: Point) -> bool
    ensures { result ≡ ok_point p }
{
    coordinate_ok(p.x) && coordinate_ok(p.y)
}

// The first rule that the points break: where they break none `ids` holds their ids. `near` gets guesses of their places.
fn points_fault<'a>(
    points: &[Point],
    next: Id,
    ids: &'a mut [Id],
    near: &'a mut [u16],
) -> Result<(), Refusal>
    requires { length points.now ≤ length ids.old }
    ensures { PointsChecked next points.now (length points.now) ids.old ids.new (refusal_number result) }
{
    let mut last: Id = 0;
    for (i, p) in points.iter().enumerate() {
        if !point_ok(*p) {
            return Err(Refusal::BadValue);
        }
        if p.id <= last || next <= p.id {
            return Err(Refusal::BadId);
        }
        ids[i] = p.id;
        note(near, p.id, i);
        last = p.id;
    }
    Ok(())
}

// Whether the slots from a place on hold 0.
fn clear_from(slots: [Id; 8], from: usize) -> bool
    ensures { result ≡ every (λ i. eqb i 0) (drop from slots) }
{
    slots.iter().skip(from).all(|id| *id == 0)
}

// Whether all of some ids are among ids that rise.
fn all_in<'a>(ids: &'a [Id], near: &'a [u16], wanted: &[Id]) -> bool
    requires { Ascends ids.now }
    ensures { result ≡ every (λ p. among p ids.now) wanted.now }
{
    wanted.iter().all(|id| has(ids, near, *id))
}

// The sort of a curve, by its kind.
#[tactic(auto, unfolding(crate::specs::Valid::sort_of))]
fn sort_of(kind: CurveKind) -> Sort
    ensures { sort_number result ≡ sort_of kind }
{
    match kind {
        CurveKind::Line(_, _) => Sort::Line,
        CurveKind::Arc(_, _, _) | CurveKind::Circle(_, _) => Sort::Round,
        CurveKind::Bezier(_) | CurveKind::Conic(_, _, _, _) => Sort::Freeform,
    }
}

// A circle's radius, a Bézier curve's degree, a conic's rho.
#[tactic(auto, unfolding(crate::specs::Valid::ok_number))]
fn number_ok(kind: CurveKind) -> bool
    ensures { result ≡ ok_number kind }
{
    match kind {
        CurveKind::Line(_, _) | CurveKind::Arc(_, _, _) => true,
        CurveKind::Circle(_, r) => radius_ok(r),
        CurveKind::Bezier(n) => (1..=7).contains(&n),
        CurveKind::Conic(_, _, _, rho) => rho_ok(rho),
    }
}

// How many of the slots beside it a kind uses.
#[tactic(auto, unfolding(crate::specs::Valid::in_slots))]
fn slots_used(kind: CurveKind) -> usize
    ensures { result ≡ in_slots kind }
{
    match kind {
        CurveKind::Bezier(n) => n as usize + 1,
        _ => 0,
    }
}

// A curve's values.
fn curve_ok(c: Curve) -> bool
    ensures { result ≡ ok_curve c }
{
    (!c.infinite || sort_of(c.kind) == Sort::Line)
        && number_ok(c.kind)
        && clear_from(c.slots, slots_used(c.kind))
}

// Whether the points that a curve uses are there, given the ids of the points and guesses of their places.
#[tactic(auto, unfolding(crate::specs::Drawing::uses_of))]
fn uses_known<'a>(c: Curve, ids: &'a [Id], near: &'a [u16]) -> bool
    requires { Ascends ids.now }
    ensures { result ≡ every (λ p. among p ids.now) (uses_of c.kind c.slots) }
{
    match c.kind {
        CurveKind::Line(a, b) => all_in(ids, near, &[a, b]),
        CurveKind::Arc(o, a, b) => all_in(ids, near, &[o, a, b]),
        CurveKind::Circle(o, _) => all_in(ids, near, &[o]),
        CurveKind::Bezier(n) => all_in(ids, near, &c.slots[..min(n as usize + 1, 8)]),
        CurveKind::Conic(a, p, b, _) => all_in(ids, near, &[a, p, b]),
    }
}

// Whether a line's two points differ, or an arc's three.
#[tactic(auto, unfolding(crate::specs::Valid::distinct))]
fn distinct(kind: CurveKind) -> bool
    ensures { result ≡ distinct kind }
{
    match kind {
        CurveKind::Line(a, b) => a != b,
        CurveKind::Arc(o, a, b) => o != a && o != b && a != b,
        _ => true,
    }
}

// A curve's references.
fn curve_sound<'a>(c: Curve, ids: &'a [Id], near: &'a [u16]) -> bool
    requires { Ascends ids.now }
    ensures { result ≡ sound_curve (λ p. among p ids.now) c }
{
    uses_known(c, ids, near) && distinct(c.kind)
}

// The first rule that the curves break: where they break none `ids` and `sorts` hold theirs. `near` gets guesses of their
// places, as `near_points` has of the points'.
fn curves_fault<'a, 'b>(
    curves: &[Curve],
    next: Id,
    points: &'a [Id],
    near_points: &'a [u16],
    ids: &'b mut [Id],
    sorts: &'b mut [Sort],
    near: &'b mut [u16],
) -> Result<(), Refusal>
    requires { (length curves.now ≤ length ids.old) × (length curves.now ≤ length sorts.old) × Ascends points.now }
    ensures { CurvesChecked next points.now curves.now (length curves.now) ids.old (map sort_number sorts.old) ids.new (map sort_number sorts.new) (refusal_number result) }
{
    let mut last: Id = 0;
    for (i, c) in curves.iter().enumerate() {
        if !curve_ok(*c) {
            return Err(Refusal::BadValue);
        }
        if c.id <= last || next <= c.id || !curve_sound(*c, points, near_points) {
            return Err(Refusal::BadId);
        }
        ids[i] = c.id;
        sorts[i] = sort_of(c.kind);
        note(near, c.id, i);
        last = c.id;
    }
    Ok(())
}

// What a relation measures.
#[tactic(auto, unfolding(crate::specs::Valid::ok_relation))]
fn relation_ok(r: Relation) -> bool
    ensures { result ≡ ok_relation r }
{
    match r {
        Relation::Length(_, v)
        | Relation::Distance(_, _, v)
        | Relation::ArcLength(_, v)
        | Relation::ArcSweep(_, v) => measure_ok(v),
        _ => true,
    }
}

// Whether the points that a relation names are there, given the ids of the points and guesses of their places.
#[tactic(auto, unfolding(crate::specs::Drawing::points_of))]
fn points_known<'a>(r: Relation, ids: &'a [Id], near: &'a [u16]) -> bool
    requires { Ascends ids.now }
    ensures { result ≡ every (λ p. among p ids.now) (points_of r) }
{
    match r {
        Relation::Coincident(p, q) | Relation::Distance(p, q, _) => all_in(ids, near, &[p, q]),
        Relation::PointOnCurve(p, _) | Relation::Midpoint(p, _) => all_in(ids, near, &[p]),
        _ => true,
    }
}

// Whether the curves that a relation names are of its sorts, given the ids and sorts of the curves and guesses of their places.
#[tactic(auto, using(crate::proofs::Sorts::some_sort, crate::proofs::Sorts::same_line, crate::proofs::Sorts::same_round), unfolding(crate::specs::Valid::fits))]
fn sorts_fit<'a>(r: Relation, ids: &'a [Id], near: &'a [u16], sorts: &'a [Sort]) -> bool
    requires { (length ids.now ≡ length sorts.now) × Ascends ids.now }
    ensures { result ≡ fits (λ i. sort_among i ids.now (map sort_number sorts.now)) r }
{
    match r {
        Relation::Coincident(_, _) | Relation::Distance(_, _, _) => true,
        Relation::PointOnCurve(_, c) => sort_at(ids, near, sorts, c).is_some(),
        Relation::Collinear(a, b) => {
            sort_at(ids, near, sorts, a) == Some(Sort::Line)
                && sort_at(ids, near, sorts, b) == Some(Sort::Line)
        }
        Relation::Equal(a, b) => matches!(
            (sort_at(ids, near, sorts, a), sort_at(ids, near, sorts, b)),
            (Some(Sort::Line), Some(Sort::Line)) | (Some(Sort::Round), Some(Sort::Round))
        ),
        Relation::Length(l, _) | Relation::Midpoint(_, l) => {
            sort_at(ids, near, sorts, l) == Some(Sort::Line)
        }
        Relation::ArcLength(c, _) | Relation::ArcSweep(c, _) => {
            sort_at(ids, near, sorts, c) == Some(Sort::Round)
        }
    }
}

// Whether two ids of one sort that a relation names differ.
#[tactic(auto, unfolding(crate::specs::Valid::apart))]
fn apart(r: Relation) -> bool
    ensures { result ≡ apart r }
{
    match r {
        Relation::Coincident(a, b)
        | Relation::Collinear(a, b)
        | Relation::Equal(a, b)
        | Relation::Distance(a, b, _) => a != b,
        _ => true,
    }
}

// A relation's references.
fn relation_sound<'a>(
    r: Relation,
    points: &'a [Id],
    near_points: &'a [u16],
    curves: &'a [Id],
    near_curves: &'a [u16],
    sorts: &'a [Sort],
) -> bool
    requires { (length curves.now ≡ length sorts.now) × Ascends points.now × Ascends curves.now }
    ensures { result ≡ sound_relation (λ p. among p points.now) (λ i. sort_among i curves.now (map sort_number sorts.now)) r }
{
    points_known(r, points, near_points) && sorts_fit(r, curves, near_curves, sorts) && apart(r)
}

// The first rule that the relations break.
fn relations_fault<'a>(
    relations: &[RelationSlot],
    points: &'a [Id],
    near_points: &'a [u16],
    curves: &'a [Id],
    near_curves: &'a [u16],
    sorts: &'a [Sort],
) -> Result<(), Refusal>
    requires { (length curves.now ≡ length sorts.now) × Ascends points.now × Ascends curves.now }
    ensures { RelationsChecked points.now curves.now (map sort_number sorts.now) (map (λ s. s.relation) relations.now) (refusal_number result) }
{
    for slot in relations {
        if !relation_ok(slot.relation) {
            return Err(Refusal::BadValue);
        }
        if !relation_sound(
            slot.relation,
            points,
            near_points,
            curves,
            near_curves,
            sorts,
        ) {
            return Err(Refusal::BadId);
        }
    }
    Ok(())
}

// The first rule that the curves and relations break, given the ids of the points.
fn shapes_fault<'a>(sk: &Sketch, points: &'a [Id], near_points: &'a [u16]) -> Result<(), Refusal>
    requires { Sized sk.now × Ascends points.now × (points.now ≡ point_ids (view sk.now).points) }
    ensures { refusal_number result ≡ shapes_fault (view sk.now) }
{
    let curves = &sk.curves[..sk.ncurves];
    let mut ids: [Id; 128] = [0; 128];
    let mut sorts = [Sort::Line; 128];
    let mut near = [0u16; 1024];
    curves_fault(
        curves,
        sk.next,
        points,
        near_points,
        &mut ids,
        &mut sorts,
        &mut near,
    )?;
    relations_fault(
        &sk.relations[..sk.nrelations],
        points,
        near_points,
        &ids[..curves.len()],
        &near,
        &sorts[..curves.len()],
    )
}

// Whether a sketch's counts are within its tables.
fn counts_fit(sk: &Sketch) -> bool
    ensures { result ≡ counts_fit sk.now }
{
    sk.npoints <= 512 && sk.ncurves <= 128 && sk.nrelations <= 256
}

// Whether an image gives a sketch, or how its image would be refused. The sketch is lent, since a copy of it takes as long as a small one's test.
pub fn sketch_fault(sk: &Sketch) -> Result<(), Refusal>
    ensures { refusal_number result ≡ sketch_fault sk.now }
{
    if !counts_fit(sk) {
        return Err(Refusal::BadCount);
    }
    if sk.next < 1 {
        return Err(Refusal::BadValue);
    }
    let points = &sk.points[..sk.npoints];
    let mut ids: [Id; 512] = [0; 512];
    let mut near = [0u16; 1024];
    points_fault(points, sk.next, &mut ids, &mut near)?;
    shapes_fault(sk, &ids[..points.len()], &near)
}

// The same of a sketch that is handed over.
pub fn fault(sk: Sketch) -> Result<(), Refusal>
    ensures { refusal_number result ≡ sketch_fault sk }
{
    sketch_fault(&sk)
}
