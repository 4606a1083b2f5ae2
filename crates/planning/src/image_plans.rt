// The plan of a trim or a split, from an image's records, by geometry alone.
ghost use Rattle.refusal.specs.Refusals.{numbered};
ghost use Rattle.planning.specs.ImagePlans.{TrimIn, SplitIn};
ghost use Rattle.planning.specs.ImageContracts.{FreeformIn, PinnedPointIn, TrimPlanIn, TrimsIn, SplitFullIn, SplitsIn};

use crate::image_pins::pin_at;
use crate::planning::{first_of_one, first_of_two, is_circle, split_open};
use cuts::image_cuts::bracket;
use cuts::{Cut, Neighbours};
use edit_plan::{PinnedPoint, Plan};
use geom::Vec2;
use image::read_freeform;
use refusal::Refusal;
use rows::{Tables, curve_at, curve_count, curve_record};
use shape::Shape;
use sketch::{Curve, CurveKind, Id};
use sketch_geometry::positions::shape_of;

// Whether one of the curves is a Bézier curve or a conic.
fn has_freeform(t: &Tables) -> bool
    ensures { FreeformIn t.now.image.now result }
{
    for i in 0..curve_count(t.curves) {
        if read_freeform(curve_record(t.curves, i)) {
            return true;
        }
    }
    false
}

// The point of a cut, and the new end's pin.
fn pinned_point_of(sh: Shape, k: Cut, t: &Tables) -> PinnedPoint
    ensures { PinnedPointIn t.now.image.now sh k result }
{
    let q = sh.point(k.t);
    PinnedPoint {
        at: q,
        pin: pin_at(q, k.by, t),
    }
}

fn trim_plan(sh: Shape, id: Id, at: Vec2, t: &Tables) -> Plan
    ensures { TrimPlanIn t.now.image.now id sh at result }
{
    let tq = sh.param(sh.project(at));
    match bracket(sh, tq, id, t) {
        Neighbours::Zero => Plan::Whole,
        Neighbours::One(k) => {
            let p = pinned_point_of(sh, k, t);
            Plan::Cut(p, first_of_one(sh, tq, k))
        }
        Neighbours::Two(k, j) => {
            let p = pinned_point_of(sh, k, t);
            let q = pinned_point_of(sh, j, t);
            Plan::CutTwo(p, q, first_of_two(sh, tq, k, j))
        }
    }
}

fn trim_curve(c: Curve, at: Vec2, t: &Tables) -> Result<Plan, Refusal>
    ensures { TrimsIn t.now.image.now c at (numbered result) }
{
    let Some(sh) = shape_of(c.kind, t.points, t.near) else {
        return Err(Refusal::WrongKind);
    };
    if c.infinite | (sh.is_full() & !is_circle(c.kind)) {
        return Err(Refusal::WrongKind);
    }
    if has_freeform(t) {
        return Err(Refusal::FreeformNear);
    }
    Ok(trim_plan(sh, c.id, at, t))
}

fn split_full(sh: Shape, id: Id, at: Vec2, t: &Tables) -> Result<Plan, Refusal>
    ensures { SplitFullIn t.now.image.now id sh at (numbered result) }
{
    let tq = sh.param(sh.project(at));
    let Neighbours::Two(k, j) = bracket(sh, tq, id, t) else {
        return Err(Refusal::NoCut);
    };
    Ok(Plan::DivideTwo(sh.point(k.t), sh.point(j.t)))
}

// Only a circle's cuts depend on the other curves.
fn split_curve(c: Curve, at: Vec2, t: &Tables) -> Result<Plan, Refusal>
    ensures { SplitsIn t.now.image.now c at (numbered result) }
{
    let Some(sh) = shape_of(c.kind, t.points, t.near) else {
        return Err(Refusal::WrongKind);
    };
    if !is_circle(c.kind) {
        if sh.is_full() {
            return Err(Refusal::WrongKind);
        }
        return split_open(sh, at);
    }
    if has_freeform(t) {
        return Err(Refusal::FreeformNear);
    }
    split_full(sh, c.id, at, t)
}

// The plan of a trim of the curve at a place, picked at a point.
pub fn plan_trim(t: &Tables, place: usize, at: Vec2) -> Result<Plan, Refusal>
    ensures { TrimIn t.now.image.now place at (numbered result) }
{
    if place >= curve_count(t.curves) {
        return Err(Refusal::NoCurve);
    }
    trim_curve(curve_at(t.curves, place), at, t)
}

// The plan of a split, likewise.
pub fn plan_split(t: &Tables, place: usize, at: Vec2) -> Result<Plan, Refusal>
    ensures { SplitIn t.now.image.now place at (numbered result) }
{
    if place >= curve_count(t.curves) {
        return Err(Refusal::NoCurve);
    }
    split_curve(curve_at(t.curves, place), at, t)
}
