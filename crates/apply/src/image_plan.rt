// A plan applied to an image.
ghost use Rattle.std.specs.Prelude.{◌≡◌, ◌<◌, ◌/◌, length};
ghost use Rattle.image.specs.Records.{curve_size};
ghost use Rattle.apply.specs.Answers.{answer_of};
ghost use Rattle.apply.specs.Applied.{target_in, plan_refusal, PlanWritten};
ghost use Rattle.apply.specs.Clauses.{drawing_read, RowsApplied};

use crate::Applied;
use crate::changed::write_changed;
use crate::limits::Limited;
use crate::refusals::refusal_in;
use crate::unused_points::orphans_in;
use crate::without::write_without;
use edit_plan::{Plan, extent_of, plan_change};
use image::CURVE_SIZE;
use refusal::Refusal;
use rows::{Tables, curve_at};
use sketch::Curve;

// The plan for the curve c at place k applied to tables, where nothing refuses it but a short buffer.
fn write_plan<'a>(
    t: &Limited<'a>,
    c: Curve,
    k: usize,
    plan: Plan,
    out: &mut [u8],
) -> Result<Applied, Refusal>
    requires { (k < length t.now.curves.now / curve_size) × (c ≡ target_in (drawing_read t.now.next t.now.points.now t.now.curves.now t.now.relations.now) k) × (plan_refusal (drawing_read t.now.next t.now.points.now t.now.curves.now t.now.relations.now) k plan ≡ 0) }
    ensures { RowsApplied t.now.next t.now.points.now t.now.curves.now t.now.relations.now k plan out.old out.new (answer_of result) }
{
    let e = extent_of(c.kind, c.id, plan);
    let os = orphans_in(t.curves, c, plan);
    if e.whole {
        return write_without(t, k, e, os, out);
    }
    let ch = plan_change(c, plan, t.next);
    write_changed(t, k, e, os, ch, out)
}

// The plan for the curve at place k applied to tables.
fn apply_to<'a>(t: &Limited<'a>, k: usize, plan: Plan, out: &mut [u8]) -> Result<Applied, Refusal>
    ensures { RowsApplied t.now.next t.now.points.now t.now.curves.now t.now.relations.now k plan out.old out.new (answer_of result) }
{
    if t.curves.len() / CURVE_SIZE <= k {
        return Err(Refusal::NoCurve);
    }
    let c = curve_at(t.curves, k);
    refusal_in(t, c, plan)?;
    write_plan(t, c, k, plan, out)
}

// The plan for the curve at place k of an image. All refusals are decided before a byte is written.
pub fn apply_plan<'a>(
    t: &Tables<'a>,
    k: usize,
    plan: Plan,
    out: &mut [u8],
) -> Result<Applied, Refusal>
    ensures { PlanWritten t.now.image.now k plan out.old out.new (answer_of result) }
{
    let tables = Limited::of(t)?;
    apply_to(&tables, k, plan, out)
}
