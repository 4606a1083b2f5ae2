// The plan of a trim or a split, by geometry alone.
ghost use Rattle.std.specs.Prelude.{◌≡◌, cond, [], ◌∷◌};
ghost use Rattle.refusal.specs.Refusals.{Accepted, Refused, numbered};
ghost use Rattle.shape.specs.Measures.{point};
ghost use Rattle.edit_plan.specs.Changes.{is_circle};
ghost use Rattle.planning.specs.Planning.{param_of_pick, first_goes, at_end};

use cuts::Cut;
use edit_plan::Plan;
use geom::Vec2;
use refusal::Refusal;
use shape::Shape;
use sketch::CurveKind;

pub(crate) fn is_circle(kind: CurveKind) -> bool
    ensures { result ≡ is_circle kind }
{
    matches!(kind, CurveKind::Circle(_, _))
}

// Whether the first piece is removed where there is one cut.
pub(crate) fn first_of_one(sh: Shape, tq: f64, k: Cut) -> bool
    ensures { result ≡ first_goes sh tq (k ∷ []) }
{
    !sh.is_full() && !(k.t < tq)
}

// Whether the first piece is removed where there are two cuts.
pub(crate) fn first_of_two(sh: Shape, tq: f64, k: Cut, j: Cut) -> bool
    ensures { result ≡ first_goes sh tq (k ∷ j ∷ []) }
{
    if sh.is_full() {
        return (k.t < tq) & (tq < j.t);
    }
    !(k.t < tq) & !(j.t < tq)
}

// Where a curve with ends is split; next to an end it is not.
pub(crate) fn split_open(sh: Shape, at: Vec2) -> Result<Plan, Refusal>
    ensures { numbered result ≡ cond (at_end sh (param_of_pick sh at)) (Refused 12) (Accepted (Plan.Divide (point sh (param_of_pick sh at)))) }
{
    let t = sh.param(sh.project(at));
    let r = sh.range();
    if (t <= r.start + 1e-9) | (r.end - 1e-9 <= t) {
        return Err(Refusal::NoCut);
    }
    Ok(Plan::Divide(sh.point(t)))
}
