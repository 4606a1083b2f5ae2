// The curve that a plan is for, as far as its relations are concerned.
ghost use Rattle.std.specs.Prelude.{◌≡◌};
ghost use Rattle.edit_plan.specs.Steps.{is_line};
ghost use Rattle.edit_plan.specs.Changes.{is_whole, extent_of};

use crate::pieces::{end_of, start_of};
use crate::{Extent, Plan};
use sketch::{CurveKind, Id};

fn is_line(kind: CurveKind) -> bool
    ensures { result ≡ is_line kind }
{
    matches!(kind, CurveKind::Line(_, _))
}

#[tactic(auto, unfolding(crate::specs::Changes::is_whole))]
pub(crate) fn is_whole(plan: Plan) -> bool
    ensures { result ≡ is_whole plan }
{
    matches!(plan, Plan::Whole)
}

pub fn extent_of(kind: CurveKind, id: Id, plan: Plan) -> Extent
    ensures { result ≡ extent_of kind id plan }
{
    Extent {
        id,
        line: is_line(kind),
        whole: is_whole(plan),
        from: start_of(kind),
        to: end_of(kind),
    }
}
