// Which points go with a curve of an image, or with a piece of it.
ghost use Rattle.std.specs.Prelude.{◌≡◌};
ghost use Rattle.edit_plan.specs.Tables.{others};
ghost use Rattle.edit_plan.specs.Changes.{candidates_for, orphan_list, unused_by};
ghost use Rattle.rows.specs.Rows.{curves_in};

use edit_plan::{Orphans, Plan, candidates_of};
use image::CURVE_SIZE;
use rows::curve_at;
use sketch::{Curve, Id};

// The points that may go, without those that a curve other than g uses.
fn unused_in(curves: &[u8], g: Id, os: Orphans) -> Orphans
    ensures { orphan_list result ≡ unused_by (others g (curves_in curves.now)) (orphan_list os) }
{
    let mut unused = os;
    for i in 0..curves.len() / CURVE_SIZE {
        if unused.is_empty() {
            return unused;
        }
        let c = curve_at(curves, i);
        if g != c.id {
            unused = unused.unless_used(c);
        }
    }
    unused
}

// The points that go where the plan for the curve c is applied.
pub(crate) fn orphans_in(curves: &[u8], c: Curve, plan: Plan) -> Orphans
    ensures { orphan_list result ≡ unused_by (others c.id (curves_in curves.now)) (orphan_list (candidates_for c.kind plan)) }
{
    unused_in(curves, c.id, candidates_of(c.kind, plan))
}
