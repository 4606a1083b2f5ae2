// What of a curve the line of an extend may meet.
ghost use Rattle.std.specs.Prelude.{◌≡◌};
ghost use Rattle.hit_search.specs.NearestHit as E;

use geom::Vec2;
use shape::Shape;
use support::endless;

// An infinite line reaches far beyond its points, from the place next to the pick.
#[tactic(auto, unfolding(crate::specs::NearestHit::boundary))]
pub(crate) fn boundary(infinite: bool, sh: Shape, near: Vec2) -> Shape
    ensures { result ≡ E.boundary infinite sh near }
{
    match sh {
        Shape::Line(a, b) if infinite => endless(a, b, near),
        _ => sh,
    }
}
