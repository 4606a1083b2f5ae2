// The nearest hit of a line beyond one of its ends, among its hits with other curves.
#![tactic(auto)]

ghost use Rattle.std.specs.Prelude.{◌≡◌};
ghost use Rattle.geom.specs.Plane.{◌-ᵥ◌, normalized, distance};

mod boundaries;
mod image_hits;
pub mod image_search;
mod search;

use geom::Vec2;
use sketch::Id;

// The line that is prolonged beyond its end b or (false) a, with its length and its direction. A line too short to tell has no direction.
#[derive(Clone, Copy)]
struct SupportLine {
    a: Vec2,
    b: Vec2,
    direction: Option<Vec2>,
    length: f64,
    at_b: bool,
    ghost own_direction: { direction ≡ normalized (b -ᵥ a) },
    ghost own_length: { length ≡ distance a b },
}

// The coordinates of a freeform curve's control points, at the front.
#[derive(Clone, Copy)]
struct Controls {
    xs: [f64; 8],
    ys: [f64; 8],
}

// The nearest hit so far: how far beyond the end it lies, where, on which curve, and whether another lies as near. The flag stands last: a
// gap behind a first one is copied with it, byte by byte.
#[derive(Clone, Copy)]
pub struct Nearest {
    pub gap: f64,
    pub at: Vec2,
    pub by: Id,
    pub tied: bool,
}

// How far a search has come: the nearest hit, if there is one yet, and the budget that is left.
#[derive(Clone, Copy)]
struct Progress {
    best: Option<Nearest>,
    budget: usize,
}
