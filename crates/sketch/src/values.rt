// The ranges that a sketch's numbers must lie in. A NaN lies in none.
ghost use Rattle.std.specs.Prelude.{◌≡◌};
ghost use Rattle.sketch.specs.Valid.{ok_coordinate, ok_radius, ok_rho, ok_measure};

// A coordinate: finite, of magnitude at most 1,000,000.
#[tactic(auto, unfolding(crate::specs::Valid::ok_coordinate))]
pub fn coordinate_ok(x: f64) -> bool
    ensures { result ≡ ok_coordinate x }
{
    -1000000.0 <= x && x <= 1000000.0
}

// A circle's radius: from 1e-6 to 1e6.
#[tactic(auto, unfolding(crate::specs::Valid::ok_radius))]
pub fn radius_ok(r: f64) -> bool
    ensures { result ≡ ok_radius r }
{
    1e-6 <= r && r <= 1000000.0
}

// A conic's rho: above 0 and below 1.
#[tactic(auto, unfolding(crate::specs::Valid::ok_rho))]
pub fn rho_ok(rho: f64) -> bool
    ensures { result ≡ ok_rho rho }
{
    0.0 < rho && rho < 1.0
}

// What a relation measures: from 0 to 4,000,000.
#[tactic(auto, unfolding(crate::specs::Valid::ok_measure))]
pub fn measure_ok(v: f64) -> bool
    ensures { result ≡ ok_measure v }
{
    0.0 <= v && v <= 4000000.0
}
