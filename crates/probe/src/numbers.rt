// Numbers: root, magnitude, sign, the larger of two, order, and the turn of a vector.
ghost use Rattle.std.specs.Prelude.{◌≡◌};
ghost use Rattle.float.specs.Numbers.{√};
ghost use Rattle.float.specs.Order as O;
ghost use Rattle.float.specs.Order.{before};
ghost use Rattle.float.specs.Sign as S;
ghost use Rattle.geom.specs.Plane.{vec};
ghost use Rattle.shape.specs.Turn as T;

use geom::Vec2;

#[unsafe(no_mangle)]
pub extern "C" fn mulkefi_sqrt(x: f64) -> f64
    ensures { result ≡ √ x }
{
    float::sqrt(x)
}

#[unsafe(no_mangle)]
pub extern "C" fn mulkefi_abs(x: f64) -> f64
    ensures { result ≡ S.abs x }
{
    float::abs(x)
}

#[unsafe(no_mangle)]
pub extern "C" fn mulkefi_signum(x: f64) -> f64
    ensures { result ≡ S.signum x }
{
    float::signum(x)
}

#[unsafe(no_mangle)]
pub extern "C" fn mulkefi_max(a: f64, b: f64) -> f64
    ensures { result ≡ O.max a b }
{
    float::max(a, b)
}

// Whether a stands before b in the total order.
#[unsafe(no_mangle)]
pub extern "C" fn mulkefi_total_before(a: f64, b: f64) -> bool
    ensures { result ≡ before a b }
{
    float::before_in_order(a, b)
}

#[unsafe(no_mangle)]
pub extern "C" fn mulkefi_turn(x: f64, y: f64) -> f64
    ensures { result ≡ T.turn (vec x y) }
{
    shape::turn(Vec2::new(x, y))
}
