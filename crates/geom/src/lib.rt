// Points and vectors of the plane, by value. Each operation on a coordinate is rounded once.
#![tactic(auto)]

ghost use Rattle.std.specs.Prelude.{◌≡◌};
ghost use Rattle.geom.specs.Plane as P;
ghost use Rattle.geom.specs.Plane.{vec, ◌+ᵥ◌, ◌-ᵥ◌, ◌·ᵥ◌, ◌/ᵥ◌, distance};

use std::ops::{Add, Div, Mul, Sub};

#[derive(Clone, Copy)]
pub struct Vec2 {
    pub x: f64,
    pub y: f64,
}

impl Add for Vec2 {
    type Output = Vec2;

    ghost add_gives = { λ u v r. r ≡ u +ᵥ v };

    fn add(self, v: Vec2) -> Vec2 {
        Vec2 {
            x: self.x + v.x,
            y: self.y + v.y,
        }
    }
}

impl Sub for Vec2 {
    type Output = Vec2;

    ghost sub_gives = { λ u v r. r ≡ u -ᵥ v };

    fn sub(self, v: Vec2) -> Vec2 {
        Vec2 {
            x: self.x - v.x,
            y: self.y - v.y,
        }
    }
}

impl Mul<f64> for Vec2 {
    type Output = Vec2;

    ghost mul_gives = { λ u k r. r ≡ u ·ᵥ k };

    fn mul(self, k: f64) -> Vec2 {
        Vec2 {
            x: self.x * k,
            y: self.y * k,
        }
    }
}

// Each coordinate divided: scaling by 1 / k would round twice.
impl Div<f64> for Vec2 {
    type Output = Vec2;

    ghost div_gives = { λ u k r. r ≡ u /ᵥ k };

    fn div(self, k: f64) -> Vec2 {
        Vec2 {
            x: self.x / k,
            y: self.y / k,
        }
    }
}

impl Vec2 {
    pub const ZERO: Vec2 = Vec2 { x: 0.0, y: 0.0 };

    pub fn new(x: f64, y: f64) -> Vec2
        ensures { result ≡ vec x y }
    {
        Vec2 { x, y }
    }

    // The vector from one point to another.
    pub fn from_points(a: Vec2, b: Vec2) -> Vec2
        ensures { result ≡ b -ᵥ a }
    {
        b - a
    }

    pub fn dot(self, v: Vec2) -> f64
        ensures { result ≡ P.dot self v }
    {
        self.x * v.x + self.y * v.y
    }

    pub fn cross(self, v: Vec2) -> f64
        ensures { result ≡ P.cross self v }
    {
        self.x * v.y - self.y * v.x
    }

    // A quarter turn to the left.
    pub fn perp(self) -> Vec2
        ensures { result ≡ P.perp self }
    {
        Vec2 {
            x: -self.y,
            y: self.x,
        }
    }

    pub fn len(self) -> f64
        ensures { result ≡ P.len self }
    {
        float::sqrt(self.x * self.x + self.y * self.y)
    }

    pub fn dist(self, q: Vec2) -> f64
        ensures { result ≡ distance self q }
    {
        (self - q).len()
    }

    // The square of the distance, for a bound that float::bounds has.
    pub fn dist2(self, q: Vec2) -> f64
        ensures { result ≡ P.dot (self -ᵥ q) (self -ᵥ q) }
    {
        let d = self - q;
        d.dot(d)
    }

    // Where a vector points: a vector of length 1, or none for one too short to tell.
    pub fn normalized(self) -> Option<Vec2>
        ensures { result ≡ P.normalized self }
    {
        let l = self.len();
        if l < 1e-12 { None } else { Some(self / l) }
    }
}
