// Vectors of three f64, by value.
ghost use Rattle.std.specs.Prelude.{◌≡◌};
ghost use Rattle.solar_roll.specs.Vectors.{dot3, norm3, cross3, over3, normalize3};

use float::sqrt;

pub const NEAR_ZERO: f64 = 1.0e-12;

#[tactic(auto, unfolding(crate::specs::Vectors::dot3))]
pub fn dot3(a: [f64; 3], b: [f64; 3]) -> f64
    ensures { result ≡ dot3 a b }
{
    a[0] * b[0] + a[1] * b[1] + a[2] * b[2]
}

#[tactic(auto, unfolding(crate::specs::Vectors::norm3, crate::specs::Vectors::dot3))]
pub fn norm3(v: [f64; 3]) -> f64
    ensures { result ≡ norm3 v }
{
    sqrt(v[0] * v[0] + v[1] * v[1] + v[2] * v[2])
}

#[tactic(auto, unfolding(crate::specs::Vectors::cross3))]
pub fn cross3(a: [f64; 3], b: [f64; 3]) -> [f64; 3]
    ensures { result ≡ cross3 a b }
{
    [
        a[1] * b[2] - a[2] * b[1],
        a[2] * b[0] - a[0] * b[2],
        a[0] * b[1] - a[1] * b[0],
    ]
}

// v / n, component by component.
#[tactic(auto, unfolding(crate::specs::Vectors::over3))]
pub fn over3(v: [f64; 3], n: f64) -> [f64; 3]
    ensures { result ≡ over3 v n }
{
    [v[0] / n, v[1] / n, v[2] / n]
}

// v over its norm, if that is not too small.
#[tactic(auto, unfolding(crate::specs::Vectors::normalize3))]
pub fn normalize3(v: [f64; 3]) -> Option<[f64; 3]>
    ensures { result ≡ normalize3 v }
{
    let n = norm3(v);
    if n <= NEAR_ZERO {
        None
    } else {
        Some(over3(v, n))
    }
}
