// Sine and cosine, by the rule of document 02's request One, and radians.
ghost use Rattle.std.specs.Prelude.{◌≡◌, ◌≤◌};
ghost use Rattle.std.specs.Float.Ieee.{lt};
ghost use Rattle.buffers.specs.Ranges.{flag};
ghost use Rattle.float.specs.Trigonometry.{quadrant_of, sine_at, sin_cos_of, sine_of, cosine_of, to_radians};

use crate::series::series;
use crate::{PI, abs};

// The sine and the cosine of an angle.
#[derive(Clone, Copy)]
pub struct SinCos {
    pub sin: f64,
    pub cos: f64,
}

// The coefficients of the sine's series, divided by s, in s * s: 1 / (2k + 1)!, negated for odd k.
const SINE: [f64; 9] = [
    1.0,
    -0.16666666666666666,
    0.008333333333333333,
    -0.0001984126984126984,
    2.7557319223985893e-6,
    -2.505210838544172e-8,
    1.6059043836821613e-10,
    -7.647163731819816e-13,
    2.8114572543455206e-15,
];

// The coefficients of the cosine's series in s * s: 1 / (2k)!, negated for odd k.
const COSINE: [f64; 9] = [
    1.0,
    -0.5,
    0.041666666666666664,
    -0.001388888888888889,
    0.0000248015873015873,
    -2.755731922398589e-7,
    2.08767569878681e-9,
    -1.1470745597729725e-11,
    4.779477332387385e-14,
];

// 1 if the threshold is below a, else 0.
fn past(threshold: f64, a: f64) -> u64
    ensures { (result ≡ flag (lt threshold a)) × (result ≤ 1) }
{
    u64::from(threshold < a)
}

// How many of P/4, 3P/4, 5P/4, 7P/4 are below a. Four terms, which become one comparison of four; a filter and its count
// become a loop with branches, by which a sine takes half as long again.
fn quadrant(a: f64) -> u64
    ensures { (result ≡ quadrant_of a) × (result ≤ 4) }
{
    past(PI / 4.0, a) + past(3.0 * PI / 4.0, a) + past(5.0 * PI / 4.0, a) + past(7.0 * PI / 4.0, a)
}

// The sine of an angle, from q and the sine and the cosine of what q quarter turns leave of it; its cosine, from that
// cosine and minus that sine.
fn turned(q: u64, s: f64, c: f64) -> f64
    requires { q ≤ 4 }
    ensures { result ≡ sine_at q s c }
{
    match q {
        1 => c,
        2 => -s,
        3 => -c,
        _ => s,
    }
}

// The sine and the cosine of r radians.
pub fn sin_cos(r: f64) -> SinCos
    ensures { result ≡ sin_cos_of r }
{
    let a = abs(r);
    let q = quadrant(a);
    let s = a - q as f64 * (PI / 2.0);
    let t = s * s;
    let sin_s = series(&SINE, t) * s;
    let cos_s = series(&COSINE, t);
    let sine = turned(q, sin_s, cos_s);
    let cosine = turned(q, cos_s, -sin_s);
    SinCos {
        sin: if r < 0.0 { -sine } else { sine },
        cos: cosine,
    }
}

// The sine of r radians.
pub fn sin(r: f64) -> f64
    ensures { result ≡ sine_of r }
{
    sin_cos(r).sin
}

// The cosine of r radians.
pub fn cos(r: f64) -> f64
    ensures { result ≡ cosine_of r }
{
    sin_cos(r).cos
}

// The angle a, given in degrees, in radians.
#[tactic(auto, unfolding(crate::specs::Trigonometry::to_radians))]
pub fn to_radians(a: f64) -> f64
    ensures { result ≡ to_radians a }
{
    a.to_radians()
}
