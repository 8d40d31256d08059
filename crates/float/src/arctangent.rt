// The arctangent of (y, z), by section 1's rule.
ghost use Rattle.std.specs.Prelude.{◌≡◌};
ghost use Rattle.float.specs.Arctangent.{halved, ratio, series_angle, quadrant_angle, turned_angle, arctangent};

use crate::arithmetic::is_finite;
use crate::root::sqrt_by_inverse;
use crate::series::series;
use crate::{PI, abs};

// The coefficients of the arctangent's series, divided by q, in q * q: 1 / (2k + 1), negated for odd k.
const ODD_NUMBERS: [f64; 9] = [
    1.0,
    -0.3333333333333333,
    0.2,
    -0.14285714285714285,
    0.1111111111111111,
    -0.09090909090909091,
    0.07692307692307693,
    -0.06666666666666667,
    0.058823529411764705,
];

// About the cosines of an angle, of its half and of its quarter, in u, the square of its tangent, from 0 to 1: to 5e-7, the polynomials of the least error.
// 1 / root(1 + q * q) is the cosine of the angle whose tangent is q, so these are what the roots of the three rounds are guessed from, and no round waits for
// its guess. Nothing is promised of them.
pub(crate) const COSINE_GUESS: [f64; 8] = [
    0.9999997013770449,
    -0.4999598797020895,
    0.37409963698964693,
    -0.30459003728517675,
    0.23775463322930215,
    -0.15149355243995094,
    0.06389531869721704,
    -0.01259925083776282,
];

const HALF_COSINE_GUESS: [f64; 8] = [
    0.9999996748312763,
    -0.12496506544966943,
    0.08531738395358424,
    -0.0631294715875269,
    0.04148403036490608,
    -0.018934927157913273,
    0.00410820797335822,
    0.0,
];

const QUARTER_COSINE_GUESS: [f64; 8] = [
    0.9999995187800327,
    -0.03121113141406551,
    0.020480293597422906,
    -0.013573232511373788,
    0.006700818351904314,
    -0.0016114583741507341,
    0.0,
    0.0,
];

// The polynomial with the coefficients c(0) to c(7), at u, by products that need not wait for each other.
pub(crate) fn polynomial(c: &[f64; 8], u: f64) -> f64 {
    let u2 = u * u;
    let low = (c[0] + c[1] * u) + u2 * (c[2] + c[3] * u);
    let high = (c[4] + c[5] * u) + u2 * (c[6] + c[7] * u);
    low + u2 * u2 * high
}

// The tangent of half the angle whose tangent is q, and whose cosine is about c. Nothing is asked of c.
fn halved(q: f64, c: f64) -> f64
    ensures { result ≡ halved q }
{
    q / (1.0 + sqrt_by_inverse(1.0 + q * q, c))
}

// The tangent of an eighth of the angle whose tangent is q, by the three rounds.
fn halved_thrice(q: f64) -> f64
    ensures { result ≡ halved (halved (halved q)) }
{
    let u = q * q;
    let half = polynomial(&HALF_COSINE_GUESS, u);
    let quarter = polynomial(&QUARTER_COSINE_GUESS, u);
    halved(
        halved(halved(q, polynomial(&COSINE_GUESS, u)), half),
        quarter,
    )
}

// The smaller of two sizes divided by the larger.
pub(crate) fn ratio(a: f64, b: f64) -> f64
    ensures { result ≡ ratio a b }
{
    let (m, l) = if a > b { (b, a) } else { (a, b) };
    m / l
}

// Eight times the angle whose tangent is q.
fn series_angle(q: f64) -> f64
    ensures { result ≡ series_angle q }
{
    8.0 * (q * series(&ODD_NUMBERS, q * q))
}

// The angle of (a, b), neither negative, from q, their ratio halved three times.
fn quadrant_angle(a: f64, b: f64, q: f64) -> f64
    ensures { result ≡ quadrant_angle a b q }
{
    let l = if a > b { a } else { b };
    let r = if l == 0.0 { 0.0 } else { series_angle(q) };
    if a > b { PI / 2.0 - r } else { r }
}

// The angle of the point (z, y), from -PI to PI, from q, the ratio of their sizes halved three times; NaN unless both are finite.
pub(crate) fn turned_angle(y: f64, z: f64, q: f64) -> f64
    ensures { result ≡ turned_angle y z q }
{
    if !is_finite(y) || !is_finite(z) {
        return f64::NAN;
    }
    let r = quadrant_angle(abs(y), abs(z), q);
    let turned = if z.is_sign_negative() { PI - r } else { r };
    if y.is_sign_negative() {
        -turned
    } else {
        turned
    }
}

// The angle of the point (z, y), from -PI to PI; NaN unless both are finite.
pub fn atan2(y: f64, z: f64) -> f64
    ensures { result ≡ arctangent y z }
{
    let t = ratio(abs(y), abs(z));
    turned_angle(y, z, halved_thrice(t))
}
