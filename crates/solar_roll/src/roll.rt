// A cell's optimal roll, and the difference of two rolls.
ghost use Rattle.std.specs.Prelude.{◌≡◌, [], ℕ, ◌≤◌, min, true, length, get_or};
ghost use Rattle.std.specs.Float.{nan};
ghost use Rattle.std.specs.Float.Ieee.{neg, lt};
ghost use Rattle.buffers.specs.Lent.{filled};
ghost use Rattle.float.specs.Arithmetic.{full_turn, finite};
ghost use Rattle.solar_roll.specs.Vectors.{dot3};
ghost use Rattle.solar_roll.specs.Roll.{sun_unit, sun_along_boresight, panel_is_free, panel_of, roll_is_unconstrained, perpendicular, pole_fallback, north, body_axes, InTurn, roll_between, roll_deg_in, solar_optimal_roll_deg, arc, circular_diff_deg};

use crate::vectors::{NEAR_ZERO, cross3, dot3, norm3, normalize3, over3};
use float::{abs, atan2, atan2_each, rem_euclid_turn, sqrt, to_degrees};

// The unit vector from the observer to the Sun.
#[tactic(auto, unfolding(crate::specs::Roll::sun_unit))]
pub fn sun_unit(sun: [f64; 3], observer: [f64; 3]) -> [f64; 3]
    ensures { result ≡ sun_unit sun observer }
{
    let v = [
        sun[0] - observer[0],
        sun[1] - observer[1],
        sun[2] - observer[2],
    ];
    let n = norm3(v);
    if n < NEAR_ZERO {
        [1.0, 0.0, 0.0]
    } else {
        over3(v, n)
    }
}

// With the Sun along the boresight the panel is edge-on to it at every roll.
#[tactic(auto, unfolding(crate::specs::Roll::sun_along_boresight))]
pub fn sun_along_boresight(target: [f64; 3], sun_unit: [f64; 3]) -> bool
    ensures { result ≡ sun_along_boresight target sun_unit }
{
    abs(dot3(sun_unit, target)) > 1.0 - NEAR_ZERO
}

// What all cells share of a panel: whether its normal has no part in the body's y-z plane, so that
// no roll changes its light; and the normal's angle there. No Option of the angle: it is worked out in either case,
// since a row's rolls are worked out side by side before the Free cells are picked.
#[derive(Clone, Copy)]
pub struct Panel {
    pub free: bool,
    pub angle: f64,
}

#[tactic(auto, unfolding(crate::specs::Roll::panel_is_free))]
pub fn panel_is_free(panel_normal: [f64; 3]) -> bool
    ensures { result ≡ panel_is_free panel_normal }
{
    let panel_proj = sqrt(panel_normal[1] * panel_normal[1] + panel_normal[2] * panel_normal[2]);
    panel_proj <= NEAR_ZERO
}

#[tactic(auto, unfolding(crate::specs::Roll::panel_of, crate::specs::Roll::panel_angle))]
pub fn panel_of(panel_normal: [f64; 3]) -> Panel
    ensures { result ≡ panel_of panel_normal }
{
    Panel {
        free: panel_is_free(panel_normal),
        angle: atan2(panel_normal[2], panel_normal[1]),
    }
}

#[tactic(auto, unfolding(crate::specs::Roll::roll_is_unconstrained))]
pub fn roll_is_unconstrained(target: [f64; 3], sun_unit: [f64; 3], panel_normal: [f64; 3]) -> bool
    ensures { result ≡ roll_is_unconstrained target sun_unit panel_normal }
{
    sun_along_boresight(target, sun_unit) || panel_is_free(panel_normal)
}

// The part of v perpendicular to x.
#[tactic(auto, unfolding(crate::specs::Roll::perpendicular))]
fn perpendicular(x: [f64; 3], v: [f64; 3]) -> [f64; 3]
    ensures { result ≡ perpendicular x v }
{
    let d = dot3(x, v);
    [v[0] - d * x[0], v[1] - d * x[1], v[2] - d * x[2]]
}

// A reference that is stable near the celestial pole.
#[tactic(auto, unfolding(crate::specs::Roll::pole_fallback))]
fn pole_fallback(x: [f64; 3]) -> [f64; 3]
    ensures { result ≡ pole_fallback x }
{
    if abs(x[2]) < 0.9 {
        [0.0, 0.0, 1.0]
    } else {
        [0.0, 1.0, 0.0]
    }
}

// Celestial north, projected onto the plane perpendicular to x.
#[tactic(auto, unfolding(crate::specs::Roll::north, crate::specs::Vectors::unwrap_or))]
fn north(x: [f64; 3]) -> [f64; 3]
    ensures { result ≡ north x }
{
    normalize3(perpendicular(x, [0.0, 0.0, 1.0]))
        .or_else(|| normalize3(perpendicular(x, pole_fallback(x))))
        .unwrap_or([0.0, 1.0, 0.0])
}

// The north-referenced body frame: x is the boresight, y = north × x, z recomputed from them.
#[tactic(auto, unfolding(crate::specs::Roll::body_axes, crate::specs::Roll::y_axis, crate::specs::Vectors::unwrap_or, crate::specs::Vectors::cross3))]
pub fn body_axes(target: [f64; 3]) -> [[f64; 3]; 3]
    ensures { result ≡ body_axes target }
{
    let y_raw = cross3(north(target), target);
    let y_axis = normalize3(y_raw).unwrap_or([0.0, 1.0, 0.0]);
    let z_axis = cross3(target, y_axis);
    [target, y_axis, z_axis]
}

// The optimal roll: the Sun's angle less the panel's, in degrees, as a remainder by 360. 360 more than a small negative
// number rounds to 360, which becomes 0.
#[tactic(auto, unfolding(crate::specs::Roll::roll_between, crate::specs::Roll::folded_roll))]
fn roll_between(sun_angle: f64, panel_angle: f64) -> f64
    ensures { result ≡ roll_between sun_angle panel_angle }
{
    let r = rem_euclid_turn(to_degrees(sun_angle - panel_angle));
    if r == 360.0 { 0.0 } else { r }
}

// The optimal roll of a cell, from what its row and its panel share.
#[tactic(auto, unfolding(crate::specs::Roll::roll_deg_in))]
pub(crate) fn roll_deg_in(axes: [[f64; 3]; 3], sun_unit: [f64; 3], panel_angle: f64) -> f64
    ensures value { result ≡ roll_deg_in axes sun_unit panel_angle }
    ensures in_turn { finite result ≡ true → InTurn result }
{
    let y_axis = axes[1];
    let z_axis = axes[2];
    let sun_y = dot3(sun_unit, y_axis);
    let sun_z = dot3(sun_unit, z_axis);
    roll_between(atan2(sun_z, sun_y), panel_angle)
}

// The parts of the Sun's units along an axis, as many as there are places for.
#[tactic(auto, using(buffers::proofs::Lent::filled_zero, buffers::proofs::Lent::filled_next))]
fn parts_along(units: &[[f64; 3]], axis: [f64; 3], parts: &mut [f64])
    requires { length parts.old ≤ length units.now }
    ensures { parts.new ≡ filled (length parts.old) (λ k. dot3 (get_or units.now k []) axis) parts.old }
{
    for (k, part) in parts.iter_mut().enumerate() {
        *part = dot3(units[k], axis);
    }
}

// Makes of each of the Sun's angles the roll.
#[tactic(auto, using(buffers::proofs::Lent::filled_zero, buffers::proofs::Lent::filled_next, buffers::proofs::Lent::get_or_filled_beyond))]
fn to_rolls(panel_angle: f64, rolls: &mut [f64])
    ensures { rolls.new ≡ filled (length rolls.old) (λ k. roll_between (get_or rolls.old k nan) panel_angle) rolls.old }
{
    for roll in rolls.iter_mut() {
        *roll = roll_between(*roll, panel_angle);
    }
}

// The most cells whose rolls are worked out side by side.
const MOST_AT_ONCE: usize = 64;

// The optimal rolls of cells of one row, side by side, a cell for each of the Sun's units: as many as the shorter list
// has, and at most 64.
pub fn rolls_deg_in(axes: [[f64; 3]; 3], units: &[[f64; 3]], panel_angle: f64, rolls: &mut [f64])
    ensures { let count : ℕ = min 64 (min (length rolls.old) (length units.now)) in
        rolls.new ≡ filled count (λ k. roll_deg_in axes (get_or units.now k []) panel_angle) rolls.old }
{
    let count = MOST_AT_ONCE.min(rolls.len().min(units.len()));
    let rolls = &mut rolls[..count];
    let mut ys = [0.0; MOST_AT_ONCE];
    let sun_y = &mut ys[..count];
    parts_along(units, axes[1], sun_y);
    let mut zs = [0.0; MOST_AT_ONCE];
    let sun_z = &mut zs[..count];
    parts_along(units, axes[2], sun_z);
    atan2_each(sun_z, sun_y, rolls);
    to_rolls(panel_angle, rolls);
}

// The roll, in degrees from north, at which the panel gets the most light.
#[tactic(auto, using(crate::proofs::Cells::optimal_shared), unfolding(crate::specs::Roll::panel_angle))]
pub fn solar_optimal_roll_deg(target: [f64; 3], sun_unit: [f64; 3], panel_normal: [f64; 3]) -> f64
    ensures value { result ≡ solar_optimal_roll_deg target sun_unit panel_normal }
    ensures in_turn { finite result ≡ true → InTurn result }
{
    let panel_angle = atan2(panel_normal[2], panel_normal[1]);
    roll_deg_in(body_axes(target), sun_unit, panel_angle)
}

// The shorter arc of a turn by x, between -360 and 360: its remainder needs no division, and its size, by its bits, no look for
// a NaN, which each cell and roll would pay for.
fn arc_within_turn(x: f64) -> f64
    requires { (lt (neg full_turn) x ≡ true) × (lt x full_turn ≡ true) }
    ensures { result ≡ arc x }
{
    let d = if x < 0.0 { x + 360.0 } else { x };
    let e = d - 180.0;
    180.0 - f64::from_bits(f64::to_bits(e) % 0x8000_0000_0000_0000)
}

// The shorter arc between two rolls.
#[tactic(auto, unfolding(crate::specs::Roll::circular_diff_deg, crate::specs::Roll::arc))]
pub fn circular_diff_deg(a: f64, b: f64) -> f64
    ensures { result ≡ circular_diff_deg a b }
{
    let x = a - b;
    if x > -360.0 && x < 360.0 {
        return arc_within_turn(x);
    }
    let d = rem_euclid_turn(x);
    180.0 - abs(d - 180.0)
}
