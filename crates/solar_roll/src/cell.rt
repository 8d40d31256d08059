// One cell: a target at a time.
ghost use Rattle.std.specs.Prelude.{◌≡◌, ◌<◌, not, Float};
ghost use Rattle.buffers.specs.Ranges.{any};
ghost use Rattle.buffers.specs.Refusal.{found, reply};
ghost use Rattle.solar_roll.specs.Vectors.{count, triple};
ghost use Rattle.solar_roll.specs.Roll.{sun_unit, InTurn};
ghost use Rattle.solar_roll.specs.Cell.{optimal_roll, free_or_at, roll_in, cell_reply, violates, in_force};
ghost use Rattle.solar_roll.specs.declared.cell.CellRoll.TheVariants.{At};
ghost use Rattle.solar_roll.specs.Cell.{too_large, bad_position, bad_direction, not_unit, any_not_unit, direction_refusal, numbers_refusal};

use crate::roll::{
    Panel, circular_diff_deg, roll_deg_in, roll_is_unconstrained, solar_optimal_roll_deg,
    sun_along_boresight, sun_unit,
};
use buffers::Refusal;
use float::abs;

// The largest size of a position's or a panel's number.
const LIMIT: f64 = 1.0e100;

// How far a direction's squared length may be from 1.
const UNIT_TOLERANCE: f64 = 1.0e-9;

// A roll to evaluate at: one candidate of a sweep, or the one that is asked for. Neither is an error, so it is no Result.
#[derive(Clone, Copy)]
pub enum EvaluationRoll {
    Sweep(f64),
    Fixed(f64),
}

// A cell's answer: document 01's Free, where no roll is better than another; At, with the optimal roll;
// or the number of a refusal. The last is a case and no Err around the type, and any number, since `violated` has an answer
// for each.
#[derive(Clone, Copy)]
pub enum CellRoll {
    Free,
    At(f64),
    Refused(u64),
}

// The cell's answer, from what its row and its panel share and its roll.
#[tactic(auto, unfolding(crate::specs::Cell::free_or_at))]
pub fn free_or_at(axes: [[f64; 3]; 3], sun_unit: [f64; 3], panel: Panel, roll_deg: f64) -> CellRoll
    ensures { result ≡ free_or_at axes sun_unit panel roll_deg }
{
    let target = axes[0];
    if sun_along_boresight(target, sun_unit) || panel.free {
        CellRoll::Free
    } else {
        CellRoll::At(roll_deg)
    }
}

// The cell's answer, from what its row and its panel share.
#[tactic(auto, unfolding(crate::specs::Cell::roll_in))]
pub fn roll_in(axes: [[f64; 3]; 3], sun_unit: [f64; 3], panel: Panel) -> CellRoll
    ensures { result ≡ roll_in axes sun_unit panel }
{
    let roll = roll_deg_in(axes, sun_unit, panel.angle);
    free_or_at(axes, sun_unit, panel, roll)
}

#[tactic(auto, unfolding(crate::specs::Cell::optimal_roll))]
fn optimal_roll(target: [f64; 3], sun_unit: [f64; 3], panel_normal: [f64; 3]) -> CellRoll
    ensures { result ≡ optimal_roll target sun_unit panel_normal }
{
    if roll_is_unconstrained(target, sun_unit, panel_normal) {
        CellRoll::Free
    } else {
        CellRoll::At(solar_optimal_roll_deg(target, sun_unit, panel_normal))
    }
}

// Whether the cell is violated at a roll: a tolerance met exactly is not.
#[tactic(auto, unfolding(crate::specs::Cell::violates))]
pub fn violated(cell: CellRoll, roll_deg: f64, tolerance_deg: f64) -> bool
    ensures { result ≡ violates cell roll_deg tolerance_deg }
{
    match cell {
        CellRoll::Free => false,
        CellRoll::At(optimal) => circular_diff_deg(roll_deg, optimal) > tolerance_deg,
        CellRoll::Refused(_) => false,
    }
}

// The roll to evaluate at: a configured roll overrides Sweep, never Fixed.
#[tactic(auto, unfolding(crate::specs::Cell::in_force))]
pub fn in_force(roll: EvaluationRoll, configured: Option<f64>) -> f64
    ensures { result ≡ in_force roll configured }
{
    match roll {
        EvaluationRoll::Sweep(candidate) => configured.unwrap_or(candidate),
        EvaluationRoll::Fixed(roll_deg) => roll_deg,
    }
}

// Whether a number is over the limit in size, or a NaN.
#[tactic(auto, unfolding(crate::specs::Cell::too_large))]
fn any_too_large(xs: &[f64], limit: f64) -> bool
    ensures { result ≡ any (too_large limit) xs.now }
{
    xs.iter().any(|x| !(abs(*x) <= limit))
}

#[tactic(auto, unfolding(crate::specs::Cell::bad_position))]
fn bad_position(xs: &[f64]) -> bool
    ensures { result ≡ bad_position xs.now }
{
    any_too_large(xs, LIMIT)
}

#[tactic(auto, unfolding(crate::specs::Cell::bad_direction))]
fn bad_direction(xs: &[f64]) -> bool
    ensures { result ≡ bad_direction xs.now }
{
    any_too_large(xs, 1.0)
}

// Whether the squared length of v is within 1e-9 of 1.
#[tactic(auto, unfolding(crate::specs::Cell::not_unit, crate::specs::Vectors::dot3))]
fn is_unit(v: [f64; 3]) -> bool
    ensures { not result ≡ not_unit v }
{
    let squared_length = v[0] * v[0] + v[1] * v[1] + v[2] * v[2];
    abs(squared_length - 1.0) <= UNIT_TOLERANCE
}

// Whether the i-th triple of a flat list is a unit vector. By `triple` each of its numbers would be tested for the list's end.
#[tactic(auto, unfolding(crate::specs::Vectors::triple))]
fn unit_at(targets: &[f64], i: usize) -> bool
    requires { i < count targets.now }
    ensures { not result ≡ not_unit (triple targets.now i) }
{
    let k = 3 * i;
    is_unit([targets[k], targets[k + 1], targets[k + 2]])
}

// Whether each triple of a flat list is a unit vector.
#[tactic(auto, unfolding(crate::specs::Cell::any_not_unit))]
fn all_unit(targets: &[f64]) -> bool
    ensures { not result ≡ any_not_unit targets.now }
{
    (0..targets.len() / 3).all(|i| unit_at(targets, i))
}

// Of directions, a flat list of triples. 5 is tried of them all before 20 of any.
#[tactic(auto, unfolding(crate::specs::Cell::direction_refusal, buffers::specs::Refusal::first, buffers::specs::Refusal::carried))]
fn directions_refusal(targets: &[f64]) -> Result<(), Refusal>
    ensures { found result ≡ direction_refusal targets.now }
{
    if bad_direction(targets) {
        return Err(Refusal::TargetOutOfRange);
    }
    if all_unit(targets) {
        Ok(())
    } else {
        Err(Refusal::TargetNotUnit)
    }
}

// The refusal of one direction.
// Refuses 5, 20 (specs/Cell, `direction_refusal`).
pub fn direction_refusal(target: [f64; 3]) -> Result<(), Refusal>
    ensures { found result ≡ direction_refusal target }
{
    directions_refusal(&target)
}

// 4, 5, 20 and 6, of flat lists of triples.
#[tactic(auto, unfolding(crate::specs::Cell::numbers_refusal, buffers::specs::Refusal::first, buffers::specs::Refusal::carried))]
pub(crate) fn numbers_refusal(
    targets: &[f64],
    suns: &[f64],
    observers: &[f64],
    panels: &[f64],
) -> Result<(), Refusal>
    ensures { found result ≡ numbers_refusal targets.now suns.now observers.now panels.now }
{
    if bad_position(suns) || bad_position(observers) {
        return Err(Refusal::PositionOutOfRange);
    }
    directions_refusal(targets)?;
    if bad_position(panels) {
        return Err(Refusal::PanelOutOfRange);
    }
    Ok(())
}

// The answer of one cell, given by its four triples.
// Refuses 4, 5, 20, 6 (specs/Cell, `numbers_refusal`).
#[tactic(auto, using(crate::proofs::Cells::answered), unfolding(buffers::specs::Refusal::reply, crate::specs::Cell::cell_reply))]
pub fn cell_roll(
    target: [f64; 3],
    sun: [f64; 3],
    observer: [f64; 3],
    panel_normal: [f64; 3],
) -> CellRoll
    ensures result_value { cell_reply result ≡ reply (numbers_refusal target sun observer panel_normal)
        (optimal_roll target (sun_unit sun observer) panel_normal) }
    ensures in_turn { (roll : Float) → result ≡ At roll → InTurn roll }
{
    match numbers_refusal(&target, &sun, &observer, &panel_normal) {
        Ok(()) => optimal_roll(target, sun_unit(sun, observer), panel_normal),
        Err(refusal) => CellRoll::Refused(refusal.number()),
    }
}
