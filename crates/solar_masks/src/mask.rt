// Masks: a byte a cell, 0 clear or 1 marked, in order of cell number.
ghost use Rattle.std.specs.Prelude.{◌≡◌, length};
ghost use Rattle.buffers.specs.Ranges.{flag};
ghost use Rattle.buffers.specs.Refusal.{found, replied};
ghost use Rattle.solar_roll.specs.Roll.{sample_step};
ghost use Rattle.solar_roll.specs.Cell.{roll_in};
ghost use Rattle.solar_roll.specs.Plan.{lent, samples_or_none_refusal};
ghost use Rattle.solar_masks.specs.Mask.{step_distance, misses_steps, marked_by, at_roll, at_configured, at_every_roll, cells_refusal, cells_reply, mask_after};

use crate::cells::{Cells, write_cells};
use buffers::Refusal;
use float::rem_euclid;
use solar_roll::{
    CellRoll, EvaluationRoll, Panel, Plan, free_or_at, in_force, rolls_deg_in,
    samples_or_none_refusal, violated,
};
use std::num::nearest_u64_to_f64;

// What marks a cell: a roll too far from its optimal roll, every multiple of a step too far from it,
// or nothing. An enum and no closure, since `target_by_target` (specs/Tolerances) speaks of each rule.
#[derive(Clone, Copy)]
pub(crate) enum MarkRule {
    AtRoll(f64),
    EveryStep(f64),
    Nothing,
}

// The even step of n samples.
#[tactic(auto, unfolding(solar_roll::specs::Roll::sample_step))]
fn sample_step(n: u64) -> f64
    ensures { result ≡ sample_step n }
{
    360.0 / nearest_u64_to_f64(n)
}

// How far a roll is from the nearest multiple of a step. `if` and not `min`, which has another answer for a NaN.
#[tactic(auto, unfolding(crate::specs::Mask::step_distance))]
fn step_distance(roll_deg: f64, step: f64) -> f64
    ensures { result ≡ step_distance roll_deg step }
{
    let phase = rem_euclid(roll_deg, step);
    let rest = step - phase;
    if rest < phase { rest } else { phase }
}

// Whether every multiple of a step violates the cell. Beside solar_roll's `violated`: one test would take the distance as a closure, and be longer than both.
#[tactic(auto, unfolding(crate::specs::Mask::misses_steps))]
fn misses_steps(cell: CellRoll, step: f64, tolerance_deg: f64) -> bool
    ensures { result ≡ misses_steps cell step tolerance_deg }
{
    match cell {
        CellRoll::Free => false,
        CellRoll::At(optimal) => step_distance(optimal, step) > tolerance_deg,
        CellRoll::Refused(_) => false,
    }
}

// Whether a rule marks a cell.
#[tactic(auto, unfolding(crate::specs::Mask::marked_by))]
fn marked(cell: CellRoll, rule: MarkRule, tolerance_deg: f64) -> bool
    ensures { result ≡ marked_by cell rule tolerance_deg }
{
    match rule {
        MarkRule::AtRoll(roll) => violated(cell, roll, tolerance_deg),
        MarkRule::EveryStep(step) => misses_steps(cell, step, tolerance_deg),
        MarkRule::Nothing => false,
    }
}

pub(crate) fn mark_byte(cell: CellRoll, rule: MarkRule, tolerance_deg: f64) -> u8
    ensures { result ≡ flag (marked_by cell rule tolerance_deg) }
{
    u8::from(marked(cell, rule, tolerance_deg))
}

// A configured roll overrides Sweep, never Fixed.
#[tactic(auto, unfolding(crate::specs::Mask::at_roll))]
pub(crate) fn at_roll(roll: EvaluationRoll, configured: Option<f64>) -> MarkRule
    ensures { result ≡ at_roll roll configured }
{
    MarkRule::AtRoll(in_force(roll, configured))
}

// Without a configured roll nothing is marked.
#[tactic(auto, unfolding(crate::specs::Mask::at_configured))]
pub(crate) fn at_configured(configured: Option<f64>) -> MarkRule
    ensures { result ≡ at_configured configured }
{
    configured.map_or(MarkRule::Nothing, MarkRule::AtRoll)
}

// A configured roll is looked at before n, and 0 samples mark nothing.
#[tactic(auto, unfolding(crate::specs::Mask::at_every_roll))]
pub(crate) fn at_every_roll(n: u64, configured: Option<f64>) -> MarkRule
    ensures { result ≡ at_every_roll n configured }
{
    if let Some(roll) = configured {
        MarkRule::AtRoll(roll)
    } else if n == 0 {
        MarkRule::Nothing
    } else {
        MarkRule::EveryStep(sample_step(n))
    }
}

// The byte of a cell by a rule, on a panel.
#[derive(Clone, Copy)]
struct Marks {
    rule: MarkRule,
    panel: Panel,
}

impl Cells for Marks {
    type Entry = u8;

    ghost entry = { λ s axes tolerance unit. flag (marked_by (roll_in axes unit s.panel) s.rule tolerance) };

    fn write(
        &self,
        axes: [[f64; 3]; 3],
        tolerance_deg: f64,
        units: &[[f64; 3]],
        entries: &mut [u8],
    ) {
        let Marks { rule, panel } = *self;
        let mut rolls = [0.0; 64];
        rolls_deg_in(axes, units, panel.angle, &mut rolls);
        for k in 0..units.len() {
            let cell = free_or_at(axes, units[k], panel, rolls[k]);
            entries[k] = mark_byte(cell, rule, tolerance_deg);
        }
    }
}

// The refusal of a call that writes something of each cell: the plan's, or 7 for too little room.
#[tactic(auto, unfolding(crate::specs::Mask::cells_refusal, crate::specs::Mask::cells_short, buffers::specs::Refusal::first, buffers::specs::Refusal::carried))]
pub(crate) fn cells_refusal(
    plan: &Plan,
    said: Result<(), Refusal>,
    room: usize,
) -> Result<(), Refusal>
    ensures { found result ≡ cells_refusal (lent plan.now) (found said) room }
{
    plan.refusal(said, false)?;
    if room < plan.rows() * plan.times() {
        Err(Refusal::OutputTooShort)
    } else {
        Ok(())
    }
}

// A call for a mask: its refusals, then the marks by a rule. `said` is said in the place of 3.
#[tactic(auto, using(buffers::proofs::Refusals::err_replied, buffers::proofs::Refusals::ok_replied), unfolding(crate::specs::Mask::cells_reply))]
fn mask_by(
    plan: &Plan,
    said: Result<(), Refusal>,
    rule: MarkRule,
    mask: &mut [u8],
) -> Result<u64, Refusal>
    ensures result_value { replied result ≡ cells_reply (lent plan.now) (found said) (length mask.old) }
    ensures mask_after { mask.new ≡ mask_after (lent plan.now) (found said) (λ configured. rule) mask.old }
{
    cells_refusal(plan, said, mask.len())?;
    // Where nothing is marked, no roll is worked out.
    if let MarkRule::Nothing = rule {
        mask[..plan.rows() * plan.times()].fill(0);
        return Ok(0);
    }
    // The rows share their panel: it is worked out once.
    let panel = plan.panel_at(0);
    write_cells(plan, &Marks { rule, panel }, mask);
    Ok(0)
}

// The mask at the configured roll; without one nothing is marked.
// Refuses 1, 2, 4, 5, 20, 6, 17 of the plan, then 7 (specs/Mask, `cells_refusal`).
#[tactic(auto, unfolding(crate::specs::Mask::mask_after))]
pub fn in_constraint_batch(plan: &Plan, mask: &mut [u8]) -> Result<u64, Refusal>
    ensures result_value { replied result ≡ cells_reply (lent plan.now) 0 (length mask.old) }
    ensures mask_after { mask.new ≡ mask_after (lent plan.now) 0 at_configured mask.old }
{
    mask_by(plan, Ok(()), at_configured(plan.configured), mask)
}

// The mask at a roll.
// Refuses 1, 2, 4, 5, 20, 6, 17 of the plan, then 7 (specs/Mask, `cells_refusal`).
#[tactic(auto, unfolding(crate::specs::Mask::mask_after))]
pub fn in_constraint_batch_at_roll(
    plan: &Plan,
    roll: EvaluationRoll,
    mask: &mut [u8],
) -> Result<u64, Refusal>
    ensures result_value { replied result ≡ cells_reply (lent plan.now) 0 (length mask.old) }
    ensures mask_after { mask.new ≡ mask_after (lent plan.now) 0 (at_roll roll) mask.old }
{
    mask_by(plan, Ok(()), at_roll(roll, plan.configured), mask)
}

// The cells that every one of n even samples violates, by their distance from the nearest sample.
// Refuses 1, 2, 3, 4, 5, 20, 6, 17 of the plan, then 7 (specs/Mask, `cells_refusal`).
#[tactic(auto, unfolding(crate::specs::Mask::mask_after))]
pub fn in_constraint_batch_constrained_at_every_roll(
    plan: &Plan,
    n: u64,
    mask: &mut [u8],
) -> Result<u64, Refusal>
    ensures result_value { replied result ≡ cells_reply (lent plan.now) (samples_or_none_refusal n) (length mask.old) }
    ensures mask_after { mask.new ≡ mask_after (lent plan.now) (samples_or_none_refusal n) (at_every_roll n) mask.old }
{
    let rule = at_every_roll(n, plan.configured);
    mask_by(plan, samples_or_none_refusal(n), rule, mask)
}
