// Field of regard: the mark of each row at one time.
ghost use Rattle.std.specs.Prelude.{◌≡◌, ◌≤◌, length};
ghost use Rattle.buffers.specs.Lent.{filled};
ghost use Rattle.buffers.specs.Refusal.{found, replied};
ghost use Rattle.solar_roll.specs.Plan.{Plan as PlanOf, lent, rows_of, samples_or_none_refusal};
ghost use Rattle.solar_masks.specs.Mask.{at_roll, at_every_roll, mark_at};
ghost use Rattle.solar_masks.specs.Field.{field_refusal, field_reply, field_after};
ghost use Rattle.solar_roll.specs.declared.cell.EvaluationRoll.TheVariants.{Sweep};

use crate::mask::{MarkRule, at_every_roll, at_roll, mark_byte};
use buffers::Refusal;
use solar_roll::{
    EvaluationRoll, Plan, body_axes, roll_in, samples_or_none_refusal, sun_unit, triple,
};

// Writes the byte of each row at a time.
fn mark_column(plan: &Plan, time: usize, rule: MarkRule, mask: &mut [u8])
    requires { let p : PlanOf = lent plan.now in
        rows_of p ≤ length mask.old }
    ensures { let p : PlanOf = lent plan.now in
        mask.new ≡ filled (rows_of p) (λ r. mark_at p rule r time) mask.old }
{
    // The rows share their panel: it is worked out once.
    let panel = plan.panel_at(0);
    let unit = sun_unit(triple(plan.suns, time), triple(plan.observers, time));
    for row in 0..plan.rows() {
        let cell = roll_in(body_axes(plan.direction(row)), unit, panel);
        mask[row] = mark_byte(cell, rule, plan.row_config(row).tolerance_deg);
    }
}

// The plan's refusal, or 9 for no such time, or 7 for too little room.
#[tactic(auto, using(crate::proofs::Calls::field_parts), unfolding(buffers::specs::Refusal::first, buffers::specs::Refusal::carried))]
fn field_refusal(
    plan: &Plan,
    said: Result<(), Refusal>,
    time: u64,
    room: usize,
) -> Result<(), Refusal>
    ensures { found result ≡ field_refusal (lent plan.now) (found said) time room }
{
    plan.refusal(said, false)?;
    if (plan.times() as u64) <= time {
        return Err(Refusal::NoSuchIndex);
    }
    if room < plan.rows() {
        return Err(Refusal::OutputTooShort);
    }
    Ok(())
}

// A call for a field of regard: its refusals, then the marks by a rule. `said` is said in the place of 3.
#[tactic(auto, using(buffers::proofs::Refusals::err_replied, buffers::proofs::Refusals::ok_replied), unfolding(crate::specs::Field::field_reply))]
fn field_by(
    plan: &Plan,
    said: Result<(), Refusal>,
    time: u64,
    rule: MarkRule,
    mask: &mut [u8],
) -> Result<u64, Refusal>
    ensures result_value { replied result ≡ field_reply (lent plan.now) (found said) time (length mask.old) }
    ensures mask_after { mask.new ≡ field_after (lent plan.now) (found said) time (λ configured. rule) mask.old }
{
    field_refusal(plan, said, time, mask.len())?;
    mark_column(plan, time as usize, rule, mask);
    Ok(0)
}

// The rows whose optimal roll at a time is further from every multiple of 360 / n than the tolerance; with a configured roll, those that it violates.
// Refuses 1, 2, 3, 4, 5, 20, 6, 17 of the plan, then 9, 7 (specs/Field, `field_refusal`).
#[tactic(auto, unfolding(crate::specs::Field::field_after))]
pub fn field_of_regard_violated_batch(
    plan: &Plan,
    time: u64,
    n: u64,
    mask: &mut [u8],
) -> Result<u64, Refusal>
    ensures result_value { replied result ≡ field_reply (lent plan.now) (samples_or_none_refusal n) time (length mask.old) }
    ensures mask_after { mask.new ≡ field_after (lent plan.now) (samples_or_none_refusal n) time (at_every_roll n) mask.old }
{
    let rule = at_every_roll(n, plan.configured);
    field_by(plan, samples_or_none_refusal(n), time, rule, mask)
}

// The rows violated at a time, at the configured roll, else at the roll that is handed in.
// Refuses 1, 2, 4, 5, 20, 6, 17 of the plan, then 9, 7 (specs/Field, `field_refusal`).
#[tactic(auto, unfolding(crate::specs::Field::field_after))]
pub fn field_of_regard_violated_at_roll(
    plan: &Plan,
    time: u64,
    roll_deg: f64,
    mask: &mut [u8],
) -> Result<u64, Refusal>
    ensures result_value { replied result ≡ field_reply (lent plan.now) 0 time (length mask.old) }
    ensures mask_after { mask.new ≡ field_after (lent plan.now) 0 time (at_roll (Sweep roll_deg)) mask.old }
{
    let rule = at_roll(EvaluationRoll::Sweep(roll_deg), plan.configured);
    field_by(plan, Ok(()), time, rule, mask)
}
