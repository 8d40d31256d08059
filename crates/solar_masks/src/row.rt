// One row: its mask and its severities at the configured roll.
ghost use Rattle.std.specs.Prelude.{◌≡◌, ◌≤◌, cond, length, Some, None};
ghost use Rattle.buffers.specs.Lent.{filled};
ghost use Rattle.buffers.specs.Refusal.{found, replied};
ghost use Rattle.solar_roll.specs.Cell.{roll_in, violates};
ghost use Rattle.solar_roll.specs.declared.cell.CellRoll.{CellRoll};
ghost use Rattle.solar_roll.specs.Plan.{Plan as PlanOf, lent, times_of};
ghost use Rattle.solar_masks.specs.Mask.{marked_by, at_configured, mark_at};
ghost use Rattle.solar_masks.specs.Row.{excess, severity, severity_at, row_refusal, row_reply, row_mask_after, severities_after};

use buffers::Refusal;
use solar_roll::{CellRoll, Panel, Plan, body_axes, circular_diff_deg, roll_in, sun_unit, triple};

// The severity of a cell that a roll violates: the difference beyond the tolerance.
#[tactic(auto, unfolding(crate::specs::Row::excess, solar_roll::specs::Cell::violates))]
fn excess(cell: CellRoll, roll_deg: f64, tolerance_deg: f64) -> Option<f64>
    ensures { result ≡ cond (violates cell roll_deg tolerance_deg) (Some (excess cell roll_deg tolerance_deg)) None }
{
    match cell {
        CellRoll::Free => None,
        CellRoll::At(optimal) => {
            let difference = circular_diff_deg(roll_deg, optimal);
            if difference > tolerance_deg {
                Some(difference - tolerance_deg)
            } else {
                None
            }
        }
        CellRoll::Refused(_) => None,
    }
}

// The severity of a cell that the configured roll violates. Without one no roll is worked out.
#[tactic(auto, unfolding(crate::specs::Row::severity, crate::specs::Mask::marked_by, crate::specs::Mask::at_configured))]
fn severity(
    axes: [[f64; 3]; 3],
    sun_unit: [f64; 3],
    panel: Panel,
    configured: Option<f64>,
    tolerance_deg: f64,
) -> Option<f64>
    ensures { let cell : CellRoll = roll_in axes sun_unit panel in
        result ≡ cond (marked_by cell (at_configured configured) tolerance_deg) (Some (severity cell configured tolerance_deg)) None }
{
    let roll = configured?;
    excess(roll_in(axes, sun_unit, panel), roll, tolerance_deg)
}

// Writes a row's bytes and severities.
fn fill_row(plan: &Plan, row: usize, mask: &mut [u8], severities: &mut [f64])
    requires { let p : PlanOf = lent plan.now in
        (times_of p ≤ length mask.old) × (times_of p ≤ length severities.old) }
    ensures mask_after { let p : PlanOf = lent plan.now in
        mask.new ≡ filled (times_of p) (mark_at p (at_configured p.configured) row) mask.old }
    ensures severities_after { let p : PlanOf = lent plan.now in
        severities.new ≡ filled (times_of p) (severity_at p row) severities.old }
{
    let axes = body_axes(plan.direction(row));
    let tolerance = plan.row_config(row).tolerance_deg;
    let panel = plan.panel_at(row);
    for j in 0..plan.times() {
        let unit = sun_unit(triple(plan.suns, j), triple(plan.observers, j));
        let over = severity(axes, unit, panel, plan.configured, tolerance);
        mask[j] = u8::from(over.is_some());
        severities[j] = over.unwrap_or(0.0);
    }
}

// The plan's refusal, or 9 for no such row, or 7 for too little room in either list.
#[tactic(auto, unfolding(crate::specs::Row::row_refusal, crate::specs::Row::row_short, buffers::specs::Refusal::first, buffers::specs::Refusal::carried))]
fn row_refusal(plan: &Plan, row: u64, mask: usize, severities: usize) -> Result<(), Refusal>
    ensures { found result ≡ row_refusal (lent plan.now) row mask severities }
{
    plan.refusal(Ok(()), false)?;
    let times = plan.times();
    if (plan.rows() as u64) <= row {
        return Err(Refusal::NoSuchIndex);
    }
    if mask < times {
        return Err(Refusal::OutputTooShort);
    }
    if severities < times {
        return Err(Refusal::OutputTooShort);
    }
    Ok(())
}

// A row's mask and severities at the configured roll; all zero without one.
// Refuses 1, 2, 4, 5, 20, 6, 17 of the plan, then 9, 7 (specs/Row, `row_refusal`).
#[tactic(auto, using(buffers::proofs::Refusals::err_replied, buffers::proofs::Refusals::ok_replied), unfolding(crate::specs::Row::row_reply))]
pub fn evaluate(
    plan: &Plan,
    row: u64,
    mask: &mut [u8],
    severities: &mut [f64],
) -> Result<u64, Refusal>
    ensures result_value { replied result ≡ row_reply (lent plan.now) row (length mask.old) (length severities.old) }
    ensures mask_after { mask.new ≡ row_mask_after (lent plan.now) row mask.old severities.old }
    ensures severities_after { severities.new ≡ severities_after (lent plan.now) row mask.old severities.old }
{
    row_refusal(plan, row, mask.len(), severities.len())?;
    fill_row(plan, row as usize, mask, severities);
    Ok(0)
}
