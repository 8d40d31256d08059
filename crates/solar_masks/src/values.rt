// Named values: the optimal roll of each cell, of free cells too.
ghost use Rattle.std.specs.Prelude.{◌≡◌, ◌≤◌, length};
ghost use Rattle.buffers.specs.Refusal.{accepted, replied};
ghost use Rattle.solar_roll.specs.Roll.{roll_deg_in};
ghost use Rattle.solar_roll.specs.Plan.{Plan as PlanOf, lent};
ghost use Rattle.solar_masks.specs.Mask.{ValuesInTurn, cells_reply, values_after};

use crate::cells::{Cells, write_cells};
use crate::mask::cells_refusal;
use buffers::Refusal;
use solar_roll::{Plan, rolls_deg_in};

// The optimal roll of a cell, on a panel of that angle.
#[derive(Clone, Copy)]
struct Rolls {
    panel_angle: f64,
}

impl Cells for Rolls {
    type Entry = f64;

    ghost entry = { λ s axes tolerance unit. roll_deg_in axes unit s.panel_angle };

    fn write(
        &self,
        axes: [[f64; 3]; 3],
        tolerance_deg: f64,
        units: &[[f64; 3]],
        entries: &mut [f64],
    ) {
        rolls_deg_in(axes, units, self.panel_angle, entries);
    }
}

// The optimal roll of each cell.
// Refuses 1, 2, 4, 5, 20, 6, 17 of the plan, then 7 (specs/Mask, `cells_refusal`).
pub fn named_values(plan: &Plan, values: &mut [f64]) -> Result<u64, Refusal>
    ensures result_value { replied result ≡ cells_reply (lent plan.now) 0 (length values.old) }
    ensures values_after { values.new ≡ values_after (lent plan.now) values.old }
    ensures in_turn { let p : PlanOf = lent plan.now in
        (3 ≤ length p.panels → replied result ≡ accepted 0 → ValuesInTurn p values.new) }
{
    cells_refusal(plan, Ok(()), values.len())?;
    // The rows share their panel: it is worked out once.
    let panel_angle = plan.panel_at(0).angle;
    write_cells(plan, &Rolls { panel_angle }, values);
    Ok(0)
}
