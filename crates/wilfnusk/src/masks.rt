// Masks, rows, the field of regard and the named values of a plan.
ghost use Rattle.std.specs.Prelude.{◌≡◌, length};
ghost use Rattle.solar_roll.specs.Plan.{Plan, samples_or_none_refusal};
ghost use Rattle.solar_masks.specs.Mask.{at_roll, at_configured, at_every_roll, ValuesInTurn, cells_reply, mask_after, values_after};
ghost use Rattle.solar_masks.specs.Row.{row_reply, row_mask_after, severities_after};
ghost use Rattle.solar_masks.specs.Field.{field_reply, field_after};
ghost use Rattle.solar_roll.specs.declared.cell.EvaluationRoll.TheVariants.{Sweep};
ghost use Rattle.wilfnusk.specs.Answers.{int64};
ghost use Rattle.wilfnusk.specs.Plans.{asked, lent_plan};

use crate::answers::int64;
use crate::plans::{asked, configured};
use solar_roll::Plan as LentPlan;

// Refuses 1, 2, 4, 5, 20, 6, 17 of the plan, then 7 (solar_masks: specs/Mask, `cells_refusal`).
#[unsafe(no_mangle)]
pub extern "C" fn wilfnusk_named_values(
    targets: &[f64],
    suns: &[f64],
    observers: &[f64],
    tolerances: &[f64],
    has_roll: u64,
    roll_deg: f64,
    panel_x: f64,
    panel_y: f64,
    panel_z: f64,
    out: &mut [f64],
) -> u64
    ensures { let p : Plan = lent_plan targets.now suns.now observers.now
        tolerances.now has_roll roll_deg panel_x panel_y panel_z in
        (result ≡ int64 (cells_reply p 0 (length out.old)))
        × (out.new ≡ values_after p out.old)
        × (result ≡ 0 → ValuesInTurn p out.new) }
{
    let panels = [panel_x, panel_y, panel_z];
    let plan = LentPlan {
        targets,
        suns,
        observers,
        tolerances,
        configured: configured(has_roll, roll_deg),
        panels: &panels,
    };
    int64(solar_masks::named_values(&plan, out))
}

// Refuses 1, 2, 4, 5, 20, 6, 17 of the plan, then 7 (solar_masks: specs/Mask, `cells_refusal`).
#[unsafe(no_mangle)]
pub extern "C" fn wilfnusk_in_constraint_batch(
    targets: &[f64],
    suns: &[f64],
    observers: &[f64],
    tolerances: &[f64],
    has_roll: u64,
    roll_deg: f64,
    panel_x: f64,
    panel_y: f64,
    panel_z: f64,
    mask: &mut [u8],
) -> u64
    ensures { let p : Plan = lent_plan targets.now suns.now observers.now
        tolerances.now has_roll roll_deg panel_x panel_y panel_z in
        (result ≡ int64 (cells_reply p 0 (length mask.old)))
        × (mask.new ≡ mask_after p 0 at_configured mask.old) }
{
    let panels = [panel_x, panel_y, panel_z];
    let plan = LentPlan {
        targets,
        suns,
        observers,
        tolerances,
        configured: configured(has_roll, roll_deg),
        panels: &panels,
    };
    int64(solar_masks::in_constraint_batch(&plan, mask))
}

// Refuses 1, 2, 4, 5, 20, 6, 17 of the plan, then 7 (solar_masks: specs/Mask, `cells_refusal`).
#[unsafe(no_mangle)]
pub extern "C" fn wilfnusk_in_constraint_batch_at_roll(
    targets: &[f64],
    suns: &[f64],
    observers: &[f64],
    tolerances: &[f64],
    has_roll: u64,
    roll_deg: f64,
    panel_x: f64,
    panel_y: f64,
    panel_z: f64,
    fixed: u64,
    roll_at_deg: f64,
    mask: &mut [u8],
) -> u64
    ensures { let p : Plan = lent_plan targets.now suns.now observers.now
        tolerances.now has_roll roll_deg panel_x panel_y panel_z in
        (result ≡ int64 (cells_reply p 0 (length mask.old)))
        × (mask.new ≡ mask_after p 0 (at_roll (asked fixed roll_at_deg)) mask.old) }
{
    let panels = [panel_x, panel_y, panel_z];
    let plan = LentPlan {
        targets,
        suns,
        observers,
        tolerances,
        configured: configured(has_roll, roll_deg),
        panels: &panels,
    };
    let roll = asked(fixed, roll_at_deg);
    int64(solar_masks::in_constraint_batch_at_roll(&plan, roll, mask))
}

// Refuses 1, 2, 3, 4, 5, 20, 6, 17 of the plan, then 7 (solar_masks: specs/Mask, `cells_refusal`).
#[unsafe(no_mangle)]
pub extern "C" fn wilfnusk_constrained_at_every_roll(
    targets: &[f64],
    suns: &[f64],
    observers: &[f64],
    tolerances: &[f64],
    has_roll: u64,
    roll_deg: f64,
    panel_x: f64,
    panel_y: f64,
    panel_z: f64,
    n: u64,
    mask: &mut [u8],
) -> u64
    ensures { let p : Plan = lent_plan targets.now suns.now observers.now
        tolerances.now has_roll roll_deg panel_x panel_y panel_z in
        (result ≡ int64 (cells_reply p (samples_or_none_refusal n) (length mask.old)))
        × (mask.new ≡ mask_after p (samples_or_none_refusal n) (at_every_roll n) mask.old) }
{
    let panels = [panel_x, panel_y, panel_z];
    let plan = LentPlan {
        targets,
        suns,
        observers,
        tolerances,
        configured: configured(has_roll, roll_deg),
        panels: &panels,
    };
    int64(solar_masks::in_constraint_batch_constrained_at_every_roll(&plan, n, mask))
}

// Refuses 1, 2, 4, 5, 20, 6, 17 of the plan, then 9, 7 (solar_masks: specs/Row, `row_refusal`).
#[unsafe(no_mangle)]
pub extern "C" fn wilfnusk_evaluate(
    targets: &[f64],
    suns: &[f64],
    observers: &[f64],
    tolerances: &[f64],
    has_roll: u64,
    roll_deg: f64,
    panel_x: f64,
    panel_y: f64,
    panel_z: f64,
    target: u64,
    mask: &mut [u8],
    severities: &mut [f64],
) -> u64
    ensures { let p : Plan = lent_plan targets.now suns.now observers.now
        tolerances.now has_roll roll_deg panel_x panel_y panel_z in
        (result ≡ int64 (row_reply p target (length mask.old) (length severities.old)))
        × (mask.new ≡ row_mask_after p target mask.old severities.old)
        × (severities.new ≡ severities_after p target mask.old severities.old) }
{
    let panels = [panel_x, panel_y, panel_z];
    let plan = LentPlan {
        targets,
        suns,
        observers,
        tolerances,
        configured: configured(has_roll, roll_deg),
        panels: &panels,
    };
    int64(solar_masks::evaluate(&plan, target, mask, severities))
}

// Refuses 1, 2, 3, 4, 5, 20, 6, 17 of the plan, then 9, 7 (solar_masks: specs/Field, `field_refusal`).
#[unsafe(no_mangle)]
pub extern "C" fn wilfnusk_field_of_regard_violated_batch(
    targets: &[f64],
    suns: &[f64],
    observers: &[f64],
    tolerances: &[f64],
    has_roll: u64,
    roll_deg: f64,
    panel_x: f64,
    panel_y: f64,
    panel_z: f64,
    time: u64,
    n: u64,
    mask: &mut [u8],
) -> u64
    ensures { let p : Plan = lent_plan targets.now suns.now observers.now
        tolerances.now has_roll roll_deg panel_x panel_y panel_z in
        (result ≡ int64 (field_reply p (samples_or_none_refusal n) time (length mask.old)))
        × (mask.new ≡ field_after p (samples_or_none_refusal n) time (at_every_roll n) mask.old) }
{
    let panels = [panel_x, panel_y, panel_z];
    let plan = LentPlan {
        targets,
        suns,
        observers,
        tolerances,
        configured: configured(has_roll, roll_deg),
        panels: &panels,
    };
    int64(solar_masks::field_of_regard_violated_batch(&plan, time, n, mask))
}

// Refuses 1, 2, 4, 5, 20, 6, 17 of the plan, then 9, 7 (solar_masks: specs/Field, `field_refusal`).
#[unsafe(no_mangle)]
pub extern "C" fn wilfnusk_field_of_regard_violated_at_roll(
    targets: &[f64],
    suns: &[f64],
    observers: &[f64],
    tolerances: &[f64],
    has_roll: u64,
    roll_deg: f64,
    panel_x: f64,
    panel_y: f64,
    panel_z: f64,
    time: u64,
    roll_at_deg: f64,
    mask: &mut [u8],
) -> u64
    ensures { let p : Plan = lent_plan targets.now suns.now observers.now
        tolerances.now has_roll roll_deg panel_x panel_y panel_z in
        (result ≡ int64 (field_reply p 0 time (length mask.old)))
        × (mask.new ≡ field_after p 0 time (at_roll (Sweep roll_at_deg)) mask.old) }
{
    let panels = [panel_x, panel_y, panel_z];
    let plan = LentPlan {
        targets,
        suns,
        observers,
        tolerances,
        configured: configured(has_roll, roll_deg),
        panels: &panels,
    };
    int64(solar_masks::field_of_regard_violated_at_roll(&plan, time, roll_at_deg, mask))
}
