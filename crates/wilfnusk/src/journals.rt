// Begin, work, work over a range, recover and collect.
ghost use Rattle.std.specs.Prelude.{◌≡◌};
ghost use Rattle.solar_roll.specs.Plan.{Plan};
ghost use Rattle.roll_sweep.specs.Sweep.{Sweep};
ghost use Rattle.journal.specs.Calls.{begin_reply, begin_bytes, work_reply, work_bytes, recover_reply, collect_reply, collect_mask};
ghost use Rattle.journal.specs.Range.{range_reply, range_bytes, range_stopped};
ghost use Rattle.journal.specs.Plan.{even_sweep};
ghost use Rattle.wilfnusk.specs.Answers.{int64};
ghost use Rattle.wilfnusk.specs.Plans.{lent_plan};

use crate::answers::int64;
use crate::plans::configured;
use solar_roll::Plan as LentPlan;

// Refuses 1, 2, 3, 4, 5, 20, 6, 17 of the plan, then 13, 7 (journal: specs/Calls, `begin_refusal`).
#[unsafe(no_mangle)]
pub extern "C" fn wilfnusk_begin(
    targets: &[f64],
    suns: &[f64],
    observers: &[f64],
    tolerances: &[f64],
    has_roll: u64,
    roll_deg: f64,
    panel_x: f64,
    panel_y: f64,
    panel_z: f64,
    n: u64,
    journal: &mut [u8],
    used: u64,
) -> u64
    ensures { let p : Plan = lent_plan targets.now suns.now observers.now
        tolerances.now has_roll roll_deg panel_x panel_y panel_z in
        let s : Sweep = even_sweep p n in
        (result ≡ int64 (begin_reply s journal.old used))
        × (journal.new ≡ begin_bytes s journal.old used) }
{
    let panels = [panel_x, panel_y, panel_z];
    let plan = LentPlan {
        targets,
        suns,
        observers,
        tolerances,
        configured: configured(has_roll, roll_deg),
        panels: &panels,
    };
    int64(journal::begin(&plan, n, journal, used))
}

// Refuses 1, 2, 3, 4, 5, 20, 6, 17 of the plan, then 9, 11, 12, 10, 7 (journal: specs/Calls, `work_refusal`).
#[unsafe(no_mangle)]
pub extern "C" fn wilfnusk_work(
    targets: &[f64],
    suns: &[f64],
    observers: &[f64],
    tolerances: &[f64],
    has_roll: u64,
    roll_deg: f64,
    panel_x: f64,
    panel_y: f64,
    panel_z: f64,
    n: u64,
    chunk: u64,
    journal: &mut [u8],
    used: u64,
) -> u64
    ensures { let p : Plan = lent_plan targets.now suns.now observers.now
        tolerances.now has_roll roll_deg panel_x panel_y panel_z in
        let s : Sweep = even_sweep p n in
        (result ≡ int64 (work_reply s chunk journal.old used))
        × (journal.new ≡ work_bytes s chunk journal.old used) }
{
    let panels = [panel_x, panel_y, panel_z];
    let plan = LentPlan {
        targets,
        suns,
        observers,
        tolerances,
        configured: configured(has_roll, roll_deg),
        panels: &panels,
    };
    int64(journal::work(&plan, n, chunk, journal, used))
}

// Refuses 1, 2, 3, 4, 5, 20, 6, 17 of the plan, then 9, 11, 12, 10, 7 (journal: specs/Range, `range_refusal`).
#[unsafe(no_mangle)]
pub extern "C" fn wilfnusk_work_range(
    targets: &[f64],
    suns: &[f64],
    observers: &[f64],
    tolerances: &[f64],
    has_roll: u64,
    roll_deg: f64,
    panel_x: f64,
    panel_y: f64,
    panel_z: f64,
    n: u64,
    from: u64,
    to: u64,
    journal: &mut [u8],
    used: u64,
    stopped: &mut u64,
) -> u64
    ensures { let p : Plan = lent_plan targets.now suns.now observers.now
        tolerances.now has_roll roll_deg panel_x panel_y panel_z in
        let s : Sweep = even_sweep p n in
        (result ≡ int64 (range_reply s from to journal.old used))
        × (journal.new ≡ range_bytes s from to journal.old used)
        × (stopped.new ≡ range_stopped s from to journal.old used stopped.old) }
{
    let panels = [panel_x, panel_y, panel_z];
    let plan = LentPlan {
        targets,
        suns,
        observers,
        tolerances,
        configured: configured(has_roll, roll_deg),
        panels: &panels,
    };
    int64(journal::work_range(&plan, n, from, to, journal, used, stopped))
}

// Refuses 1, 2, 3, 4, 5, 20, 6, 17 of the plan, then 11 (journal: specs/Calls, `recover_refusal`).
#[unsafe(no_mangle)]
pub extern "C" fn wilfnusk_recover(
    targets: &[f64],
    suns: &[f64],
    observers: &[f64],
    tolerances: &[f64],
    has_roll: u64,
    roll_deg: f64,
    panel_x: f64,
    panel_y: f64,
    panel_z: f64,
    n: u64,
    journal: &[u8],
    used: u64,
) -> u64
    ensures { let p : Plan = lent_plan targets.now suns.now observers.now
        tolerances.now has_roll roll_deg panel_x panel_y panel_z in
        let s : Sweep = even_sweep p n in
        result ≡ int64 (recover_reply s journal.now used) }
{
    let panels = [panel_x, panel_y, panel_z];
    let plan = LentPlan {
        targets,
        suns,
        observers,
        tolerances,
        configured: configured(has_roll, roll_deg),
        panels: &panels,
    };
    int64(journal::recover(&plan, n, journal, used))
}

// Refuses 1, 2, 3, 4, 5, 20, 6, 17 of the plan, then 11, 12, 15, 7 (journal: specs/Calls, `collect_refusal`).
#[unsafe(no_mangle)]
pub extern "C" fn wilfnusk_collect(
    targets: &[f64],
    suns: &[f64],
    observers: &[f64],
    tolerances: &[f64],
    has_roll: u64,
    roll_deg: f64,
    panel_x: f64,
    panel_y: f64,
    panel_z: f64,
    n: u64,
    journal: &[u8],
    used: u64,
    mask: &mut [u8],
) -> u64
    ensures { let p : Plan = lent_plan targets.now suns.now observers.now
        tolerances.now has_roll roll_deg panel_x panel_y panel_z in
        let s : Sweep = even_sweep p n in
        (result ≡ int64 (collect_reply s journal.now used mask.old))
        × (mask.new ≡ collect_mask s journal.now used mask.old) }
{
    let panels = [panel_x, panel_y, panel_z];
    let plan = LentPlan {
        targets,
        suns,
        observers,
        tolerances,
        configured: configured(has_roll, roll_deg),
        panels: &panels,
    };
    int64(journal::collect(&plan, n, journal, used, mask))
}
