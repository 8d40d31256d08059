// Begin, work, work over a range, recover and collect on a plan whose rolls are a lent table: as without `_rolls`, but for the table in the place of n.
// One function over either would be lent an enum of the two; each pair shares its body instead.
ghost use Rattle.std.specs.Prelude.{◌≡◌};
ghost use Rattle.buffers.specs.Refusal.{replied};
ghost use Rattle.solar_roll.specs.Plan.{Plan as PlanOf, lent};
ghost use Rattle.roll_sweep.specs.Sweep.{Sweep};
ghost use Rattle.journal.specs.Calls.{begin_reply, begin_bytes, work_reply, work_bytes, recover_reply, collect_reply, collect_mask};
ghost use Rattle.journal.specs.Range.{range_reply, range_bytes, range_stopped};
ghost use Rattle.journal.specs.Plan.{table_sweep};

use crate::calls::{begin_samples, collect_samples, recover_samples};
use crate::plan::Samples;
use crate::range::work_over;
use buffers::Refusal;
use roll_sweep::table_refusal;
use solar_roll::Plan;

// As `begin`, over a lent table of rolls.
// Refuses 1, 2, 18, 19, 4, 5, 20, 6, 17 of the plan, then 13, 7 (specs/Calls, `begin_refusal`).
pub fn begin_rolls(
    plan: &Plan,
    rolls: &[f64],
    journal: &mut [u8],
    used: u64,
) -> Result<u64, Refusal>
    ensures { let p : PlanOf = lent plan.now in
        let s : Sweep = table_sweep p rolls.now in
        (replied result ≡ begin_reply s journal.old used)
        × (journal.new ≡ begin_bytes s journal.old used) }
{
    let said = table_refusal(rolls);
    let count = rolls.len() as u64;
    begin_samples(plan, Samples { count, said }, journal, used)
}

// As `work`, over a lent table of rolls.
// Refuses 1, 2, 18, 19, 4, 5, 20, 6, 17 of the plan, then 9, 11, 12, 10, 7 (specs/Calls, `work_refusal`).
pub fn work_rolls(
    plan: &Plan,
    rolls: &[f64],
    chunk: u64,
    journal: &mut [u8],
    used: u64,
) -> Result<u64, Refusal>
    ensures { let p : PlanOf = lent plan.now in
        let s : Sweep = table_sweep p rolls.now in
        (replied result ≡ work_reply s chunk journal.old used)
        × (journal.new ≡ work_bytes s chunk journal.old used) }
{
    let said = table_refusal(rolls);
    let mut stopped = chunk;
    work_over(plan, rolls, said, chunk, 1, journal, used, &mut stopped)
}

// As `work_range`, over a lent table of rolls.
// Refuses 1, 2, 18, 19, 4, 5, 20, 6, 17 of the plan, then 9, 11, 12, 10, 7 (specs/Range, `range_refusal`).
pub fn work_range_rolls(
    plan: &Plan,
    rolls: &[f64],
    from: u64,
    to: u64,
    journal: &mut [u8],
    used: u64,
    stopped: &mut u64,
) -> Result<u64, Refusal>
    ensures { let p : PlanOf = lent plan.now in
        let s : Sweep = table_sweep p rolls.now in
        (replied result ≡ range_reply s from to journal.old used)
        × (journal.new ≡ range_bytes s from to journal.old used)
        × (stopped.new ≡ range_stopped s from to journal.old used stopped.old) }
{
    let said = table_refusal(rolls);
    let limit = if from < to { to - from } else { 0 };
    work_over(plan, rolls, said, from, limit, journal, used, stopped)
}

// As `recover`, over a lent table of rolls.
// Refuses 1, 2, 18, 19, 4, 5, 20, 6, 17 of the plan, then 11 (specs/Calls, `recover_refusal`).
pub fn recover_rolls(plan: &Plan, rolls: &[f64], journal: &[u8], used: u64) -> Result<u64, Refusal>
    ensures { let p : PlanOf = lent plan.now in
        let s : Sweep = table_sweep p rolls.now in
        replied result ≡ recover_reply s journal.now used }
{
    let said = table_refusal(rolls);
    let count = rolls.len() as u64;
    recover_samples(plan, Samples { count, said }, journal, used)
}

// As `collect`, over a lent table of rolls.
// Refuses 1, 2, 18, 19, 4, 5, 20, 6, 17 of the plan, then 11, 12, 15, 7 (specs/Calls, `collect_refusal`).
pub fn collect_rolls(
    plan: &Plan,
    rolls: &[f64],
    journal: &[u8],
    used: u64,
    mask: &mut [u8],
) -> Result<u64, Refusal>
    ensures { let p : PlanOf = lent plan.now in
        let s : Sweep = table_sweep p rolls.now in
        (replied result ≡ collect_reply s journal.now used mask.old)
        × (mask.new ≡ collect_mask s journal.now used mask.old) }
{
    let said = table_refusal(rolls);
    let count = rolls.len() as u64;
    collect_samples(plan, Samples { count, said }, journal, used, mask)
}
