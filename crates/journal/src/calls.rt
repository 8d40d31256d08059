// Begin, work, work over a range, recover and collect on a plan. Each tries its refusals in their order, and writes nothing until all have passed.
// A journal is a buffer and its used length, as C lends it: what is right is said of the whole buffer (specs/Right, `right`).
ghost use Rattle.std.specs.Prelude.{◌≡◌, List, Float, length};
ghost use Rattle.buffers.specs.Refusal.{found, replied};
ghost use Rattle.solar_roll.specs.Plan.{Plan as PlanOf, lent};
ghost use Rattle.roll_sweep.specs.Sweep.{Sweep};
ghost use Rattle.journal.specs.Calls.{begin_reply, begin_bytes, work_reply, work_bytes, recover_reply, collect_reply, collect_mask};
ghost use Rattle.journal.specs.Range.{range_reply, range_bytes, range_stopped};
ghost use Rattle.journal.specs.Plan.{sweep_of, even_sweep};

use crate::accepted::{collect_lines, recover_used};
use crate::header::{HEADER_LENGTH, write_header};
use crate::plan::{Samples, passed_plan};
use crate::range::work_even;
use buffers::Refusal;
use solar_roll::{Plan, samples_refusal};

// Begin, over any rolls of this number.
pub(crate) fn begin_samples(
    plan: &Plan,
    samples: Samples,
    journal: &mut [u8],
    used: u64,
) -> Result<u64, Refusal>
    ensures { let p : PlanOf = lent plan.now in
        ((rolls : List Float) → length rolls ≡ samples.count → (replied result ≡ begin_reply (sweep_of p rolls (found samples.said)) journal.old used)
        × (journal.new ≡ begin_bytes (sweep_of p rolls (found samples.said)) journal.old used)) }
{
    let room = journal.len() as u64;
    plan.refusal(samples.said, room < used)?;
    if used != 0 {
        return Err(Refusal::JournalNotEmpty);
    }
    if room < HEADER_LENGTH as u64 {
        return Err(Refusal::OutputTooShort);
    }
    write_header(journal, plan, samples.count);
    Ok(HEADER_LENGTH as u64)
}

// Makes the journal the header, and gives the used length.
// Refuses 1, 2, 3, 4, 5, 20, 6, 17 of the plan, then 13, 7 (specs/Calls, `begin_refusal`).
pub fn begin(plan: &Plan, n: u64, journal: &mut [u8], used: u64) -> Result<u64, Refusal>
    ensures { let p : PlanOf = lent plan.now in
        let s : Sweep = even_sweep p n in
        (replied result ≡ begin_reply s journal.old used)
        × (journal.new ≡ begin_bytes s journal.old used) }
{
    let said = samples_refusal(n);
    begin_samples(plan, Samples { count: n, said }, journal, used)
}

// Sweeps a chunk, appends its line, and gives the used length.
// Refuses 1, 2, 3, 4, 5, 20, 6, 17 of the plan, then 9, 11, 12, 10, 7 (specs/Calls, `work_refusal`).
pub fn work(plan: &Plan, n: u64, chunk: u64, journal: &mut [u8], used: u64) -> Result<u64, Refusal>
    ensures { let p : PlanOf = lent plan.now in
        let s : Sweep = even_sweep p n in
        (replied result ≡ work_reply s chunk journal.old used)
        × (journal.new ≡ work_bytes s chunk journal.old used) }
{
    let mut stopped = chunk;
    work_even(plan, n, chunk, 1, journal, used, &mut stopped)
}

// Works of the chunks from, from + 1, .., up to the first that work refuses, or `to`, with one check of the journal at the start. Gives the used
// length, and the chunk at which it stopped.
// Refuses 1, 2, 3, 4, 5, 20, 6, 17 of the plan, then 9, 11, 12, 10, 7 (specs/Range, `range_refusal`).
pub fn work_range(
    plan: &Plan,
    n: u64,
    from: u64,
    to: u64,
    journal: &mut [u8],
    used: u64,
    stopped: &mut u64,
) -> Result<u64, Refusal>
    ensures { let p : PlanOf = lent plan.now in
        let s : Sweep = even_sweep p n in
        (replied result ≡ range_reply s from to journal.old used)
        × (journal.new ≡ range_bytes s from to journal.old used)
        × (stopped.new ≡ range_stopped s from to journal.old used stopped.old) }
{
    let limit = if from < to { to - from } else { 0 };
    work_even(plan, n, from, limit, journal, used, stopped)
}

// Recover, over any rolls of this number.
pub(crate) fn recover_samples(
    plan: &Plan,
    samples: Samples,
    journal: &[u8],
    used: u64,
) -> Result<u64, Refusal>
    ensures { let p : PlanOf = lent plan.now in
        ((rolls : List Float) → length rolls ≡ samples.count → replied result ≡ recover_reply (sweep_of p rolls (found samples.said)) journal.now used) }
{
    let room = journal.len() as u64;
    let passed = passed_plan(plan, samples, room, used)?;
    recover_used(&passed, journal, used)
}

// Gives the used length that is left after a power failure.
// Refuses 1, 2, 3, 4, 5, 20, 6, 17 of the plan, then 11 (specs/Calls, `recover_refusal`).
pub fn recover(plan: &Plan, n: u64, journal: &[u8], used: u64) -> Result<u64, Refusal>
    ensures { let p : PlanOf = lent plan.now in
        let s : Sweep = even_sweep p n in
        replied result ≡ recover_reply s journal.now used }
{
    let said = samples_refusal(n);
    recover_samples(plan, Samples { count: n, said }, journal, used)
}

// Collect, over any rolls of this number.
pub(crate) fn collect_samples(
    plan: &Plan,
    samples: Samples,
    journal: &[u8],
    used: u64,
    mask: &mut [u8],
) -> Result<u64, Refusal>
    ensures { let p : PlanOf = lent plan.now in
        ((rolls : List Float) → length rolls ≡ samples.count
        → (replied result ≡ collect_reply (sweep_of p rolls (found samples.said)) journal.now used mask.old)
        × (mask.new ≡ collect_mask (sweep_of p rolls (found samples.said)) journal.now used mask.old)) }
{
    let room = journal.len() as u64;
    let passed = passed_plan(plan, samples, room, used)?;
    collect_lines(&passed, journal, used, mask)
}

// Writes the mask that the journal's lines hold, and gives the sum of their probes.
// Refuses 1, 2, 3, 4, 5, 20, 6, 17 of the plan, then 11, 12, 15, 7 (specs/Calls, `collect_refusal`).
pub fn collect(
    plan: &Plan,
    n: u64,
    journal: &[u8],
    used: u64,
    mask: &mut [u8],
) -> Result<u64, Refusal>
    ensures { let p : PlanOf = lent plan.now in
        let s : Sweep = even_sweep p n in
        (replied result ≡ collect_reply s journal.now used mask.old)
        × (mask.new ≡ collect_mask s journal.now used mask.old) }
{
    let said = samples_refusal(n);
    collect_samples(plan, Samples { count: n, said }, journal, used, mask)
}
