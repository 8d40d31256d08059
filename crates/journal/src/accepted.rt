// Work, recover and collect once the plan has passed.
ghost use Rattle.std.specs.Prelude.{◌≡◌, ℕ, length};
ghost use Rattle.buffers.specs.Refusal.{found, replied};
ghost use Rattle.roll_sweep.specs.Sweep.{Sweep};
ghost use Rattle.journal.specs.Calls.{work_refusal, recover_reply, collect_reply, collect_mask};
ghost use Rattle.journal.specs.Right.{whole_lines};
ghost use Rattle.journal.specs.Pass.{Tables, Passed, Blank, Bounded};

use crate::line::LINE_LENGTH;
use crate::mask::{all_seen, write_cells};
use crate::pass::{MOST_CHUNKS, check_journal, is_torn, kept_length};
use crate::plan::PassedPlan;
use buffers::Refusal;

// Work's first refusal. The tables come blank, and are filled if there is none.
pub(crate) fn check_work(
    plan: &PassedPlan,
    chunk: u64,
    journal: &[u8],
    used: u64,
    seen: &mut [bool],
    masks: &mut [u64],
) -> Result<(), Refusal>
    requires bounded { Bounded plan.now journal.now used }
    requires blank { Blank seen.old masks.old }
    ensures refusal { (s : Sweep) → Passed s plan.now (length journal.now) used → found result ≡ work_refusal s chunk journal.now used }
    ensures tables { found result ≡ 0 → Tables journal.now (whole_lines used) seen.new masks.new }
{
    if plan.cells.div_ceil(64) <= chunk {
        return Err(Refusal::NoSuchIndex);
    }
    check_journal(plan, journal, used as usize, seen, masks).ok_or(Refusal::JournalNotRight)?;
    if is_torn(used as usize) {
        return Err(Refusal::JournalTorn);
    }
    if seen[chunk as usize] {
        return Err(Refusal::ChunkHasLine);
    }
    if journal.len() as u64 - used < LINE_LENGTH as u64 {
        return Err(Refusal::OutputTooShort);
    }
    Ok(())
}

// Gives the used length that is left after a power failure.
pub(crate) fn recover_used(plan: &PassedPlan, journal: &[u8], used: u64) -> Result<u64, Refusal>
    requires { Bounded plan.now journal.now used }
    ensures { (s : Sweep) → Passed s plan.now (length journal.now) used → replied result ≡ recover_reply s journal.now used }
{
    let mut seen = [false; MOST_CHUNKS];
    let mut masks = [0u64; MOST_CHUNKS];
    check_journal(plan, journal, used as usize, &mut seen, &mut masks).ok_or(
        Refusal::JournalNotRight,
    )?;
    Ok(kept_length(used as usize) as u64)
}

// Writes the mask that the journal's lines hold, and gives the sum of their probes.
pub(crate) fn collect_lines(
    plan: &PassedPlan,
    journal: &[u8],
    used: u64,
    mask: &mut [u8],
) -> Result<u64, Refusal>
    requires { Bounded plan.now journal.now used }
    ensures { (s : Sweep) → Passed s plan.now (length journal.now) used
        → (replied result ≡ collect_reply s journal.now used mask.old)
        × (mask.new ≡ collect_mask s journal.now used mask.old) }
{
    let mut seen = [false; MOST_CHUNKS];
    let mut masks = [0u64; MOST_CHUNKS];
    let probes = check_journal(plan, journal, used as usize, &mut seen, &mut masks).ok_or(
        Refusal::JournalNotRight,
    )?;
    if is_torn(used as usize) {
        return Err(Refusal::JournalTorn);
    }
    let cells = plan.cells as usize;
    if !all_seen(&seen[..cells.div_ceil(64)]) {
        return Err(Refusal::ChunkLacksLine);
    }
    if mask.len() < cells {
        return Err(Refusal::OutputTooShort);
    }
    write_cells(&mut mask[..cells], &masks);
    Ok(probes)
}
