// A lent plan, as the calls on a journal see it.
ghost use Rattle.std.specs.Prelude.{◌≡◌, List, ltb, Float, length, Ok};
ghost use Rattle.buffers.specs.Refusal.{found};
ghost use Rattle.solar_roll.specs.Plan.{Plan as PlanOf, lent};
ghost use Rattle.journal.specs.declared.plan.PassedPlan.{PassedPlan};
ghost use Rattle.journal.specs.Pass.{Passed};
ghost use Rattle.journal.specs.Plan.{sweep_of, Says};

use crate::header::{HEADER_LENGTH, write_header};
use buffers::Refusal;
use solar_roll::Plan;

// What work, recover and collect see of a plan that has passed: its header, how many cells it has, and how many samples.
#[derive(Clone, Copy)]
pub struct PassedPlan {
    pub header: [u8; HEADER_LENGTH],
    pub cells: u64,
    pub samples: u64,
}

// How many rolls there are, and what is said of them in the place of 3.
#[derive(Clone, Copy)]
pub struct Samples {
    pub count: u64,
    pub said: Result<(), Refusal>,
    ghost says: { Says (found said) count },
}

// Tries *Plan*, for any rolls of this number, and a journal of `room` bytes.
pub(crate) fn passed_plan(
    plan: &Plan,
    samples: Samples,
    room: u64,
    used: u64,
) -> Result<PassedPlan, Refusal>
    ensures refusal { (rolls : List Float) → length rolls ≡ samples.count
        → found result ≡ (sweep_of (lent plan.now) rolls (found samples.said)).refusal (ltb room used) }
    ensures passed { (rolls : List Float) → length rolls ≡ samples.count → (p : PassedPlan) → result ≡ Ok p
        → Passed (sweep_of (lent plan.now) rolls (found samples.said)) p room used }
{
    plan.refusal(samples.said, room < used)?;
    let cells = plan.rows() as u64 * plan.times() as u64;
    let mut header = [0u8; HEADER_LENGTH];
    write_header(&mut header, plan, samples.count);
    Ok(PassedPlan {
        header,
        cells,
        samples: samples.count,
    })
}
