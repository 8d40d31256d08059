// What a sweep costs, from the plan's size alone, and a plan of a size that costs most, and one that costs least.
#![tactic(auto)]

ghost use Rattle.std.specs.Prelude.{◌≡◌, false, ◌≤◌, ◌<◌, length};
ghost use Rattle.buffers.specs.Lent.{over};
ghost use Rattle.buffers.specs.Refusal.{found, replied};
ghost use Rattle.solar_roll.specs.Plan.{most_rows, most_times};
ghost use Rattle.cost.specs.Cost.{size_refusal, cost_reply, cost_after};
ghost use Rattle.cost.specs.Cost.{repeated, plan_of_size, costliest_tolerance, cheapest_tolerance};
ghost use Rattle.cost.specs.Cost.{PlanLists as Lists, lent, same_lists, plan_over, plan_short, writing_reply, plan_written};

use buffers::Refusal;
use journal::{HEADER_LENGTH, LINE_LENGTH};
use solar_roll::{samples_refusal, too_many};

// The lists that a plan is written into: flat lists of triples for the targets' directions and for the Sun's and the
// observer's positions, a tolerance for each target, and the panel's normal.
#[derive(Drop)]
pub struct PlanLists<'a> {
    pub targets: &'a mut [f64],
    pub suns: &'a mut [f64],
    pub observers: &'a mut [f64],
    pub tolerances: &'a mut [f64],
    pub panel: &'a mut [f64],
}

// Here and below a size is three numbers, as C lends it.
// 2, 3 and 7; `short` says that a lent list has too few places.
#[tactic(auto, unfolding(crate::specs::Cost::size_refusal, buffers::specs::Refusal::first, buffers::specs::Refusal::carried))]
fn size_refusal(targets: u64, times: u64, n: u64, short: bool) -> Result<(), Refusal>
    ensures { found result ≡ size_refusal targets times n short }
{
    if too_many(targets as usize, times as usize) {
        return Err(Refusal::TooLarge);
    }
    samples_refusal(n)?;
    if short {
        return Err(Refusal::OutputTooShort);
    }
    Ok(())
}

// The journal's length, the fewest probes and the most, into the first three places.
// Refuses 2, 3, 7 (specs/Cost, `cost_refusal`).
pub fn cost(targets: u64, times: u64, n: u64, out: &mut [u64]) -> Result<u64, Refusal>
    ensures result_value { replied result ≡ cost_reply targets times n (length out.old) }
    ensures out_after { out.new ≡ cost_after targets times n out.old }
{
    size_refusal(targets, times, n, out.len() < 3)?;
    let cells = targets * times;
    let chunks = cells.div_ceil(64);
    let length = HEADER_LENGTH as u64 + LINE_LENGTH as u64 * chunks;
    out[..3].copy_from_slice(&[length, cells, n * cells]);
    Ok(0)
}

// Writes the pattern over and over, so many numbers in all.
// The count goes with the whole list: of a field that is lent as a slice, a proof knows no more afterwards than its length.
fn write_repeated(pattern: &[f64], places: usize, out: &mut [f64])
    requires { (0 < length pattern.now) × (places ≤ length out.old) }
    ensures { out.new ≡ over (repeated places pattern.now) out.old }
{
    for (k, place) in out[..places].iter_mut().enumerate() {
        *place = pattern[k % pattern.len()];
    }
}

impl PlanLists<'_> {
    // 7, of the lists' lengths; by division, as a size that is refused may be any number.
    fn short(&self, targets: usize, times: usize) -> bool
        ensures { let l : Lists = lent self.now in
            result ≡ plan_short targets times (length l.targets) (length l.suns)
            (length l.observers) (length l.tolerances) (length l.panel) }
    {
        if self.targets.len() / 3 < targets {
            return true;
        }
        if self.suns.len() / 3 < times {
            return true;
        }
        if self.observers.len() / 3 < times {
            return true;
        }
        if self.tolerances.len() < targets {
            return true;
        }
        self.panel.len() < 3
    }

    // Writes each list of the plan of this size in which every tolerance is the same.
    fn write(&mut self, targets: usize, times: usize, tolerance: f64)
        requires { let l : Lists = lent self.old in
            (targets ≤ most_rows) × (times ≤ most_times)
            × (plan_short targets times (length l.targets) (length l.suns)
            (length l.observers) (length l.tolerances) (length l.panel) ≡ false) }
        ensures value { lent self.new ≡ plan_over (plan_of_size targets times tolerance) (lent self.old) }
        ensures same { same_lists self.old self.new }
    {
        let x = [1.0, 0.0, 0.0];
        let y = [0.0, 1.0, 0.0];
        let origin = [0.0, 0.0, 0.0];
        write_repeated(&x, 3 * targets, self.targets);
        write_repeated(&y, 3 * times, self.suns);
        write_repeated(&origin, 3 * times, self.observers);
        write_repeated(&[tolerance], targets, self.tolerances);
        write_repeated(&y, 3, self.panel);
    }

    // Writes the plan of this size in which every tolerance is the same, unless refused.
    fn write_plan(
        &mut self,
        targets: u64,
        times: u64,
        n: u64,
        tolerance: f64,
    ) -> Result<u64, Refusal>
        ensures result_value { replied result ≡ writing_reply targets times n (lent self.old) }
        ensures lists_after { lent self.new ≡ plan_written targets times n tolerance (lent self.old) }
        ensures same { same_lists self.old self.new }
    {
        let short = self.short(targets as usize, times as usize);
        size_refusal(targets, times, n, short)?;
        self.write(targets as usize, times as usize, tolerance);
        Ok(0)
    }
}

// Writes a plan of this size that reaches the most probes: every tolerance is -1. It and `cheapest_plan` stay two calls, by
// the names that C has.
// Refuses 2, 3, 7 (specs/Cost, `writing_refusal`).
pub fn costliest_plan(
    targets: u64,
    times: u64,
    n: u64,
    lists: &mut PlanLists,
) -> Result<u64, Refusal>
    ensures result_value { replied result ≡ writing_reply targets times n (lent lists.old) }
    ensures lists_after { lent lists.new ≡ plan_written targets times n costliest_tolerance (lent lists.old) }
    ensures same { same_lists lists.old lists.new }
{
    lists.write_plan(targets, times, n, -1.0)
}

// Writes a plan of this size that reaches the fewest probes: every tolerance is 180.
// Refuses 2, 3, 7 (specs/Cost, `writing_refusal`).
pub fn cheapest_plan(
    targets: u64,
    times: u64,
    n: u64,
    lists: &mut PlanLists,
) -> Result<u64, Refusal>
    ensures result_value { replied result ≡ writing_reply targets times n (lent lists.old) }
    ensures lists_after { lent lists.new ≡ plan_written targets times n cheapest_tolerance (lent lists.old) }
    ensures same { same_lists lists.old lists.new }
{
    lists.write_plan(targets, times, n, 180.0)
}
