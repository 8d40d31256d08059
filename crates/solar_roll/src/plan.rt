// A plan as its calls lend it, and what is refused of it.
ghost use Rattle.std.specs.Prelude.{◌≡◌, get_or, length};
ghost use Rattle.std.specs.Float.{nan};
ghost use Rattle.buffers.specs.Refusal.{found};
ghost use Rattle.solar_roll.specs.Roll.{panel_of};
ghost use Rattle.solar_roll.specs.Plan.{Plan as PlanOf, lent, triple, rows_of, times_of, direction_of, row_panel, config_of};
ghost use Rattle.solar_roll.specs.Plan.{unlike_lengths, too_many, samples_refusal, samples_or_none_refusal, sizes_refusal, lists_refusal, plan_refusal};

use crate::cell::numbers_refusal;
use crate::roll::{Panel, panel_of};
use buffers::Refusal;

// The most rows, times and cells of a plan, and the most samples of a sweep.
pub const MOST_ROWS: usize = 65_536;

pub const MOST_TIMES: usize = 65_536;

pub const MOST_CELLS: usize = 1_048_576;

pub const MOST_SAMPLES: usize = 3_600;

// What a call is lent of a plan: flat lists of triples, the targets' directions and of each time the Sun's and the observer's
// position; a tolerance for each target; the configured roll; and the panels' normals, triples too, of which the first is
// every row's.
#[derive(Clone, Copy)]
pub struct Plan<'a> {
    pub targets: &'a [f64],
    pub suns: &'a [f64],
    pub observers: &'a [f64],
    pub tolerances: &'a [f64],
    pub configured: Option<f64>,
    pub panels: &'a [f64],
}

// The settings of a row.
#[derive(Clone, Copy)]
pub struct SolarRollConfig {
    pub tolerance_deg: f64,
    pub roll_deg: Option<f64>,
    pub panel_normal: [f64; 3],
}

// The k-th number of xs, NaN past the end.
#[tactic(auto, using(crate::proofs::Cells::nan_bits))]
fn number(xs: &[f64], k: usize) -> f64
    ensures { result ≡ get_or xs.now k nan }
{
    xs.get(k).copied().unwrap_or(f64::NAN)
}

// The i-th triple of xs, NaN past the end.
#[tactic(auto, using(crate::proofs::Cells::nan_bits, crate::proofs::Cells::triple_past), unfolding(crate::specs::Vectors::triple))]
pub fn triple(xs: &[f64], i: usize) -> [f64; 3]
    ensures { result ≡ triple xs.now i }
{
    if xs.len() <= i {
        return [f64::NAN; 3];
    }
    let k = 3 * i;
    [number(xs, k), number(xs, k + 1), number(xs, k + 2)]
}

// 1, of the lists' lengths.
#[tactic(auto, unfolding(crate::specs::Plan::unlike_lengths))]
fn unlike_lengths(targets: usize, suns: usize, observers: usize) -> bool
    ensures { result ≡ unlike_lengths targets suns observers }
{
    targets % 3 != 0 || suns % 3 != 0 || suns != observers
}

// 2.
#[tactic(auto, unfolding(crate::specs::Plan::too_many))]
pub fn too_many(rows: usize, times: usize) -> bool
    ensures { result ≡ too_many rows times }
{
    MOST_ROWS < rows || MOST_TIMES < times || MOST_CELLS < rows * times
}

// Refuses 3 unless there are 1 to 3,600 samples.
#[tactic(auto, unfolding(crate::specs::Plan::samples_refusal))]
pub fn samples_refusal(n: u64) -> Result<(), Refusal>
    ensures { found result ≡ samples_refusal n }
{
    if (1..=MOST_SAMPLES as u64).contains(&n) {
        Ok(())
    } else {
        Err(Refusal::RollCountOutOfRange)
    }
}

// Refuses 3 for more than 3,600 samples.
#[tactic(auto, unfolding(crate::specs::Plan::samples_or_none_refusal))]
pub fn samples_or_none_refusal(n: u64) -> Result<(), Refusal>
    ensures { found result ≡ samples_or_none_refusal n }
{
    if n <= MOST_SAMPLES as u64 {
        Ok(())
    } else {
        Err(Refusal::RollCountOutOfRange)
    }
}

impl Plan<'_> {
    // How many rows there are: the targets.
    pub fn rows(&self) -> usize
        ensures { result ≡ rows_of (lent self.now) }
    {
        self.targets.len() / 3
    }

    // How many times each row has: the Sun's positions.
    pub fn times(&self) -> usize
        ensures { result ≡ times_of (lent self.now) }
    {
        self.suns.len() / 3
    }

    // The direction of a row.
    #[tactic(auto, unfolding(crate::specs::Plan::row_direction))]
    pub fn direction(&self, row: usize) -> [f64; 3]
        ensures { result ≡ direction_of (lent self.now) row }
    {
        triple(self.targets, row)
    }

    // The normal of a row's panel: the first, for every row.
    #[tactic(auto, unfolding(crate::specs::Plan::row_panel))]
    fn row_panel(&self, row: usize) -> [f64; 3]
        ensures { result ≡ row_panel self.now.panels.now row }
    {
        triple(self.panels, 0)
    }

    // A row's panel.
    pub fn panel_at(&self, row: usize) -> Panel
        ensures { result ≡ panel_of (row_panel self.now.panels.now row) }
    {
        panel_of(self.row_panel(row))
    }

    // The settings of a row: the tolerance of its target.
    #[tactic(auto, unfolding(crate::specs::Plan::row_config))]
    pub fn row_config(&self, row: usize) -> SolarRollConfig
        ensures { result ≡ config_of (lent self.now) row }
    {
        SolarRollConfig {
            tolerance_deg: number(self.tolerances, row),
            roll_deg: self.configured,
            panel_normal: self.row_panel(row),
        }
    }

    // `beyond` says that a used length lies beyond its buffer.
    // Refuses 1, 2 (specs/Plan, `sizes_refusal`).
    #[tactic(auto, unfolding(crate::specs::Plan::sizes_refusal, buffers::specs::Refusal::first))]
    pub fn sizes_refusal(&self, beyond: bool) -> Result<(), Refusal>
        ensures { let p : PlanOf = lent self.now in
            found result ≡ sizes_refusal (length p.targets) (length p.suns) (length p.observers) beyond }
    {
        if unlike_lengths(self.targets.len(), self.suns.len(), self.observers.len()) || beyond {
            return Err(Refusal::LengthsDoNotFit);
        }
        if too_many(self.rows(), self.times()) {
            return Err(Refusal::TooLarge);
        }
        Ok(())
    }

    // What the lists hold, and how many tolerances there are.
    // Refuses 4, 5, 20, 6, 17 (specs/Plan, `lists_refusal`).
    #[tactic(auto, unfolding(crate::specs::Plan::lists_refusal, buffers::specs::Refusal::first, buffers::specs::Refusal::carried))]
    pub fn lists_refusal(&self) -> Result<(), Refusal>
        ensures { found result ≡ lists_refusal (lent self.now) }
    {
        numbers_refusal(self.targets, self.suns, self.observers, self.panels)?;
        if self.tolerances.len() == self.rows() {
            Ok(())
        } else {
            Err(Refusal::ToleranceCountDiffers)
        }
    }

    // The plan's first refusal. `said` is said in the place of 3.
    // Refuses 1, 2, `said`, 4, 5, 20, 6, 17 (specs/Plan, `plan_refusal`).
    #[tactic(auto, using(crate::proofs::PlanFacts::plan_parts), unfolding(buffers::specs::Refusal::first, buffers::specs::Refusal::carried))]
    pub fn refusal(&self, said: Result<(), Refusal>, beyond: bool) -> Result<(), Refusal>
        ensures { found result ≡ plan_refusal (lent self.now) (found said) beyond }
    {
        self.sizes_refusal(beyond)?;
        said?;
        self.lists_refusal()
    }
}

// The number of the plan's first refusal, 0 for none. `said` is the number said in the place of 3, 0 for none: any number, where
// `Plan::refusal` takes a Refusal, which has no case for a number of a caller's own.
// Refuses 1, 2, `said`, 4, 5, 20, 6, 17 (specs/Plan, `plan_refusal`).
#[tactic(auto, using(crate::proofs::PlanFacts::plan_parts), unfolding(buffers::specs::Refusal::first, buffers::specs::Refusal::carried))]
pub fn plan_refusal(plan: &Plan, said: u64, beyond: bool) -> u64
    ensures { result ≡ plan_refusal (lent plan.now) said beyond }
{
    if let Err(sizes) = plan.sizes_refusal(beyond) {
        return sizes.number();
    }
    if said != 0 {
        return said;
    }
    match plan.lists_refusal() {
        Ok(()) => 0,
        Err(lists) => lists.number(),
    }
}
