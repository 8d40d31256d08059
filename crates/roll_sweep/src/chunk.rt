// The sweep of one chunk of cells.
ghost use Rattle.std.specs.Prelude.{◌≡◌, Bool, [], ℕ, ◌+◌, ◌-◌, ◌*◌, ◌≤◌, ◌<◌, length, get_or, Float};
ghost use Rattle.std.specs.Int.Count.{ones};
ghost use Rattle.std.specs.Float.{nan};
ghost use Rattle.buffers.specs.Refusal.{found, replied};
ghost use Rattle.solar_roll.specs.Cell.{roll_in, violates};
ghost use Rattle.solar_roll.specs.Plan.{Plan as PlanOf, lent, most_times, most_cells, most_samples};
ghost use Rattle.solar_roll.specs.declared.cell.CellRoll.{CellRoll};
ghost use Rattle.roll_sweep.specs.Sweep.{cells_in};
ghost use Rattle.roll_sweep.specs.Chunk.{violates_by, sample_roll, swept_by, chunk_refusal, swept_reply};

use buffers::Refusal;
use solar_roll::{
    Panel, Plan, body_axes, free_or_at, rolls_deg_in, samples_refusal, too_many, violated,
};

// What the sweep of cells gives: bit k of the mask is cell k, set where every sample violates it;
// probes is how many samples were tried.
#[derive(Clone, Copy)]
pub struct Swept {
    pub mask: u64,
    pub probes: u64,
}

// How many of the cells a chunk holds.
#[tactic(auto, unfolding(crate::specs::Sweep::cells_in))]
pub fn cells_in(cells: u64, chunk: u64) -> u64
    ensures { result ≡ cells_in cells chunk }
{
    if cells / 64 < chunk {
        return 0;
    }
    (cells - 64 * chunk).min(64)
}

// Sweeps cells of one row, a cell for each of the Sun's units: their optimal rolls are worked out side
// by side; then the rolls are tried on each in turn, up to the first at which it is clear.
fn sweep_row(
    axes: [[f64; 3]; 3],
    units: &[[f64; 3]],
    panel: Panel,
    tolerance_deg: f64,
    rolls: &[f64],
) -> Swept
    requires { (length units.now ≤ 64) × (length rolls.now ≤ most_samples) }
    ensures { let cell : ℕ → CellRoll = λ k. roll_in axes (get_or units.now k []) panel in
        let roll : ℕ → Float = λ s. get_or rolls.now s nan in
        result ≡ swept_by (length units.now) (length rolls.now) (λ k s. violates (cell k) (roll s) tolerance_deg) }
{
    let mut optimal = [0.0; 64];
    rolls_deg_in(axes, units, panel.angle, &mut optimal);
    let mut mask: u64 = 0;
    let mut probes: u64 = 0;
    'cells: for (k, unit) in units.iter().enumerate() {
        let cell = free_or_at(axes, *unit, panel, optimal[k]);
        'rolls: for roll in rolls {
            probes += 1;
            if !violated(cell, *roll, tolerance_deg) {
                continue 'cells;
            }
        }
        mask |= 1 << k;
    }
    Swept { mask, probes }
}

// Sweeps `cells` cells from number `first` on over rolls that are in force, row by row, so that a row's axes are worked
// out once, and the panel, which the rows share, once for all. The Sun's unit of cell i is entry i % L of a table of L
// units: of all times, or of one chunk's 64 cells. A part ends with its row, the cells or the table, so parts have no
// common length, and neither a range nor `chunks` gives them. `first` and `cells` are a range of cell numbers, and no list's
// length.
fn sweep_cells(
    plan: &Plan,
    times: usize,
    units: &[[f64; 3]],
    rolls: &[f64],
    first: usize,
    cells: usize,
) -> Swept
    requires { (cells ≤ 64) × (length rolls.now ≤ most_samples) × (0 < times) × (times ≤ most_times) × (0 < length units.now)
        × (first + cells ≤ most_cells) }
    ensures { let p : PlanOf = lent plan.now in
        let violated : ℕ → Float → Bool = violates_by p.targets times units.now p.tolerances p.configured p.panels in
        result ≡ swept_by cells (length rolls.now) (λ k s. violated (first + k) (get_or rolls.now s nan)) }
{
    let panel = plan.panel_at(first / times);
    let mut mask: u64 = 0;
    let mut probes: u64 = 0;
    let mut k = 0;
    while k < cells {
        let row = (first + k) / times;
        let left = times - (first + k) % times;
        let start = (first + k) % units.len();
        let count = left.min(cells - k).min(units.len() - start);
        let axes = body_axes(plan.direction(row));
        let settings = plan.row_config(row);
        let part = sweep_row(
            axes,
            &units[start..start + count],
            panel,
            settings.tolerance_deg,
            rolls,
        );
        mask |= part.mask << k;
        probes += part.probes;
        k += count;
    }
    Swept { mask, probes }
}

// The answer for n samples that are all the same roll, from the answer for one of them.
fn repeated(one: Swept, n: usize) -> Swept
    requires { (1 ≤ n) × (n ≤ most_samples) × (one.probes ≤ 64) }
    ensures { (result.mask ≡ one.mask) × (result.probes ≡ one.probes + (n - 1) * ones one.mask) }
{
    let again = (n - 1) as u64;
    let marked = one.mask.count_ones() as u64;
    Swept {
        mask: one.mask,
        probes: one.probes + again * marked,
    }
}

// Sweeps cells as `sweep_cells` does, over samples. A configured roll stands for every sample, so it is tried once for all.
// So the rolls are no part of a struct with the plan and the units: the one roll goes with the same plan in their place.
fn sweep_samples(
    plan: &Plan,
    times: usize,
    units: &[[f64; 3]],
    rolls: &[f64],
    first: usize,
    cells: usize,
) -> Swept
    requires { (cells ≤ 64) × (length rolls.now ≤ most_samples) × (0 < times) × (times ≤ most_times) × (0 < length units.now)
        × (first + cells ≤ most_cells) × (1 ≤ length rolls.now) }
    ensures { let p : PlanOf = lent plan.now in
        let violated : ℕ → Float → Bool = violates_by p.targets times units.now p.tolerances p.configured p.panels in
        result ≡ swept_by cells (length rolls.now) (λ k s. violated (first + k) (sample_roll rolls.now p.configured s)) }
{
    match plan.configured {
        None => sweep_cells(plan, times, units, rolls, first, cells),
        Some(roll_deg) => {
            let tried = sweep_cells(plan, times, units, &[roll_deg], first, cells);
            repeated(tried, rolls.len())
        }
    }
}

// The first refusal of a chunk's sweep.
#[tactic(auto, unfolding(crate::specs::Chunk::chunk_refusal, crate::specs::Sweep::chunks, buffers::specs::Refusal::first, buffers::specs::Refusal::carried))]
fn chunk_refusal(
    rows: usize,
    times: usize,
    units: usize,
    samples: usize,
    chunk: u64,
) -> Result<(), Refusal>
    ensures { found result ≡ chunk_refusal rows times units samples chunk }
{
    if units == 0 {
        return Err(Refusal::LengthsDoNotFit);
    }
    if too_many(rows, times) {
        return Err(Refusal::TooLarge);
    }
    samples_refusal(samples as u64)?;
    if (rows * times).div_ceil(64) <= chunk as usize {
        return Err(Refusal::NoSuchIndex);
    }
    Ok(())
}

// Sweeps a chunk: cells 64 · chunk to 64 · chunk + 63, the last chunk perhaps fewer. The plan's positions are not looked
// at: the Sun's unit of cell i is entry i % L of the L units that are lent, those of all times, for chunk after chunk, or
// those of this chunk's cells.
// Refuses 1, 2, 3, 9 (specs/Chunk, `chunk_refusal`).
pub fn sweep_chunk(
    plan: &Plan,
    times: usize,
    units: &[[f64; 3]],
    rolls: &[f64],
    chunk: u64,
) -> Result<Swept, Refusal>
    ensures { let p : PlanOf = lent plan.now in
        replied result ≡ swept_reply p.targets times units.now p.tolerances p.configured p.panels rolls.now chunk }
{
    let rows = plan.rows();
    chunk_refusal(rows, times, units.len(), rolls.len(), chunk)?;
    let first = 64 * chunk as usize;
    let cells = cells_in((rows * times) as u64, chunk) as usize;
    Ok(sweep_samples(plan, times, units, rolls, first, cells))
}
