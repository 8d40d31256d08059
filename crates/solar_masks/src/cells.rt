// How a call writes an entry for each cell of a plan, in order of cell number: block by block of times, so that a Sun's unit is
// worked out once, in a block row by row, so that a target's axes are, and in a row tile by tile, since cells of one row have
// their rolls worked out side by side.
ghost use Rattle.std.specs.Prelude.{◌≡◌, ℕ, ◌-◌, ◌+◌, ◌/◌, ◌%◌, ◌≤◌, [], length, get_or, Float};
ghost use Rattle.buffers.specs.Lent.{filled};
ghost use Rattle.buffers.specs.Rows.{ColumnsWritten};
ghost use Rattle.solar_roll.specs.Vectors.{Vector};
ghost use Rattle.solar_roll.specs.Roll.{Axes, body_axes};
ghost use Rattle.solar_roll.specs.Plan.{Plan as PlanOf, lent, rows_of, times_of, cells_of, direction_of, config_of, sun_at};

use solar_roll::{Plan, body_axes, sun_units};

// What is written of a cell, given its target's axes, its row's tolerance and its Sun's unit.
pub(crate) trait Cells {
    type Entry;

    ghost entry: { Self → Axes → Float → Vector → Self.Entry };

    // Writes the entries of at most 64 cells of a row, a cell for each of the Sun's units.
    fn write(
        &self,
        axes: [[f64; 3]; 3],
        tolerance_deg: f64,
        units: &[[f64; 3]],
        entries: &mut [Self::Entry],
    )
        requires { (length units.now ≤ 64) × (length units.now ≤ length entries.old) }
        ensures { entries.new ≡ filled (length units.now) (λ k. entry self.now axes tolerance_deg (get_or units.now k [])) entries.old };
}

// Writes the entries of a row's cells, a cell for each of the Sun's units.
fn write_row<C: Cells>(
    cells: &C,
    axes: [[f64; 3]; 3],
    tolerance_deg: f64,
    units: &[[f64; 3]],
    entries: &mut [C::Entry],
)
    requires { length units.now ≤ length entries.old }
    ensures { entries.new ≡ filled (length units.now) (λ k. C.entry cells.now axes tolerance_deg (get_or units.now k [])) entries.old }
{
    for from in (0..units.len()).step_by(64) {
        let to = units.len().min(from + 64);
        cells.write(axes, tolerance_deg, &units[from..to], &mut entries[from..]);
    }
}

// Writes the entries of every row at the times from `from` on, a time for each of the Sun's units.
fn write_block<C: Cells>(
    plan: &Plan,
    cells: &C,
    units: &[[f64; 3]],
    from: usize,
    entries: &mut [C::Entry],
)
    requires { let p : PlanOf = lent plan.now in
        (cells_of p ≤ length entries.old) × (from + length units.now ≤ times_of p) }
    ensures { let p : PlanOf = lent plan.now in
        let axes : ℕ → Axes = λ r. body_axes (direction_of p r) in
        let entry : ℕ → ℕ → C.Entry = λ r j. C.entry cells.now (axes r) (config_of p r).tolerance_deg (get_or units.now (j - from) []) in
        (d : C.Entry) → ColumnsWritten (rows_of p) (times_of p) (rows_of p) from (length units.now) entry d entries.old entries.new }
{
    for row in 0..plan.rows() {
        let start = row * plan.times() + from;
        write_row(
            cells,
            body_axes(plan.direction(row)),
            plan.row_config(row).tolerance_deg,
            units,
            &mut entries[start..],
        );
    }
}

// Writes the entry of each cell.
pub(crate) fn write_cells<C: Cells>(plan: &Plan, cells: &C, entries: &mut [C::Entry])
    requires { cells_of (lent plan.now) ≤ length entries.old }
    ensures { let p : PlanOf = lent plan.now in
        let axes : ℕ → Axes = λ r. body_axes (direction_of p r) in
        let entry : ℕ → ℕ → C.Entry = λ r j. C.entry cells.now (axes r) (config_of p r).tolerance_deg (sun_at p j) in
        entries.new ≡ filled (cells_of p) (λ k. entry (k / times_of p) (k % times_of p)) entries.old }
{
    let times = plan.times();
    let mut units = [[0.0; 3]; 2048];
    for from in (0..times).step_by(2048) {
        let count = units.len().min(times - from);
        sun_units(plan.suns, plan.observers, from, &mut units);
        write_block(plan, cells, &units[..count], from, entries);
    }
}
