// Work over a range of chunks, over any slice of rolls. The journal is checked once; even rolls are a table that is filled once, and so are the Sun's units
// where that pays.
ghost use Rattle.std.specs.Prelude.{◌≡◌, true, false, ◌||◌, List, ℕ, ◌+◌, ◌-◌, ◌*◌, ◌%◌, ◌≤◌, ◌<◌, leb, ltb, length, get_or, take};
ghost use Rattle.buffers.specs.Ranges.{tab};
ghost use Rattle.solar_roll.specs.Vectors.{Vector};
ghost use Rattle.solar_roll.specs.Roll.{sun_unit};
ghost use Rattle.solar_roll.specs.Plan.{Plan as PlanOf, lent, count, rows_of, times_of, triple, most_cells, most_samples, PlanFacts};
ghost use Rattle.roll_sweep.specs.Sweep.{Sweep, chunks};
ghost use Rattle.roll_sweep.specs.Chunk.{swept_of};
ghost use Rattle.buffers.specs.Refusal.{found};
ghost use Rattle.journal.specs.Lines.{line_length};
ghost use Rattle.journal.specs.Pass.{most_chunks, Ready};
ghost use Rattle.journal.specs.Plan.{sweep_of, even_sweep, Says, UnitsOf, table_times};
ghost use Rattle.journal.specs.Range.{ran_to, ran, Ranged};

use crate::accepted::check_work;
use crate::line::{LINE_LENGTH, Line, append_line};
use crate::pass::MOST_CHUNKS;
use crate::plan::{Samples, passed_plan};
use buffers::Refusal;
use roll_sweep::{Swept, cells_in, even_rolls, sweep_chunk};
use solar_roll::{MOST_SAMPLES, Plan, samples_refusal, sun_unit, sun_units, triple};

// How many times a table of the Sun's units has room for: the hours of a leap year, 206 KB.
const TABLE_TIMES: usize = 8_784;

// The Sun's units at `cells` cells from number `first` on. Of a time that comes again, in another
// row, the unit is not worked out again. `first` and `cells` are a range of cell numbers, and no list's length.
fn chunk_units(suns: &[f64], observers: &[f64], first: usize, cells: usize) -> [[f64; 3]; 64]
    requires { (cells ≤ 64) × (0 < count suns.now) × (first ≤ most_cells) }
    ensures { let unit : ℕ → Vector = λ j. sun_unit (triple suns.now j) (triple observers.now j) in
        take cells result ≡ tab cells (λ k. unit ((first + k) % count suns.now)) }
{
    let times = suns.len() / 3;
    let mut units = [[0.0; 3]; 64];
    for at in 0..cells {
        if at < times {
            let time = (first + at) % times;
            units[at] = sun_unit(triple(suns, time), triple(observers, time));
        } else {
            units[at] = units[at - times];
        }
    }
    units
}

// Sweeps a chunk of an accepted plan over rolls: by a table of the Sun's units of all times, if there is one, else by those of its own cells.
fn sweep_rolls(plan: &Plan, rolls: &[f64], units: &[[f64; 3]], chunk: u64) -> Swept
    requires { let p : PlanOf = lent plan.now in
        PlanFacts p × (1 ≤ length rolls.now) × (length rolls.now ≤ most_samples)
        × UnitsOf p units.now × (chunk < chunks (rows_of p * times_of p)) }
    ensures { let p : PlanOf = lent plan.now in
        let s : Sweep = sweep_of p rolls.now 0 in
        result ≡ swept_of s chunk }
{
    let times = plan.times();
    if 0 < units.len() {
        return sweep_chunk(plan, times, units, rolls, chunk).unwrap();
    }
    let cells = cells_in((plan.rows() * times) as u64, chunk) as usize;
    let own = chunk_units(plan.suns, plan.observers, 64 * chunk as usize, cells);
    sweep_chunk(plan, times, &own, rolls, chunk).unwrap()
}

// Work refuses the chunk: it does not exist, it has a line, or there is no room for one.
fn is_refused(seen: &[bool], chunks: u64, free: usize, chunk: u64) -> bool
    requires { (length seen.now ≡ most_chunks) × (chunks ≤ most_chunks) }
    ensures { result ≡ (leb chunks chunk || (get_or seen.now chunk false || ltb free line_length)) }
{
    if chunks <= chunk {
        return true;
    }
    seen[chunk as usize] || free < LINE_LENGTH
}

// Appends the lines of up to `limit` chunks from `from` on, stopping at the first that work refuses. Gives the chunk at which it stopped.
// This function and the two before work_over share seven parameters. A struct of them is no plainer: it would be built once, for these three calls.
fn append_swept(
    plan: &Plan,
    rolls: &[f64],
    units: &[[f64; 3]],
    from: u64,
    limit: u64,
    journal: &mut [u8],
    used: u64,
    seen: &[bool],
) -> u64
    requires { let p : PlanOf = lent plan.now in
        UnitsOf p units.now × ((masks : List ℕ) × Ready (sweep_of p rolls.now 0) journal.old used seen.now masks) }
    ensures { let p : PlanOf = lent plan.now in
        let s : Sweep = sweep_of p rolls.now 0 in
        ran_to journal.new (used + line_length * (result - from)) result ≡ ran s limit (ran_to journal.old used from) }
{
    let chunks = (plan.rows() * plan.times()).div_ceil(64) as u64;
    let mut at = used as usize;
    let mut chunk = from;
    for _ in 0..limit {
        if is_refused(seen, chunks, journal.len() - at, chunk) {
            return chunk;
        }
        let swept = sweep_rolls(plan, rolls, units, chunk);
        let line = Line {
            chunk,
            mask: swept.mask,
            probes: swept.probes,
        };
        append_line(journal, at, line);
        at += LINE_LENGTH;
        chunk += 1;
    }
    chunk
}

// Whether a table of the Sun's units of all times pays: it has room for them, and there are cells enough that use one again. 8 chunks pay for
// blanking it.
fn pays(times: usize, limit: u64) -> bool
    ensures { result ≡ true → times ≤ table_times }
{
    if TABLE_TIMES < times {
        return false;
    }
    let paid = times / 64 + 8;
    (paid as u64) < limit
}

// The same, by such a table.
fn append_by_units(
    plan: &Plan,
    rolls: &[f64],
    from: u64,
    limit: u64,
    journal: &mut [u8],
    used: u64,
    seen: &[bool],
) -> u64
    requires { let p : PlanOf = lent plan.now in
        (times_of p ≤ table_times) × ((masks : List ℕ) × Ready (sweep_of p rolls.now 0) journal.old used seen.now masks) }
    ensures { let p : PlanOf = lent plan.now in
        let s : Sweep = sweep_of p rolls.now 0 in
        ran_to journal.new (used + line_length * (result - from)) result ≡ ran s limit (ran_to journal.old used from) }
{
    let mut units = [[0.0; 3]; TABLE_TIMES];
    sun_units(plan.suns, plan.observers, 0, &mut units);
    let end = plan.times();
    append_swept(plan, rolls, &units[..end], from, limit, journal, used, seen)
}

// The same, by one where it pays.
fn append_lines(
    plan: &Plan,
    rolls: &[f64],
    from: u64,
    limit: u64,
    journal: &mut [u8],
    used: u64,
    seen: &[bool],
) -> u64
    requires { let p : PlanOf = lent plan.now in
        ((masks : List ℕ) × Ready (sweep_of p rolls.now 0) journal.old used seen.now masks) }
    ensures { let p : PlanOf = lent plan.now in
        let s : Sweep = sweep_of p rolls.now 0 in
        ran_to journal.new (used + line_length * (result - from)) result ≡ ran s limit (ran_to journal.old used from) }
{
    if pays(plan.times(), limit) {
        return append_by_units(plan, rolls, from, limit, journal, used, seen);
    }
    let none = [[0.0; 3]; 0];
    append_swept(plan, rolls, &none, from, limit, journal, used, seen)
}

// Work over the range of `limit` chunks from `from` on, over rolls of which `said` is said in the place of 3. By its length, for a range of one
// chunk may end at 2^64.
pub(crate) fn work_over(
    plan: &Plan,
    rolls: &[f64],
    said: Result<(), Refusal>,
    from: u64,
    limit: u64,
    journal: &mut [u8],
    used: u64,
    stopped: &mut u64,
) -> Result<u64, Refusal>
    requires { Says (found said) (length rolls.now) }
    ensures { let p : PlanOf = lent plan.now in
        let s : Sweep = sweep_of p rolls.now (found said) in
        ((to : ℕ) → to - from ≡ limit
        → Ranged s from to journal.old used stopped.old result journal.new stopped.new) }
{
    let room = journal.len() as u64;
    let count = rolls.len() as u64;
    let passed = passed_plan(plan, Samples { count, said }, room, used)?;
    if limit == 0 {
        return Err(Refusal::NoSuchIndex);
    }
    let mut seen = [false; MOST_CHUNKS];
    let mut masks = [0u64; MOST_CHUNKS];
    check_work(&passed, from, journal, used, &mut seen, &mut masks)?;
    let next = append_lines(plan, rolls, from, limit, journal, used, &seen);
    *stopped = next;
    let lines = next - from;
    let end = used + LINE_LENGTH as u64 * lines;
    Ok(end)
}

// The same, over n even rolls: over none where n is refused, for then the plan is, and no roll is looked at.
pub(crate) fn work_even(
    plan: &Plan,
    n: u64,
    from: u64,
    limit: u64,
    journal: &mut [u8],
    used: u64,
    stopped: &mut u64,
) -> Result<u64, Refusal>
    ensures { let p : PlanOf = lent plan.now in
        let s : Sweep = even_sweep p n in
        ((to : ℕ) → to - from ≡ limit
        → Ranged s from to journal.old used stopped.old result journal.new stopped.new) }
{
    let said = samples_refusal(n);
    let end = if said.is_ok() { n as usize } else { 0 };
    let mut rolls = [0.0; MOST_SAMPLES];
    even_rolls(end as u32, &mut rolls);
    work_over(
        plan,
        &rolls[..end],
        said,
        from,
        limit,
        journal,
        used,
        stopped,
    )
}
