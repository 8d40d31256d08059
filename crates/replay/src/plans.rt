// Questions about a plan. Above a function stands what its lines ask, if anything, and after a colon what they answer.
use crate::kinds::Kind;
use crate::words::{Line, UNWRITTEN};
use buffers::Refusal;
use float::{bits, of_bits};
use solar_masks::{
    evaluate, field_of_regard_violated_at_roll, field_of_regard_violated_batch,
    in_constraint_batch, in_constraint_batch_at_roll,
    in_constraint_batch_constrained_at_every_roll, named_values,
};
use solar_roll::{CellRoll, EvaluationRoll, Plan, cell_roll, circular_diff_deg, triple};

// a, b: their difference.
pub(crate) fn difference(asked: &Line) -> bool {
    bits(circular_diff_deg(asked.number(1), asked.number(2))) == asked.word(3)
}

fn configured(given: &Line) -> Option<f64> {
    (given.word(6) != 0).then(|| given.number(7))
}

pub(crate) fn asked_of_plan(kind: Kind, given: &Line, asked: &Line) -> bool {
    let mut targets = [0.0f64; 24];
    let mut suns = [0.0f64; 72];
    let mut observers = [0.0f64; 72];
    let mut tolerances = [0.0f64; 8];
    let mut panels = [0.0f64; 3];
    let plan = Plan {
        targets: given.read(11, given.word(1), &mut targets),
        suns: given.read(given.word(3), given.word(2), &mut suns),
        observers: given.read(given.word(4), given.word(2), &mut observers),
        tolerances: given.read(given.word(5), given.word(1) / 3, &mut tolerances),
        configured: configured(given),
        panels: given.read(8, 3, &mut panels),
    };
    match kind {
        Kind::Cell => cell(asked, &plan),
        Kind::NamedValues => values(asked, &plan),
        Kind::Row => row(asked, &plan),
        Kind::Sweep => sweep(asked, &plan, Rolls::Even(asked.word(1))),
        Kind::Table => by_table(asked, &plan),
        _ => mask(kind, asked, &plan),
    }
}

// Target, time: 0 where Free, else 1 and the roll.
fn cell(asked: &Line, plan: &Plan) -> bool {
    let target = triple(plan.targets, asked.word(1) as usize);
    let time = asked.word(2) as usize;
    let sun = triple(plan.suns, time);
    let observer = triple(plan.observers, time);
    match cell_roll(target, sun, observer, triple(plan.panels, 0)) {
        CellRoll::Free => asked.word(3) == 0,
        CellRoll::At(roll) => asked.word(3) == 1 && asked.word(4) == bits(roll),
        CellRoll::Refused(_) => false,
    }
}

// The values.
fn values(asked: &Line, plan: &Plan) -> bool {
    let mut values = [of_bits(UNWRITTEN); 96];
    named_values(plan, &mut values) == Ok(0) && asked.has(&values, 3, 1)
}

// Target: each sample's mark and severity.
fn row(asked: &Line, plan: &Plan) -> bool {
    let mut mask = [7u8; 24];
    let mut severities = [of_bits(UNWRITTEN); 24];
    evaluate(plan, asked.word(1), &mut mask, &mut severities) == Ok(0)
        && asked.has(&mask, 3, 2)
        && asked.has(&severities, 4, 2)
}

// So many even rolls, or those of a table. Two cases, neither an error.
#[derive(Clone, Copy)]
enum Rolls<'a> {
    Even(u64),
    Table(&'a [f64]),
}

// Each names another call of the journal, with parameters of its own: one function over them would take each as a closure.
fn begin(plan: &Plan, rolls: Rolls, file: &mut [u8]) -> Result<u64, Refusal> {
    match rolls {
        Rolls::Even(n) => journal::begin(plan, n, file, 0),
        Rolls::Table(table) => journal::begin_rolls(plan, table, file, 0),
    }
}

fn work(plan: &Plan, rolls: Rolls, chunk: u64, file: &mut [u8], used: u64) -> Result<u64, Refusal> {
    match rolls {
        Rolls::Even(n) => journal::work(plan, n, chunk, file, used),
        Rolls::Table(table) => journal::work_rolls(plan, table, chunk, file, used),
    }
}

fn collect(
    plan: &Plan,
    rolls: Rolls,
    file: &[u8],
    used: u64,
    mask: &mut [u8],
) -> Result<u64, Refusal> {
    match rolls {
        Rolls::Even(n) => journal::collect(plan, n, file, used, mask),
        Rolls::Table(table) => journal::collect_rolls(plan, table, file, used, mask),
    }
}

// Begins a journal and works on its one or two chunks, and gives the used length. Where there is one, the second work is refused.
fn journal_of(plan: &Plan, rolls: Rolls, file: &mut [u8]) -> u64 {
    let begun = begin(plan, rolls, file).unwrap_or(0);
    let end = work(plan, rolls, 0, file, begun).unwrap_or(0);
    work(plan, rolls, 1, file, end).unwrap_or(end)
}

// n: probes, mask.
fn sweep(asked: &Line, plan: &Plan, rolls: Rolls) -> bool {
    let mut file = [0u8; 256];
    let mut mask = [7u8; 96];
    let end = journal_of(plan, rolls, &mut file);
    collect(plan, rolls, &file, end, &mut mask) == Ok(asked.word(3)) && asked.has(&mask, 4, 1)
}

// How many rolls, the word at which they begin: probes, mask.
fn by_table(asked: &Line, plan: &Plan) -> bool {
    let mut rolls = [0.0f64; 156];
    let rolls = asked.read(asked.word(2), asked.word(1), &mut rolls);
    sweep(asked, plan, Rolls::Table(rolls))
}

// A roll, if any: mask. n: mask. Time, n or roll: mask of the targets.
fn mask(kind: Kind, asked: &Line, plan: &Plan) -> bool {
    let mut mask = [7u8; 96];
    answer_mask(kind, asked, plan, &mut mask) == Ok(0) && asked.has(&mask, 3, 1)
}

fn answer_mask(kind: Kind, asked: &Line, plan: &Plan, mask: &mut [u8]) -> Result<u64, Refusal> {
    let a = asked.word(1);
    let b = asked.word(2);
    match kind {
        Kind::Batch => in_constraint_batch(plan, mask),
        Kind::AtSweep => {
            in_constraint_batch_at_roll(plan, EvaluationRoll::Sweep(of_bits(a)), mask)
        }
        Kind::AtFixed => {
            in_constraint_batch_at_roll(plan, EvaluationRoll::Fixed(of_bits(a)), mask)
        }
        Kind::EveryRoll => in_constraint_batch_constrained_at_every_roll(plan, a, mask),
        Kind::Field => field_of_regard_violated_batch(plan, a, b, mask),
        _ => field_of_regard_violated_at_roll(plan, a, of_bits(b), mask),
    }
}
