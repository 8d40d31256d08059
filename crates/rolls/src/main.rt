// Document 01's rolls and the edges of its refusals, printed: each line says what was asked, and then the answer.
#![tactic(auto)]

mod show;

use show::{answered, bits, bytes, cell};
use solar_roll::{EvaluationRoll, Plan, cell_roll};
use std::io;

const X: [f64; 3] = [1.0, 0.0, 0.0];

const Y: [f64; 3] = [0.0, 1.0, 0.0];

const Z: [f64; 3] = [0.0, 0.0, 1.0];

const ORIGIN: [f64; 3] = [0.0, 0.0, 0.0];

// Target [1, 0, 0], panel [0, 1, 0], observer at the origin.
fn cells(rt: &impl Print) -> io::Result<()> {
    cell(rt, "Sun [0, 1, 0]", cell_roll(X, Y, ORIGIN, Y))?;
    cell(rt, "Sun [0, 0, 1]", cell_roll(X, Z, ORIGIN, Y))?;
    cell(
        rt,
        "Sun [0, -1, 0]",
        cell_roll(X, [0.0, -1.0, 0.0], ORIGIN, Y),
    )?;
    cell(rt, "Sun [1, 0, 0]", cell_roll(X, X, ORIGIN, Y))?;
    cell(rt, "Sun at the observer", cell_roll(Y, ORIGIN, ORIGIN, Y))?;
    cell(rt, "panel [1, 0, 0]", cell_roll(X, Y, ORIGIN, X))?;
    cell(rt, "target at the pole", cell_roll(Z, Y, ORIGIN, Y))
}

fn refused_cells(rt: &impl Print) -> io::Result<()> {
    cell(
        rt,
        "NaN in the Sun, target 2",
        cell_roll([2.0, 0.0, 0.0], [0.0, f64::NAN, 0.0], ORIGIN, Y),
    )?;
    cell(
        rt,
        "observer at 1e101",
        cell_roll(X, Y, [1.0e101, 0.0, 0.0], Y),
    )?;
    cell(
        rt,
        "target 2, panel infinite",
        cell_roll([2.0, 0.0, 0.0], Y, ORIGIN, [f64::INFINITY, 0.0, 0.0]),
    )?;
    cell(
        rt,
        "panel infinite",
        cell_roll(X, Y, ORIGIN, [f64::INFINITY, 0.0, 0.0]),
    )
}

// Two targets at two times: rolls 0 and 90, then a free cell and 90.
const PLAN: Plan<'static> = Plan {
    targets: &[1.0, 0.0, 0.0, 0.0, 1.0, 0.0],
    suns: &[0.0, 1.0, 0.0, 0.0, 0.0, 1.0],
    observers: &[0.0; 6],
    tolerances: &[10.0, 10.0],
    configured: None,
    panels: &Y,
};

// A target at one time.
const ONE: Plan<'static> = Plan {
    targets: &X,
    suns: &Y,
    observers: &ORIGIN,
    tolerances: &[10.0],
    configured: None,
    panels: &Y,
};

fn with_tolerances(tolerances: &[f64]) -> Plan<'_> {
    Plan { tolerances, ..PLAN }
}

fn with_roll(plan: Plan<'_>, roll_deg: f64) -> Plan<'_> {
    Plan {
        configured: Some(roll_deg),
        ..plan
    }
}

// Each of these asks one question about a plan and shows the mask: one call a function, which is proved sooner than many.
fn batch(rt: &impl Print, question: &str, plan: &Plan, mask: &mut [u8]) -> io::Result<()> {
    answered(rt, question, solar_masks::in_constraint_batch(plan, mask))?;
    bytes(rt, mask)
}

fn at_roll(
    rt: &impl Print,
    question: &str,
    plan: &Plan,
    roll: EvaluationRoll,
    mask: &mut [u8],
) -> io::Result<()> {
    answered(
        rt,
        question,
        solar_masks::in_constraint_batch_at_roll(plan, roll, mask),
    )?;
    bytes(rt, mask)
}

fn at_every_roll(rt: &impl Print, question: &str, n: u64, mask: &mut [u8]) -> io::Result<()> {
    answered(
        rt,
        question,
        solar_masks::in_constraint_batch_constrained_at_every_roll(&PLAN, n, mask),
    )?;
    bytes(rt, mask)
}

fn field_of_regard(
    rt: &impl Print,
    question: &str,
    time: u64,
    roll: f64,
    mask: &mut [u8],
) -> io::Result<()> {
    answered(
        rt,
        question,
        solar_masks::field_of_regard_violated_at_roll(&PLAN, time, roll, mask),
    )?;
    bytes(rt, mask)
}

fn masks(rt: &impl Print) -> io::Result<()> {
    let mut mask = [9u8; 6];
    let at_zero = with_roll(PLAN, 0.0);
    batch(rt, "no configured roll", &PLAN, &mut mask)?;
    batch(rt, "configured roll 0", &at_zero, &mut mask)?;
    at_roll(
        rt,
        "Sweep 90 with 0 configured",
        &at_zero,
        EvaluationRoll::Sweep(90.0),
        &mut mask,
    )?;
    at_roll(
        rt,
        "Fixed 90 with 0 configured",
        &at_zero,
        EvaluationRoll::Fixed(90.0),
        &mut mask,
    )
}

fn masks_by_tolerance(rt: &impl Print) -> io::Result<()> {
    let mut mask = [9u8; 6];
    let zero = EvaluationRoll::Sweep(0.0);
    at_roll(
        rt,
        "tolerance 90 met exactly at roll 0",
        &with_tolerances(&[90.0, 90.0]),
        zero,
        &mut mask,
    )?;
    at_roll(
        rt,
        "NaN tolerance",
        &with_tolerances(&[f64::NAN, f64::NAN]),
        zero,
        &mut mask,
    )?;
    at_roll(
        rt,
        "tolerance -1",
        &with_tolerances(&[-1.0, -1.0]),
        zero,
        &mut mask,
    )?;
    at_roll(
        rt,
        "tolerance -1, then NaN",
        &with_tolerances(&[-1.0, f64::NAN]),
        zero,
        &mut mask,
    )?;
    at_every_roll(rt, "every roll, n = 1", 1, &mut mask)?;
    at_every_roll(rt, "every roll, n = 0", 0, &mut mask)?;
    field_of_regard(rt, "field of regard at time 1, roll 0", 1, 0.0, &mut mask)
}

fn row(
    rt: &impl Print,
    question: &str,
    plan: &Plan,
    target: u64,
    mask: &mut [u8],
    severities: &mut [f64],
) -> io::Result<()> {
    answered(
        rt,
        question,
        solar_masks::evaluate(plan, target, mask, severities),
    )?;
    bytes(rt, mask)?;
    bits(rt, severities)
}

fn rows(rt: &impl Print) -> io::Result<()> {
    let mut mask = [9u8; 3];
    let mut severities = [9.0; 3];
    row(
        rt,
        "row 0, configured roll 0",
        &with_roll(PLAN, 0.0),
        0,
        &mut mask,
        &mut severities,
    )?;
    let two_tolerances = with_roll(with_tolerances(&[-f64::INFINITY, 10.0]), 0.0);
    row(
        rt,
        "row 0, tolerance -infinity",
        &two_tolerances,
        0,
        &mut mask,
        &mut severities,
    )?;
    row(
        rt,
        "row 1, tolerance 10",
        &two_tolerances,
        1,
        &mut mask,
        &mut severities,
    )?;
    row(
        rt,
        "row 0, no configured roll",
        &PLAN,
        0,
        &mut mask,
        &mut severities,
    )?;
    let mut values = [9.0; 5];
    answered(
        rt,
        "named values, of a free cell too",
        solar_masks::named_values(&PLAN, &mut values),
    )?;
    bits(rt, &values)
}

// The masks of what is refused, or has no cell: nothing is shown, as none is written.
fn refused_batch(rt: &impl Print, question: &str, plan: &Plan, mask: &mut [u8]) -> io::Result<()> {
    answered(rt, question, solar_masks::in_constraint_batch(plan, mask))
}

fn refused_row(
    rt: &impl Print,
    question: &str,
    plan: &Plan,
    mask: &mut [u8],
    severities: &mut [f64],
) -> io::Result<()> {
    answered(
        rt,
        question,
        solar_masks::evaluate(plan, 0, mask, severities),
    )
}

// n over 3,600, by both calls that take it.
fn refused_samples(rt: &impl Print, plan: Plan, mask: &mut [u8]) -> io::Result<()> {
    answered(
        rt,
        "n = 3601 with a configured roll",
        solar_masks::in_constraint_batch_constrained_at_every_roll(
            &with_roll(plan, 0.0),
            3601,
            mask,
        ),
    )?;
    answered(
        rt,
        "n = 2^40",
        solar_masks::field_of_regard_violated_batch(&plan, 0, 1099511627776, mask),
    )
}

fn refused_field(
    rt: &impl Print,
    question: &str,
    tolerances: &[f64],
    mask: &mut [u8],
) -> io::Result<()> {
    let plan = Plan {
        suns: &[],
        observers: &[],
        ..with_tolerances(tolerances)
    };
    answered(
        rt,
        question,
        solar_masks::field_of_regard_violated_at_roll(&plan, 0, 0.0, mask),
    )
}

// The target is beyond 1, and the last number of the Suns NaN.
fn beyond() -> Plan<'static> {
    Plan {
        targets: &[2.0, 0.0, 0.0],
        suns: &[0.0, 1.0, 0.0, 0.0, 0.0, f64::NAN],
        ..PLAN
    }
}

fn refused_lengths(rt: &impl Print, mask: &mut [u8]) -> io::Result<()> {
    let beyond = beyond();
    let two_numbers = Plan {
        targets: &[2.0, 0.0],
        ..beyond
    };
    refused_batch(rt, "targets of 2 numbers", &two_numbers, mask)?;
    let fewer = Plan {
        observers: &ORIGIN,
        ..beyond
    };
    refused_batch(rt, "fewer observers than Suns", &fewer, mask)?;
    refused_samples(rt, beyond, mask)
}

fn refused_numbers(rt: &impl Print, mask: &mut [u8]) -> io::Result<()> {
    refused_batch(rt, "target 2, NaN in the last Sun", &beyond(), mask)?;
    let at_one_time = Plan {
        suns: &Y,
        observers: &ORIGIN,
        ..beyond()
    };
    refused_batch(rt, "target 2", &at_one_time, mask)?;
    let none = Plan {
        targets: &[],
        tolerances: &[],
        ..ONE
    };
    refused_batch(rt, "no targets", &none, mask)?;
    refused_field(rt, "no times, field of regard", PLAN.tolerances, mask)
}

fn refused_tolerances(rt: &impl Print, mask: &mut [u8]) -> io::Result<()> {
    let two = Plan {
        tolerances: &[10.0, 10.0],
        ..ONE
    };
    refused_batch(rt, "two tolerances for a target", &two, mask)?;
    let none = Plan {
        tolerances: &[],
        ..ONE
    };
    refused_batch(rt, "no tolerance for a target", &none, mask)?;
    refused_field(rt, "no times, one tolerance for two targets", &[10.0], mask)
}

fn too_short(rt: &impl Print, mask: &mut [u8]) -> io::Result<()> {
    let no_rows = Plan {
        targets: &[],
        tolerances: &[],
        ..ONE
    };
    refused_row(
        rt,
        "row 0 of no rows, no room",
        &no_rows,
        &mut [],
        &mut [9.0; 2],
    )?;
    refused_row(rt, "no room for the severities", &ONE, mask, &mut [])?;
    refused_batch(rt, "no room for the mask", &ONE, &mut [])
}

fn main(rt: HostRuntime) -> io::Result<()> {
    cells(&rt)?;
    refused_cells(&rt)?;
    masks(&rt)?;
    masks_by_tolerance(&rt)?;
    rows(&rt)?;
    let mut mask = [9u8; 2];
    refused_lengths(&rt, &mut mask)?;
    refused_numbers(&rt, &mut mask)?;
    refused_tolerances(&rt, &mut mask)?;
    too_short(&rt, &mut mask)?;
    print!(rt; "the lent mask after all of these: ")?;
    bytes(&rt, &mask)
}
