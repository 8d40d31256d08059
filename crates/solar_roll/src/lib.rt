// Solar roll, ported from solar_roll.rs: a cell's optimal roll, the cells that a roll violates, and
// the plan whose cells they are.
#![tactic(auto)]

mod cell;
mod plan;
mod roll;
mod units;
mod vectors;

pub use cell::{
    CellRoll, EvaluationRoll, cell_roll, direction_refusal, free_or_at, in_force, roll_in, violated,
};
pub use plan::{
    MOST_CELLS, MOST_ROWS, MOST_SAMPLES, MOST_TIMES, Plan, SolarRollConfig, plan_refusal,
    samples_or_none_refusal, samples_refusal, too_many, triple,
};
pub use roll::{
    Panel, body_axes, circular_diff_deg, panel_of, roll_is_unconstrained, rolls_deg_in,
    solar_optimal_roll_deg, sun_unit,
};
pub use units::sun_units;
