// The calls on a plan's cells, ported from solar_roll.rs: masks, named values, one row with its
// severities, and the field of regard. Each answers with a `Result` whose error is `buffers::Refusal`.
#![tactic(auto)]

mod cells;
mod field;
mod mask;
mod row;
mod values;

pub use field::{field_of_regard_violated_at_roll, field_of_regard_violated_batch};
pub use mask::{
    in_constraint_batch, in_constraint_batch_at_roll, in_constraint_batch_constrained_at_every_roll,
};
pub use row::evaluate;
pub use values::named_values;
