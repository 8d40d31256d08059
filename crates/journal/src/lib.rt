// The journal of a sweep: section 4's frames, when a journal is right, and begin, work, work over a range, recover
// and collect.
#![tactic(auto)]

mod accepted;
mod calls;
mod header;
mod hex;
mod line;
mod mask;
mod pass;
mod plan;
mod range;
mod tables;

pub use calls::{begin, collect, recover, work, work_range};
pub use header::HEADER_LENGTH;
pub use line::LINE_LENGTH;
pub use tables::{begin_rolls, collect_rolls, recover_rolls, work_range_rolls, work_rolls};
