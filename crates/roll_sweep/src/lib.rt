// The sweep over rolls: the even samples, a lent table, and the cells of a chunk that every sample violates.
#![tactic(auto)]

mod chunk;
mod rolls;

pub use chunk::{Swept, cells_in, sweep_chunk};
pub use rolls::{even_rolls, table_refusal};
