// Questions about catalogue positions. Above a function stands what its lines answer.
use crate::words::{Line, UNWRITTEN};
use catalogue::radec_to_unit_vectors_batch;
use float::of_bits;

// x, y, z of each position. There is room for more than a line gives, so that a wrong count is told.
pub(crate) fn vectors(given: &Line, asked: &Line) -> bool {
    let count = given.word(1);
    let mut ras = [0.0; 16];
    let mut decs = [0.0; 16];
    let mut units = [of_bits(UNWRITTEN); 48];
    let ras = given.read(3, count, &mut ras);
    let decs = given.read(given.word(2), count, &mut decs);
    radec_to_unit_vectors_batch(ras, decs, &mut units) == Ok(0) && asked.has(&units, 3, 1)
}
