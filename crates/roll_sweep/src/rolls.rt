// The samples of a sweep: even ones, and a lent table.
ghost use Rattle.std.specs.Prelude.{◌≡◌, min, ◌<◌, length};
ghost use Rattle.buffers.specs.Lent.{filled};
ghost use Rattle.buffers.specs.Refusal.{found};
ghost use Rattle.roll_sweep.specs.Rolls.{even_roll, bad_roll, table_refusal};

use buffers::Refusal;
use solar_roll::MOST_SAMPLES;

// Writes the samples of n even steps into the table's first places, as many as it has.
pub fn even_rolls(n: u32, table: &mut [f64])
    ensures { table.new ≡ filled (min n (length table.old)) (even_roll n) table.old }
{
    let step = 360.0 / n as f64;
    let places = table.len().min(n as usize);
    for (k, roll) in table[..places].iter_mut().enumerate() {
        *roll = k as f64 * step;
    }
}

// 19, of roll k of a table: it is not within 0 to below 360, or not above the roll before it.
#[tactic(auto, unfolding(crate::specs::Rolls::bad_roll, crate::specs::Rolls::not_in_turn))]
fn bad_roll(rolls: &[f64], k: usize) -> bool
    requires { k < length rolls.now }
    ensures { result ≡ bad_roll rolls.now k }
{
    let roll = rolls[k];
    if !(0.0 <= roll && roll < 360.0) {
        return true;
    }
    k != 0 && !(rolls[k - 1] < roll)
}

// What is said of a table of rolls in the place of 3.
// Refuses 18, 19 (specs/Rolls, `table_refusal`).
#[tactic(auto, unfolding(crate::specs::Rolls::table_refusal, buffers::specs::Refusal::first))]
pub fn table_refusal(rolls: &[f64]) -> Result<(), Refusal>
    ensures { found result ≡ table_refusal rolls.now }
{
    if rolls.is_empty() || MOST_SAMPLES < rolls.len() {
        return Err(Refusal::RollTableLength);
    }
    if (0..rolls.len()).any(|k| bad_roll(rolls, k)) {
        return Err(Refusal::RollTableEntry);
    }
    Ok(())
}
