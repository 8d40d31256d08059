// The Sun's units of several times, in a table, so that each is worked out once.
ghost use Rattle.std.specs.Prelude.{◌≡◌, ℕ, ◌+◌, ◌-◌, min, length};
ghost use Rattle.buffers.specs.Lent.{filled};
ghost use Rattle.solar_roll.specs.Vectors.{Vector};
ghost use Rattle.solar_roll.specs.Roll.{sun_unit};
ghost use Rattle.solar_roll.specs.Plan.{triple, count};

use crate::plan::triple;
use crate::roll::sun_unit;

// Writes the Sun's units of the times from `from` on, as many as the table has places for.
#[tactic(auto, using(buffers::proofs::Lent::filled_zero, buffers::proofs::Lent::filled_next))]
pub fn sun_units(suns: &[f64], observers: &[f64], from: usize, units: &mut [[f64; 3]])
    ensures { let places : ℕ = min (length units.old) (count suns.now - from) in
        let unit : ℕ → Vector = λ t. sun_unit (triple suns.now (from + t)) (triple observers.now (from + t)) in
        units.new ≡ filled places unit units.old }
{
    let end = units.len().min((suns.len() / 3).saturating_sub(from));
    for (j, unit) in units[..end].iter_mut().enumerate() {
        *unit = sun_unit(triple(suns, from + j), triple(observers, from + j));
    }
}
