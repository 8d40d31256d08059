// The roll of one cell.
ghost use Rattle.std.specs.Prelude.{◌≡◌};
ghost use Rattle.buffers.specs.Refusal.{Reply, reply};
ghost use Rattle.solar_roll.specs.Vectors.{Vector, vector};
ghost use Rattle.solar_roll.specs.Roll.{sun_unit, InTurn};
ghost use Rattle.solar_roll.specs.Cell.{numbers_refusal, optimal_roll};
ghost use Rattle.wilfnusk.specs.Answers.{int64, cell_answer, cell_written};

use crate::answers::minus;
use solar_roll::{CellRoll, cell_roll};

// Refuses 4, 5, 20, 6 (solar_roll: specs/Cell, `numbers_refusal`).
#[unsafe(no_mangle)]
pub extern "C" fn wilfnusk_cell(
    target_x: f64,
    target_y: f64,
    target_z: f64,
    sun_x: f64,
    sun_y: f64,
    sun_z: f64,
    observer_x: f64,
    observer_y: f64,
    observer_z: f64,
    panel_x: f64,
    panel_y: f64,
    panel_z: f64,
    roll: &mut f64,
) -> u64
    ensures { let target : Vector = vector target_x target_y target_z in
        let sun : Vector = vector sun_x sun_y sun_z in
        let observer : Vector = vector observer_x observer_y observer_z in
        let panel : Vector = vector panel_x panel_y panel_z in
        let said : Reply CellRoll = reply (numbers_refusal target sun observer panel) (optimal_roll target (sun_unit sun observer) panel) in
        (result ≡ int64 (cell_answer said)) × (roll.new ≡ cell_written said roll.old) × (result ≡ 1 → InTurn roll.new) }
{
    let target = [target_x, target_y, target_z];
    let sun = [sun_x, sun_y, sun_z];
    let observer = [observer_x, observer_y, observer_z];
    let panel = [panel_x, panel_y, panel_z];
    match cell_roll(target, sun, observer, panel) {
        CellRoll::Free => 0,
        CellRoll::At(optimal) => {
            *roll = optimal;
            1
        }
        CellRoll::Refused(k) => minus(k),
    }
}
