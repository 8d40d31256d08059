// The roll that is configured, and the one that is asked for, as C lends them.
ghost use Rattle.std.specs.Prelude.{◌≡◌};
ghost use Rattle.wilfnusk.specs.Plans.{asked, configured};

use solar_roll::EvaluationRoll;

pub(crate) fn configured(has_roll: u64, roll_deg: f64) -> Option<f64>
    ensures { result ≡ configured has_roll roll_deg }
{
    if has_roll == 0 { None } else { Some(roll_deg) }
}

pub(crate) fn asked(fixed: u64, roll_deg: f64) -> EvaluationRoll
    ensures { result ≡ asked fixed roll_deg }
{
    if fixed == 0 {
        EvaluationRoll::Sweep(roll_deg)
    } else {
        EvaluationRoll::Fixed(roll_deg)
    }
}
