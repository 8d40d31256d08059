// Section 1's functions, sine and cosine, and the difference: no f64 is refused.
ghost use Rattle.std.specs.Prelude.{◌≡◌};
ghost use Rattle.float.specs.Root.{sqrt_of};
ghost use Rattle.float.specs.Arctangent.{arctangent};
ghost use Rattle.float.specs.Trigonometry.{sine_of, cosine_of};
ghost use Rattle.solar_roll.specs.Roll.{circular_diff_deg};

#[unsafe(no_mangle)]
pub extern "C" fn wilfnusk_sqrt(x: f64) -> f64
    ensures { result ≡ sqrt_of x }
{
    float::sqrt(x)
}

#[unsafe(no_mangle)]
pub extern "C" fn wilfnusk_atan2(y: f64, z: f64) -> f64
    ensures { result ≡ arctangent y z }
{
    float::atan2(y, z)
}

#[unsafe(no_mangle)]
pub extern "C" fn wilfnusk_sin(r: f64) -> f64
    ensures { result ≡ sine_of r }
{
    float::sin(r)
}

#[unsafe(no_mangle)]
pub extern "C" fn wilfnusk_cos(r: f64) -> f64
    ensures { result ≡ cosine_of r }
{
    float::cos(r)
}

#[unsafe(no_mangle)]
pub extern "C" fn wilfnusk_circular_diff_deg(a: f64, b: f64) -> f64
    ensures { result ≡ circular_diff_deg a b }
{
    solar_roll::circular_diff_deg(a, b)
}
