// The series of the arctangent, the sine and the cosine.
ghost use Rattle.std.specs.Prelude.{◌≡◌};
ghost use Rattle.float.specs.Series.{series_at};

// The series with the coefficients c(0) to c(8), at t, by Horner's rule from the highest.
pub(crate) fn series(c: &[f64; 9], t: f64) -> f64
    ensures { result ≡ series_at c.now t }
{
    c[..8].iter().rev().fold(c[8], |p, a| a + t * p)
}
