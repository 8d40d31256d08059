// The vectors of catalogue positions, right ascension and declination in degrees.
#![tactic(auto)]

ghost use Rattle.std.specs.Prelude.{◌≡◌, ◌||◌, ◌*◌, ◌≤◌, length};
ghost use Rattle.buffers.specs.Ranges.{any};
ghost use Rattle.buffers.specs.Lent.{filled};
ghost use Rattle.buffers.specs.Refusal.{found, replied};
ghost use Rattle.catalogue.specs.Catalogue.{radec_to_unit, outside, bad_ra, bad_dec, catalogue_number, catalogue_refusal, catalogue_reply, catalogue_after};

use buffers::Refusal;
use float::{sin_cos, to_radians};

// The unit vector of a position.
#[tactic(auto, unfolding(crate::specs::Catalogue::radec_to_unit, float::specs::Trigonometry::sine_of, float::specs::Trigonometry::cosine_of))]
pub fn radec_to_unit(ra_deg: f64, dec_deg: f64) -> [f64; 3]
    ensures { result ≡ radec_to_unit ra_deg dec_deg }
{
    let dec = sin_cos(to_radians(dec_deg));
    let ra = sin_cos(to_radians(ra_deg));
    [dec.cos * ra.cos, dec.cos * ra.sin, dec.sin]
}

// Whether a number is not within low to high.
#[tactic(auto, unfolding(crate::specs::Catalogue::outside))]
fn any_outside(xs: &[f64], low: f64, high: f64) -> bool
    ensures { result ≡ any (outside low high) xs.now }
{
    xs.iter().any(|x| !(low <= *x && *x <= high))
}

// 16: an RA not within 0 to 360, or a Dec not within -90 to 90.
#[tactic(auto, unfolding(crate::specs::Catalogue::bad_ra, crate::specs::Catalogue::bad_dec))]
fn out_of_range(ras: &[f64], decs: &[f64]) -> bool
    ensures { result ≡ any bad_ra ras.now || any bad_dec decs.now }
{
    any_outside(ras, 0.0, 360.0) || any_outside(decs, -90.0, 90.0)
}

// The first refusal; `room` is the length of the lent list.
#[tactic(auto, unfolding(crate::specs::Catalogue::catalogue_refusal, buffers::specs::Refusal::first))]
fn catalogue_refusal(ras: &[f64], decs: &[f64], room: usize) -> Result<(), Refusal>
    ensures { found result ≡ catalogue_refusal ras.now decs.now room }
{
    if ras.len() != decs.len() {
        return Err(Refusal::LengthsDoNotFit);
    }
    if out_of_range(ras, decs) {
        return Err(Refusal::RadecOutOfRange);
    }
    if room / 3 < ras.len() {
        return Err(Refusal::OutputTooShort);
    }
    Ok(())
}

// Writes each position's vector. By the position's number: once `chunks_exact_mut` has lent its parts, a proof knows no
// number of them.
fn write_units(ras: &[f64], decs: &[f64], out: &mut [f64])
    requires { (length ras.now ≡ length decs.now) × (3 * length ras.now ≤ length out.old) }
    ensures { out.new ≡ filled (3 * length ras.now) (catalogue_number ras.now decs.now) out.old }
{
    for (i, ra) in ras.iter().enumerate() {
        let unit = radec_to_unit(*ra, decs[i]);
        out[3 * i..3 * i + 3].copy_from_slice(&unit);
    }
}

// The unit vectors of all positions, one after the other: x, y, z a position.
// Refuses 1, 16, 7 (specs/Catalogue, `catalogue_refusal`).
pub fn radec_to_unit_vectors_batch(
    ras_deg: &[f64],
    decs_deg: &[f64],
    out: &mut [f64],
) -> Result<u64, Refusal>
    ensures result_value { replied result ≡ catalogue_reply ras_deg.now decs_deg.now (length out.old) }
    ensures out_after { out.new ≡ catalogue_after ras_deg.now decs_deg.now out.old }
{
    catalogue_refusal(ras_deg, decs_deg, out.len())?;
    write_units(ras_deg, decs_deg, out);
    Ok(0)
}
