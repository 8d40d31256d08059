// Catalogue positions.
ghost use Rattle.std.specs.Prelude.{◌≡◌, length};
ghost use Rattle.catalogue.specs.Catalogue.{catalogue_reply, catalogue_after};
ghost use Rattle.wilfnusk.specs.Answers.{int64};

use crate::answers::int64;

// Refuses 1, 16, 7 (catalogue: specs/Catalogue, `catalogue_refusal`).
#[unsafe(no_mangle)]
pub extern "C" fn wilfnusk_radec_to_unit_vectors_batch(
    ra: &[f64],
    dec: &[f64],
    out: &mut [f64],
) -> u64
    ensures value { result ≡ int64 (catalogue_reply ra.now dec.now (length out.old)) }
    ensures out_after { out.new ≡ catalogue_after ra.now dec.now out.old }
{
    int64(catalogue::radec_to_unit_vectors_batch(ra, dec, out))
}
