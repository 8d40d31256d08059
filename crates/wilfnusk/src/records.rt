// Windows of a row as records.
ghost use Rattle.std.specs.Prelude.{◌≡◌};
ghost use Rattle.windows.specs.Calls.{violation_records_reply, violation_records, visibility_records_reply, visibility_records};
ghost use Rattle.wilfnusk.specs.Answers.{int64};

use crate::answers::int64;
use windows::Window;

// Refuses 1, 2, 8, 14, 7 (windows: specs/Refusal, `violation_refusal`).
#[unsafe(no_mangle)]
pub extern "C" fn wilfnusk_violation_records(
    mask: &[u8],
    times: &[i64],
    severities: &[f64],
    out: &mut [Window],
) -> u64
    ensures { (result ≡ int64 (violation_records_reply mask.now times.now severities.now out.old))
        × (out.new ≡ violation_records mask.now times.now severities.now out.old) }
{
    int64(windows::violation_records(mask, times, severities, out))
}

// Refuses 1, 2, 8, 14, 7 (windows: specs/Refusal, `visibility_refusal`).
#[unsafe(no_mangle)]
pub extern "C" fn wilfnusk_visibility_records(mask: &[u8], times: &[i64], out: &mut [Window]) -> u64
    ensures { (result ≡ int64 (visibility_records_reply mask.now times.now out.old))
        × (out.new ≡ visibility_records mask.now times.now out.old) }
{
    int64(windows::visibility_records(mask, times, out))
}
