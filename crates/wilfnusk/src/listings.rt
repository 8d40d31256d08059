// Windows of a row, their expansion and their seconds.
ghost use Rattle.std.specs.Prelude.{◌≡◌, Float};
ghost use Rattle.buffers.specs.Refusal.{Reply};
ghost use Rattle.windows.specs.Calls.{violation_reply, violation_columns, visibility_reply, visibility_columns, expand_reply, expand_mask, duration_reply};
ghost use Rattle.windows.specs.Windows.{Columns, columns};
ghost use Rattle.wilfnusk.specs.Answers.{int64, number_answer, number_written};

use crate::answers::{int64, minus};
use windows::total_violation_duration;

// Refuses 1, 2, 8, 14, 7 (windows: specs/Refusal, `violation_refusal`).
#[unsafe(no_mangle)]
pub extern "C" fn wilfnusk_violation_windows(
    mask: &[u8],
    times: &[i64],
    severities: &[f64],
    first: &mut [u64],
    last: &mut [u64],
    first_time: &mut [i64],
    last_time: &mut [i64],
    severity: &mut [f64],
    is_last: &mut [u8],
) -> u64
    ensures { let lent : Columns = columns first.old last.old first_time.old last_time.old
        severity.old is_last.old in
        (result ≡ int64 (violation_reply mask.now times.now severities.now lent))
        × (columns first.new last.new first_time.new last_time.new severity.new is_last.new
        ≡ violation_columns mask.now times.now severities.now lent) }
{
    int64(windows::violation_windows(
        mask, times, severities, first, last, first_time, last_time, severity, is_last,
    ))
}

// Refuses 1, 2, 8, 14, 7 (windows: specs/Refusal, `visibility_refusal`).
#[unsafe(no_mangle)]
pub extern "C" fn wilfnusk_visibility_windows(
    mask: &[u8],
    times: &[i64],
    first: &mut [u64],
    last: &mut [u64],
    first_time: &mut [i64],
    last_time: &mut [i64],
    severity: &mut [f64],
    is_last: &mut [u8],
) -> u64
    ensures { let lent : Columns = columns first.old last.old first_time.old last_time.old
        severity.old is_last.old in
        (result ≡ int64 (visibility_reply mask.now times.now lent))
        × (columns first.new last.new first_time.new last_time.new severity.new is_last.new
        ≡ visibility_columns mask.now times.now lent) }
{
    int64(windows::visibility_windows(
        mask, times, first, last, first_time, last_time, severity, is_last,
    ))
}

// Refuses 1, 2, 8, 7 (windows: specs/Expand, `expand_refusal`).
#[unsafe(no_mangle)]
pub extern "C" fn wilfnusk_expand(
    first_time: &[i64],
    last_time: &[i64],
    times: &[i64],
    mask: &mut [u8],
) -> u64
    ensures value { result ≡ int64 (expand_reply first_time.now last_time.now times.now mask.old) }
    ensures mask_after { mask.new ≡ expand_mask first_time.now last_time.now times.now mask.old }
{
    int64(windows::expand(first_time, last_time, times, mask))
}

// Refuses 1, 2, 8 (windows: specs/Seconds, `duration_refusal`).
#[unsafe(no_mangle)]
pub extern "C" fn wilfnusk_total_violation_duration(
    first_time: &[i64],
    last_time: &[i64],
    seconds: &mut f64,
) -> u64
    ensures { let total : Reply Float = duration_reply first_time.now last_time.now in
        (result ≡ int64 (number_answer total)) × (seconds.new ≡ number_written total seconds.old) }
{
    match total_violation_duration(first_time, last_time) {
        Ok(total) => {
            *seconds = total;
            0
        }
        Err(refusal) => minus(refusal.number()),
    }
}
