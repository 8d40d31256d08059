// The total duration of windows.
ghost use Rattle.std.specs.Prelude.{◌≡◌, ◌<◌, false, length, pos, slice_index_or};
ghost use Rattle.std.specs.Float.{binary64};
ghost use Rattle.std.specs.Float.Ieee.{of_int};
ghost use Rattle.buffers.specs.Refusal.{found, replied};
ghost use Rattle.windows.specs.Refusal.{beyond};
ghost use Rattle.windows.specs.Seconds.{seconds, total_seconds, duration_refusal};
ghost use Rattle.windows.specs.Calls.{duration_reply};

use crate::Spans;
use crate::refusal::{MOST_LENT, any_beyond};
use buffers::Refusal;

// Window k's length in whole seconds, toward zero.
fn window_seconds(spans: &Spans, k: usize) -> f64
    requires { let s = spans.now in (k < length s.first.now) × (k < length s.last.now)
        × (beyond (slice_index_or s.first.now k (pos 0)) ≡ false) × (beyond (slice_index_or s.last.now k (pos 0)) ≡ false) }
    ensures { let s = spans.now in result ≡ of_int binary64 (seconds (slice_index_or s.first.now k (pos 0)) (slice_index_or s.last.now k (pos 0))) }
{
    let start = spans.first[k];
    let end = spans.last[k];
    let length = end - start;
    let whole = length / 1_000_000_000;
    whole as f64
}

// The windows' seconds, summed. Every sum is a whole number below 2^53, so that none is rounded.
fn sum_seconds(spans: &Spans) -> f64
    requires { duration_refusal spans.now.first.now spans.now.last.now ≡ 0 }
    ensures { result ≡ of_int binary64 (total_seconds spans.now.first.now spans.now.last.now) }
{
    let mut total = 0.0;
    for k in 0..spans.last.len() {
        total += window_seconds(spans, k);
    }
    total
}

// Why the total duration is refused, if it is.
fn check_windows(spans: &Spans) -> Result<(), Refusal>
    ensures { found result ≡ duration_refusal spans.now.first.now spans.now.last.now }
{
    if spans.last.len() != spans.first.len() {
        return Err(Refusal::LengthsDoNotFit);
    }
    if MOST_LENT < spans.first.len() {
        return Err(Refusal::TooLarge);
    }
    if any_beyond(spans.first) || any_beyond(spans.last) {
        return Err(Refusal::TimeOutOfRange);
    }
    Ok(())
}

// The total duration of the windows in seconds: the whole-number sum, as an f64.
// Refuses 1, 2, 8 (specs/Seconds, `duration_refusal`).
pub fn total_violation_duration(first_time: &[i64], last_time: &[i64]) -> Result<f64, Refusal>
    ensures { replied result ≡ duration_reply first_time.now last_time.now }
{
    let spans = Spans {
        first: first_time,
        last: last_time,
    };
    check_windows(&spans)?;
    Ok(sum_seconds(&spans))
}
