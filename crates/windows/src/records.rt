// The same listings, as records: each window comes by value, and is stored into a lent slice of structs.
ghost use Rattle.std.specs.Prelude.{◌≡◌, ℕ, ◌+◌, ◌<◌, ◌≤◌, List, [], ◌∷◌, length};
ghost use Rattle.buffers.specs.Lent.{over};
ghost use Rattle.buffers.specs.Refusal.{reply, unless_refused, replied};
ghost use Rattle.windows.specs.Calls.{violation_records_reply, violation_records, visibility_records_reply, visibility_records};
ghost use Rattle.windows.specs.Steps.{windows_left, listing_refusal, Row};

use crate::listings::{count_windows, run_window};
use crate::runs::next_run;
use crate::{Listing, Samples, Window};
use buffers::Refusal;

// The next window from sample `from` on, by value. The caller knows that there is one. In place at its call, so that the next run need not wait for a window
// to go through memory.
#[inline(always)]
fn next_window(listing: Listing, row: &Samples, from: usize) -> Window
    requires { (from ≤ length row.now.mask.now) × Row listing row.now.mask.now row.now.times.now row.now.severities.now
        × (0 < length (windows_left listing row.now.mask.now row.now.times.now row.now.severities.now from)) }
    ensures { let left : ℕ → List Window = windows_left listing row.now.mask.now row.now.times.now row.now.severities.now in
        (left from ≡ result ∷ left (result.last + 1)) × (result.last < length row.now.mask.now) × (result.is_last ≤ 1) }
{
    let run = next_run(listing, row.mask, from).unwrap();
    run_window(listing, row, run.start, run.end - 1)
}

// Either listing, as records: a copy of its own for each, as of `list_windows`.
#[inline(always)]
fn list_records(listing: Listing, row: &Samples, out: &mut [Window]) -> Result<u64, Refusal>
    ensures { let left : List Window = windows_left listing row.now.mask.now row.now.times.now row.now.severities.now 0 in
        let why : ℕ = listing_refusal listing row.now.mask.now row.now.times.now row.now.severities.now (length out.old ∷ []) in
        (replied result ≡ reply why (length left))
        × (out.new ≡ unless_refused why (over left out.old) out.old) }
{
    let count = count_windows(listing, row, &[out.len()])?;
    let mut from = 0usize;
    for k in 0..count {
        let w = next_window(listing, row, from);
        from = w.last as usize + 1;
        out[k] = w;
    }
    Ok(count as u64)
}

// The violation windows of a row, as records. Answers how many there are.
// Refuses 1, 2, 8, 14, 7 (specs/Refusal, `violation_refusal`).
pub fn violation_records(
    mask: &[u8],
    times: &[i64],
    severities: &[f64],
    out: &mut [Window],
) -> Result<u64, Refusal>
    ensures { (replied result ≡ violation_records_reply mask.now times.now severities.now out.old)
        × (out.new ≡ violation_records mask.now times.now severities.now out.old) }
{
    let row = Samples {
        mask,
        times,
        severities,
    };
    list_records(Listing::Violations, &row, out)
}

// The visibility windows of a row, as records. Answers how many there are.
// Refuses 1, 2, 8, 14, 7 (specs/Refusal, `visibility_refusal`).
pub fn visibility_records(mask: &[u8], times: &[i64], out: &mut [Window]) -> Result<u64, Refusal>
    ensures { (replied result ≡ visibility_records_reply mask.now times.now out.old)
        × (out.new ≡ visibility_records mask.now times.now out.old) }
{
    let row = Samples {
        mask,
        times,
        severities: &[],
    };
    list_records(Listing::Visibility, &row, out)
}
