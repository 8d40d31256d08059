// The windows of a row: each by value, and listed into lent columns.
ghost use Rattle.std.specs.Prelude.{◌≡◌, ℕ, ◌+◌, ◌<◌, ◌≤◌, List, length};
ghost use Rattle.buffers.specs.Refusal.{reply, unless_refused, replied};
ghost use Rattle.windows.specs.Runs.{Run, run};
ghost use Rattle.windows.specs.Windows.{largest, window_of, Columns, columns, written};
ghost use Rattle.windows.specs.Refusal.{lengths};
ghost use Rattle.windows.specs.Calls.{violation_reply, violation_columns, visibility_reply, visibility_columns};
ghost use Rattle.windows.specs.Steps.{severity_of, runs_left, windows_left, uneven, listing_refusal, Room, stored};

use crate::refusal::{MOST_LENT, any_bad_mark, any_bad_severity, any_beyond, differ};
use crate::runs::{count_runs, next_run};
use crate::{Listing, Samples, Window};
use buffers::Refusal;

// The largest severity of the samples from first to last.
fn largest_severity(severities: &[f64], first: usize, last: usize) -> f64
    requires { (first ≤ last) × (last < length severities.now) }
    ensures { result ≡ largest severities.now (run first last) }
{
    let mut most = severities[first];
    for i in first + 1..last + 1 {
        if most < severities[i] {
            most = severities[i];
        }
    }
    most
}

// The severity of a window from first to last.
#[tactic(auto, unfolding(crate::specs::Steps::severity_of))]
fn severity_of(listing: Listing, severities: &[f64], first: usize, last: usize) -> f64
    requires { (first ≤ last) × (listing ≡ Listing.Violations → last < length severities.now) }
    ensures { result ≡ severity_of listing severities.now (run first last) }
{
    match listing {
        Listing::Violations => largest_severity(severities, first, last),
        Listing::Visibility => 0.0,
    }
}

// The window from first to last, by value.
fn window_at(times: &[i64], first: usize, last: usize, severity: f64) -> Window
    requires { (first ≤ last) × (last < length times.now) }
    ensures { result ≡ window_of times.now (λ (_ : Run). severity) (run first last) }
{
    Window {
        first: first as u64,
        last: last as u64,
        first_time: times[first],
        last_time: times[last],
        severity: severity,
        is_last: u64::from(last + 1 == times.len()),
    }
}

// The window of the run from first to last in a listing, by value.
pub(crate) fn run_window(listing: Listing, row: &Samples, first: usize, last: usize) -> Window
    requires { (first ≤ last) × (last < length row.now.times.now) × (listing ≡ Listing.Violations → last < length row.now.severities.now) }
    ensures { result ≡ window_of row.now.times.now (severity_of listing row.now.severities.now) (run first last) }
{
    let severity = severity_of(listing, row.severities, first, last);
    window_at(row.times, first, last, severity)
}

// Whether a row's lists differ in length.
#[tactic(auto, unfolding(crate::specs::Steps::uneven))]
fn is_uneven(listing: Listing, row: &Samples) -> bool
    ensures { result ≡ uneven listing row.now.mask.now row.now.times.now row.now.severities.now }
{
    match listing {
        Listing::Violations => differ(&[row.mask.len(), row.times.len(), row.severities.len()]),
        Listing::Visibility => differ(&[row.mask.len(), row.times.len()]),
    }
}

// How many windows a listing gives, or why it refuses. `places` are the lengths of the lists that it is lent for them.
pub(crate) fn count_windows(
    listing: Listing,
    row: &Samples,
    places: &[usize],
) -> Result<usize, Refusal>
    ensures { replied result
        ≡ reply (listing_refusal listing row.now.mask.now row.now.times.now row.now.severities.now places.now)
        (length (runs_left listing row.now.mask.now 0)) }
{
    if is_uneven(listing, row) || differ(places) {
        return Err(Refusal::LengthsDoNotFit);
    }
    if MOST_LENT < row.mask.len() {
        return Err(Refusal::TooLarge);
    }
    if any_beyond(row.times) {
        return Err(Refusal::TimeOutOfRange);
    }
    if any_bad_mark(row.mask) || any_bad_severity(row.severities) {
        return Err(Refusal::SampleInvalid);
    }
    let count = count_runs(listing, row.mask);
    if places.first().copied().unwrap_or(0) < count {
        return Err(Refusal::OutputTooShort);
    }
    Ok(count)
}

// Stores a window at place k of the columns.
fn store(
    k: usize,
    w: Window,
    first: &mut [u64],
    last: &mut [u64],
    first_time: &mut [i64],
    last_time: &mut [i64],
    severity: &mut [f64],
    is_last: &mut [u8],
)
    requires { Room (k + 1) (columns first.old last.old first_time.old last_time.old severity.old is_last.old)
        × (w.is_last ≤ 1) }
    ensures { let lent : Columns = columns first.old last.old first_time.old last_time.old
        severity.old is_last.old in
        columns first.new last.new first_time.new last_time.new severity.new is_last.new
        ≡ stored k w lent }
{
    let start = w.first_time;
    let end = w.last_time;
    first[k] = w.first;
    last[k] = w.last;
    first_time[k] = start;
    last_time[k] = end;
    severity[k] = w.severity;
    is_last[k] = w.is_last as u8;
}

// Either listing, into columns. The six stay parameters: in a struct of `&mut` each contract would also have to say of each of the six references that it
// is still the same one. A copy of its own for each listing leaves out what the other does.
#[inline(always)]
fn list_windows(
    listing: Listing,
    row: &Samples,
    first: &mut [u64],
    last: &mut [u64],
    first_time: &mut [i64],
    last_time: &mut [i64],
    severity: &mut [f64],
    is_last: &mut [u8],
) -> Result<u64, Refusal>
    ensures { let lent : Columns = columns first.old last.old first_time.old last_time.old
        severity.old is_last.old in
        let left : List Window = windows_left listing row.now.mask.now row.now.times.now row.now.severities.now 0 in
        let why : ℕ = listing_refusal listing row.now.mask.now row.now.times.now row.now.severities.now (lengths lent) in
        (replied result ≡ reply why (length left))
        × (columns first.new last.new first_time.new last_time.new severity.new is_last.new
        ≡ unless_refused why (written left lent) lent) }
{
    let places = [
        first.len(),
        last.len(),
        first_time.len(),
        last_time.len(),
        severity.len(),
        is_last.len(),
    ];
    let count = count_windows(listing, row, &places)?;
    let mut from = 0usize;
    for k in 0..count {
        let run = next_run(listing, row.mask, from).unwrap();
        from = run.end;
        let w = run_window(listing, row, run.start, from - 1);
        store(k, w, first, last, first_time, last_time, severity, is_last);
    }
    Ok(count as u64)
}

// The violation windows of a row: its maximal runs of marked samples. Answers how many there are.
// Refuses 1, 2, 8, 14, 7 (specs/Refusal, `violation_refusal`).
pub fn violation_windows(
    mask: &[u8],
    times: &[i64],
    severities: &[f64],
    first: &mut [u64],
    last: &mut [u64],
    first_time: &mut [i64],
    last_time: &mut [i64],
    severity: &mut [f64],
    is_last: &mut [u8],
) -> Result<u64, Refusal>
    ensures { let lent : Columns = columns first.old last.old first_time.old last_time.old
        severity.old is_last.old in
        (replied result ≡ violation_reply mask.now times.now severities.now lent)
        × (columns first.new last.new first_time.new last_time.new severity.new is_last.new
        ≡ violation_columns mask.now times.now severities.now lent) }
{
    let row = Samples {
        mask,
        times,
        severities,
    };
    list_windows(
        Listing::Violations,
        &row,
        first,
        last,
        first_time,
        last_time,
        severity,
        is_last,
    )
}

// The visibility windows of a row: its maximal runs of clear samples that rule V keeps. Answers how many there are.
// Refuses 1, 2, 8, 14, 7 (specs/Refusal, `visibility_refusal`).
pub fn visibility_windows(
    mask: &[u8],
    times: &[i64],
    first: &mut [u64],
    last: &mut [u64],
    first_time: &mut [i64],
    last_time: &mut [i64],
    severity: &mut [f64],
    is_last: &mut [u8],
) -> Result<u64, Refusal>
    ensures { let lent : Columns = columns first.old last.old first_time.old last_time.old
        severity.old is_last.old in
        (replied result ≡ visibility_reply mask.now times.now lent)
        × (columns first.new last.new first_time.new last_time.new severity.new is_last.new
        ≡ visibility_columns mask.now times.now lent) }
{
    let row = Samples {
        mask,
        times,
        severities: &[],
    };
    list_windows(
        Listing::Visibility,
        &row,
        first,
        last,
        first_time,
        last_time,
        severity,
        is_last,
    )
}
