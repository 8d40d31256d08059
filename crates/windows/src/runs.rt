// The runs of a mask, one after the other.
ghost use Rattle.std.specs.Prelude.{◌≡◌, ℕ, ◌+◌, ◌-◌, ◌<◌, ◌≤◌, false, not, ◌&&◌, [], length, drop, ◌==◌, nat_eq, MatchOption};
ghost use Rattle.windows.specs.Runs.{run, samples_are};
ghost use Rattle.windows.specs.Refusal.{most_lent};
ghost use Rattle.windows.specs.Steps.{leading, starts, byte_of, keeps, runs_left, IsNextRun};

use crate::Listing;
use crate::refusal::MOST_LENT;
use std::ops::Range;

// The byte whose runs are listed.
#[tactic(auto, unfolding(crate::specs::Steps::byte_of))]
fn byte_of(listing: Listing) -> u8
    ensures { result ≡ byte_of listing }
{
    match listing {
        Listing::Violations => 1,
        Listing::Visibility => 0,
    }
}

// Whether a maximal run of that byte is listed.
#[tactic(auto, unfolding(crate::specs::Steps::keeps, crate::specs::Runs::rule_v))]
fn is_listed(listing: Listing, first: usize, end: usize, samples: usize) -> bool
    requires { first < end }
    ensures { result ≡ keeps listing samples (run first (end - 1)) }
{
    match listing {
        Listing::Violations => true,
        Listing::Visibility => {
            if end == samples {
                return true;
            }
            1 < end - first
        }
    }
}

// The first sample from `from` on that is not the byte v, or the number of samples. It stays a `while`: by `position` alternating violation windows took
// 19 % more instructions, and by `for` one long visibility window took 13 % more.
fn end_of_run(mask: &[u8], v: u8, from: usize) -> usize
    requires { from ≤ length mask.now }
    ensures { result ≡ from + leading (λ (b : ℕ). nat_eq b v) (drop from mask.now) }
{
    let mut i = from;
    while i < mask.len() {
        if mask[i] != v {
            return i;
        }
        i += 1;
    }
    i
}

// The next run that is listed from sample `from` on, where no run is open: its samples' numbers. A `for` would be no
// plainer: it goes on from sample to sample, and this from run to run.
pub(crate) fn next_run(listing: Listing, mask: &[u8], from: usize) -> Option<Range<usize>>
    requires { from ≤ length mask.now }
    ensures { MatchOption result (runs_left listing mask.now from ≡ [])
        (λ r. IsNextRun listing mask.now from r.start r.end) }
{
    let samples = mask.len();
    let v = byte_of(listing);
    let mut at = from;
    while at < samples {
        let first = at;
        at += 1;
        if mask[first] == v {
            at = end_of_run(mask, v, at);
            if is_listed(listing, first, at, samples) {
                return Some(first..at);
            }
        }
    }
    None
}

// How many runs are listed, one after the other.
fn count_listed(listing: Listing, mask: &[u8]) -> usize
    ensures { (result ≡ length (runs_left listing mask.now 0)) × (result ≤ length mask.now) }
{
    let mut count = 0usize;
    let mut from = 0usize;
    while let Some(run) = next_run(listing, mask, from) {
        from = run.end;
        count += 1;
    }
    count
}

// Whether a run of marked samples starts at this byte.
fn is_start(before: u8, byte: u8) -> bool
    ensures { result ≡ (byte == 1 && not (before == 1)) }
{
    byte == 1 && before != 1
}

// How many runs of marked samples start in a row. No turn of the loop waits for the one before it, so that it can run over many
// samples at a time: over more of them with a counter of 32 bits, which a row's count fits, than with one of 64.
fn count_starts(mask: &[u8]) -> u32
    requires { length mask.now ≤ most_lent }
    ensures { result ≡ starts false (samples_are 1 mask.now) }
{
    if mask.is_empty() {
        return 0;
    }
    let mut count = 0u32;
    for i in 1..mask.len() {
        count += u32::from(is_start(mask[i - 1], mask[i]));
    }
    count + u32::from(is_start(0, mask[0]))
}

// How many runs are listed. Every run of marked samples is, so that it is enough to count their starts.
pub(crate) fn count_runs(listing: Listing, mask: &[u8]) -> usize
    ensures { (result ≡ length (runs_left listing mask.now 0)) × (result ≤ length mask.now) }
{
    match listing {
        Listing::Violations => {
            if mask.len() <= MOST_LENT {
                return count_starts(mask) as usize;
            }
            count_listed(listing, mask)
        }
        Listing::Visibility => count_listed(listing, mask),
    }
}
