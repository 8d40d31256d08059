// Windows back to a mask: `_get_constraint_vec`, both branches.
ghost use Rattle.std.specs.Prelude.{◌≡◌, ◌<◌, ◌≤◌, List, length, drop, pos, int_lt, slice_index_or};
ghost use Rattle.buffers.specs.Lent.{over};
ghost use Rattle.buffers.specs.Refusal.{found, replied};
ghost use Rattle.windows.specs.Expand.{Span, in_order, skip, in_first, expanded_in_order, in_some, expanded_reordered, expand_refusal};
ghost use Rattle.windows.specs.Calls.{expand_reply, expand_mask};
ghost use Rattle.windows.specs.Steps.{Even, spans_of};

use crate::Spans;
use crate::refusal::{MOST_LENT, any_beyond};
use buffers::Refusal;

// Whether time i of a is before time j of b.
fn is_earlier(a: &[i64], i: usize, b: &[i64], j: usize) -> bool
    requires { (i < length a.now) × (j < length b.now) }
    ensures { result ≡ int_lt (slice_index_or a.now i (pos 0)) (slice_index_or b.now j (pos 0)) }
{
    let x = a[i];
    let y = b[j];
    x < y
}

// Whether no time is before the one that stands before it.
fn in_order(times: &[i64]) -> bool
    ensures { result ≡ in_order times.now }
{
    times.is_sorted()
}

impl Spans<'_> {
    // The first window from number `from` on that did not end before time i.
    fn skip_ended(&self, from: usize, times: &[i64], i: usize) -> usize
        requires { (i < length times.now) × (from ≤ length self.now.last.now) × Even self.now }
        ensures { let ws : List Span = spans_of self.now in
            (result ≤ length self.now.last.now) × (drop result ws ≡ skip (slice_index_or times.now i (pos 0)) (drop from ws)) }
    {
        for j in from..self.last.len() {
            if !is_earlier(self.last, j, times, i) {
                return j;
            }
        }
        self.last.len()
    }

    // Whether time i lies in window j. If there is no such window, it doesn't.
    fn is_in(&self, j: usize, times: &[i64], i: usize) -> bool
        requires { (i < length times.now) × Even self.now }
        ensures { result ≡ in_first (slice_index_or times.now i (pos 0)) (drop j (spans_of self.now)) }
    {
        if self.last.len() <= j {
            return false;
        }
        !is_earlier(times, i, self.first, j) && !is_earlier(self.last, j, times, i)
    }

    // Whether time i lies in a window that stands before the first window that starts after it.
    fn is_among(&self, times: &[i64], i: usize) -> bool
        requires { (i < length times.now) × Even self.now }
        ensures { result ≡ in_some (slice_index_or times.now i (pos 0)) (spans_of self.now) }
    {
        for j in 0..self.last.len() {
            if is_earlier(times, i, self.first, j) {
                return false;
            }
            if !is_earlier(self.last, j, times, i) {
                return true;
            }
        }
        false
    }
}

// Times in order: windows that have ended are passed once, and not looked at again for later times.
fn expand_in_order(spans: &Spans, times: &[i64], mask: &mut [u8])
    requires { (length times.now ≤ length mask.old) × Even spans.now }
    ensures { mask.new ≡ over (expanded_in_order times.now (spans_of spans.now)) mask.old }
{
    let mut j = 0usize;
    for i in 0..times.len() {
        j = spans.skip_ended(j, times, i);
        mask[i] = u8::from(spans.is_in(j, times, i));
    }
}

// Times in any order: the windows are looked through for each.
fn expand_reordered(spans: &Spans, times: &[i64], mask: &mut [u8])
    requires { (length times.now ≤ length mask.old) × Even spans.now }
    ensures { mask.new ≡ over (expanded_reordered times.now (spans_of spans.now)) mask.old }
{
    for i in 0..times.len() {
        mask[i] = u8::from(spans.is_among(times, i));
    }
}

// Why expand is refused, if it is.
fn check_expand(spans: &Spans, times: &[i64], places: usize) -> Result<(), Refusal>
    ensures { found result ≡ expand_refusal spans.now.first.now spans.now.last.now times.now places }
{
    if spans.last.len() != spans.first.len() {
        return Err(Refusal::LengthsDoNotFit);
    }
    if MOST_LENT < spans.first.len() || MOST_LENT < times.len() {
        return Err(Refusal::TooLarge);
    }
    if any_beyond(spans.first) || any_beyond(spans.last) || any_beyond(times) {
        return Err(Refusal::TimeOutOfRange);
    }
    if places < times.len() {
        return Err(Refusal::OutputTooShort);
    }
    Ok(())
}

// Writes a byte for each time: 1 where a window holds it, else 0. Accepts with 0.
// Refuses 1, 2, 8, 7 (specs/Expand, `expand_refusal`).
pub fn expand(
    first_time: &[i64],
    last_time: &[i64],
    times: &[i64],
    mask: &mut [u8],
) -> Result<u64, Refusal>
    ensures answer { replied result ≡ expand_reply first_time.now last_time.now times.now mask.old }
    ensures mask { mask.new ≡ expand_mask first_time.now last_time.now times.now mask.old }
{
    let spans = Spans {
        first: first_time,
        last: last_time,
    };
    check_expand(&spans, times, mask.len())?;
    if in_order(times) {
        expand_in_order(&spans, times, mask);
    } else {
        expand_reordered(&spans, times, mask);
    }
    Ok(0)
}
