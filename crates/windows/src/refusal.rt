// What the window calls look at before they write: lengths, times, mask bytes and severities. Each scan looks at its whole
// list, without a way out of the loop, so that it can run over many elements at a time. Of elements of 64 bits it joins one
// number each by |, whose top bit says what is found: that costs less than comparisons of 64 bits.
ghost use Rattle.std.specs.Prelude.{◌≡◌, ℕ, Bool, int_lt};
ghost use Rattle.buffers.specs.Ranges.{any};
ghost use Rattle.windows.specs.Refusal.{beyond, bad_mark, bad_severity, differ};
ghost use Rattle.windows.specs.Steps.{top_bit};

// The most samples of a row, and the most windows, that a call is lent.
pub(crate) const MOST_LENT: usize = 65_536;

// A number whose top bit is set if the time is beyond 4 * 10^18 nanoseconds either way: the first time beyond gives 2^63.
fn beyond_bit(t: i64) -> u64
    ensures { top_bit result ≡ beyond t }
{
    if t < 0 {
        return (-1 - t) as u64 + 5_223_372_036_854_775_808;
    }
    t as u64 + 5_223_372_036_854_775_807
}

// A number whose top bit is set if x is a NaN, infinite, or has its sign bit set. The bits of any other x are below those of
// infinity, which are 2^63 - 2^52.
fn bad_severity_bit(x: f64) -> u64
    ensures { top_bit result ≡ bad_severity x }
{
    if x.is_nan() {
        return 0xffff_ffff_ffff_ffff;
    }
    let bits = x.to_bits();
    bits | bits.wrapping_add(0x0010_0000_0000_0000)
}

// Whether an element has a property p, if the top bit of its number says so.
fn any_top<T: Copy, F: Fn(T) -> u64>(list: &[T], number: F) -> bool
    requires { F.IsAlwaysCallable number }
    ensures { (p : T → Bool) → ((x : T) (n : ℕ) → F.post number x n → top_bit n ≡ p x) → result ≡ any p list.now }
{
    let mut found = 0u64;
    for x in list {
        found |= number(*x);
    }
    0x8000_0000_0000_0000 <= found
}

pub(crate) fn any_beyond(times: &[i64]) -> bool
    ensures { result ≡ any beyond times.now }
{
    any_top(times, beyond_bit)
}

// Not by `any_top`, which is no plainer here: bytes are compared as they stand, and of numbers of 64 bits an eighth as many are looked at together.
pub(crate) fn any_bad_mark(mask: &[u8]) -> bool
    ensures { result ≡ any bad_mark mask.now }
{
    let mut found = false;
    for byte in mask {
        found |= 1 < *byte;
    }
    found
}

pub(crate) fn any_bad_severity(severities: &[f64]) -> bool
    ensures { result ≡ any bad_severity severities.now }
{
    any_top(severities, bad_severity_bit)
}

// Whether lengths differ: one of them is not the first.
pub(crate) fn differ(lengths: &[usize]) -> bool
    ensures { result ≡ differ lengths.now }
{
    match lengths.split_first() {
        Some((first, rest)) => rest.iter().any(|length| *length != *first),
        None => false,
    }
}
