// The sign, the size, the remainder and the bit pattern of an f64.
ghost use Rattle.std.specs.Prelude.{◌≡◌, ◌*◌, ◌%◌, ◌^◌, ◌<◌, ◌≤◌, false, from_bits, to_bits};
ghost use Rattle.std.specs.Float.{binary64};
ghost use Rattle.std.specs.Float.Ieee.{rem, round};
ghost use Rattle.std.specs.Float.Ieee.Exact.{HasValue};
ghost use Rattle.float.specs.Arithmetic.{full_turn, abs_of, finite, rem_euclid, to_degrees};
ghost use Rattle.float.specs.RootSteps.{magnitude};

// A number as digits * 2^shift units of 2^-1074, the smallest value.
#[derive(Clone, Copy)]
struct Shifted {
    digits: u64,
    shift: u64,
}

// x with its sign bit clear. Not by f64::abs, whose two comparisons cost the arctangent 4 % more instructions, and rem_euclid_turn 23 %.
pub fn abs(x: f64) -> f64
    ensures { result ≡ abs_of x }
{
    if x.is_nan() {
        x
    } else {
        f64::from_bits(x.to_bits() % 0x8000_0000_0000_0000)
    }
}

// Whether x is neither an infinity nor a NaN. Not by f64::is_finite, which takes x from itself: of an infinity that raises IEEE 754's invalid operation, which
// a caller may have made a trap.
pub(crate) fn is_finite(x: f64) -> bool
    ensures { result ≡ finite x }
{
    abs(x) < f64::INFINITY
}

// The magnitude of the bit pattern p, which has the sign clear and is no infinity and no NaN. All 53 digits, unless it is subnormal.
fn digits_of(p: u64) -> Shifted
    requires { p < 2047 * 2 ^ 52 }
    ensures value { result.digits * 2 ^ result.shift ≡ magnitude p }
    ensures few { result.digits < 2 ^ 53 }
    ensures finite { result.shift < 2046 }
    ensures normal { 0 < result.shift → 2 ^ 52 ≤ result.digits }
{
    let field = p >> 52;
    if field == 0 {
        return Shifted {
            digits: p,
            shift: 0,
        };
    }
    Shifted {
        digits: 0x10_0000_0000_0000 + p % 0x10_0000_0000_0000,
        shift: field - 1,
    }
}

// The remainder of d * 2^n by m, the power's digits brought down eleven at a time. The last one to eleven take no turn: as few divisions as that allows.
fn reduced(d: u64, n: u64, m: u64) -> u64
    requires { (d < 2 ^ 53) × (0 < m) × (m < 2 ^ 53) }
    ensures { result ≡ (d * 2 ^ n) % m }
{
    let turns = n.saturating_sub(1) / 11;
    let mut r = d;
    for _ in 0..turns {
        r = (r << 11) % m;
    }
    (r << (n - 11 * turns)) % m
}

// 2^k units.
fn power(k: u64) -> f64
    requires { k < 2046 }
    ensures { HasValue result false (2 ^ k) (2 ^ 1074) }
{
    f64::from_bits(if k < 52 { 1 << k } else { (k - 51) << 52 })
}

// r * 2^k units, negated if `negative`.
fn in_units(negative: bool, r: u64, k: u64) -> f64
    requires { (r < 2 ^ 53) × (k < 2046) }
    ensures { result ≡ round binary64 negative (r * 2 ^ k) (2 ^ 1074) }
{
    let size = r as f64;
    let signed = if negative { -size } else { size };
    signed * power(k)
}

// The remainder of a by b, as Rust's `%`: it is exact, and has a's sign. Not by `%` itself, which the kit compiles to a call of `fmod` in the version that the
// C library has since glibc 2.38: where that is older, no program with it starts.
fn remainder(a: f64, b: f64) -> f64
    ensures { result ≡ rem binary64 a b }
{
    if is_finite(a) {
        let q = abs(b);
        if q > 0.0 {
            let p = abs(a);
            if p < q {
                return a;
            }
            let x = digits_of(p.to_bits());
            let y = digits_of(q.to_bits());
            let r = reduced(x.digits, x.shift - y.shift, y.digits);
            return in_units(a.is_sign_negative(), r, y.shift);
        }
    }
    f64::NAN
}

// The remainder of a by b that is not negative, but for rounding.
pub fn rem_euclid(a: f64, b: f64) -> f64
    ensures { result ≡ rem_euclid a b }
{
    let r = remainder(a, b);
    if r < 0.0 { r + abs(b) } else { r }
}

// x % 360, without a division where x lies between -360 and 720.
fn rem_turn(x: f64) -> f64
    ensures { result ≡ rem binary64 x full_turn }
{
    if x > -360.0 {
        if x < 360.0 {
            return x;
        }
        if x < 720.0 {
            return x - 360.0;
        }
    }
    remainder(x, 360.0)
}

// rem_euclid(x, 360.0).
pub fn rem_euclid_turn(x: f64) -> f64
    ensures { result ≡ rem_euclid x full_turn }
{
    let r = rem_turn(x);
    if r < 0.0 { r + 360.0 } else { r }
}

// The angle a, given in radians, in degrees.
#[tactic(auto, unfolding(crate::specs::Arithmetic::to_degrees))]
pub fn to_degrees(a: f64) -> f64
    ensures { result ≡ to_degrees a }
{
    a.to_degrees()
}

// The bit pattern of x; of every NaN 7ff8000000000000.
pub fn bits(x: f64) -> u64
    ensures { result ≡ to_bits binary64 x }
{
    if x.is_nan() {
        0x7ff8_0000_0000_0000
    } else {
        x.to_bits()
    }
}

// The f64 of a bit pattern, a NaN's too.
pub fn of_bits(b: u64) -> f64
    ensures { result ≡ from_bits binary64 b }
{
    if 0x7ff0_0000_0000_0000 < b % 0x8000_0000_0000_0000 {
        f64::NAN
    } else {
        f64::from_bits(b)
    }
}
