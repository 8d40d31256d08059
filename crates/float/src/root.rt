// The square root of an f64: IEEE 754-2019's squareRoot, to nearest, ties to even, in the order in which its text has it worked out: special operands; the
// intermediate result, as the floor of the root of a scaled significand and whether it is exact; rounding. Numbers such as 5.4.1 are its clauses.
//
// Step 2 first tries a guess of the root, made by float steps. Nothing is promised of it: it is checked exactly, with integers.
//
// Not by f64::sqrt, which is the processor's root: these steps, and what is promised of each, are asked for (docs/PROOF.md, request Six).
ghost use Rattle.std.specs.Prelude.{◌≡◌, ◌*◌, ◌^◌, ◌<◌, ◌≤◌, false};
ghost use Rattle.std.specs.Float.{binary64};
ghost use Rattle.std.specs.Float.Ieee.{units};
ghost use Rattle.float.specs.Root.{sqrt_of};
ghost use Rattle.float.specs.RootSteps.{operand_of, paired_of, scaled_of, LargestRoot, rounded_of, Tried};

// A number as significand * 4^half.
#[derive(Clone, Copy)]
struct Scaled {
    significand: u64,
    half: u64,
}

// The floor of a square root, and whether it is the root. No Option: `root` is read either way.
#[derive(Clone, Copy)]
struct Floor {
    root: u64,
    exact: bool,
}

// Step 1 (5.4.1, squareRoot): the answer of a special operand; none where the operand is finite and above 0.
fn special(x: f64) -> Option<f64>
    ensures { result ≡ operand_of x }
{
    if x > 0.0 {
        // 6.1: +infinity is its own root.
        return if x < f64::INFINITY { None } else { Some(x) };
    }
    if x < 0.0 {
        // 7.2, invalid operation: below 0, -infinity among them, there is no root.
        return Some(f64::NAN);
    }
    // 6.3: the root of -0 is -0, and that of +0 is +0. 6.2: the root of a NaN is NaN.
    Some(x)
}

// m * 2^e as a number times a power of four.
fn paired(m: u64, e: u64) -> Scaled
    requires { (2 ^ 52 ≤ m) × (m < 2 ^ 53) }
    ensures { result ≡ paired_of m e }
{
    Scaled {
        significand: m << (e % 2),
        half: e / 2,
    }
}

// The square of the root of the pattern b's number, in units of the smallest value: its magnitude times 2^1074.
fn scale(b: u64) -> Scaled
    requires { (0 < b) × (b < 2047 * 2 ^ 52) }
    ensures { result ≡ scaled_of b }
{
    let field = b >> 52;
    if field == 0 {
        let z = b.leading_zeros() as u64 - 11;
        paired(b << z, 1074 - z)
    } else {
        paired(0x10_0000_0000_0000 + b % 0x10_0000_0000_0000, field + 1073)
    }
}

// The floor of the root of m * 2^54, digit by digit: each turn brings two bits down.
fn floor_by_digits(m: u64) -> Floor
    requires { m < 2 ^ 54 }
    ensures { LargestRoot (m * 2 ^ 54) result }
{
    let mut bits = m << 10;
    let mut root: u64 = 0;
    let mut rest: u64 = 0;
    for _ in 0..54u64 {
        rest = rest * 4 + (bits >> 62);
        bits = bits << 2;
        let trial = root * 4 + 1;
        root = root * 2;
        if trial <= rest {
            rest -= trial;
            root += 1;
        }
    }
    Floor {
        root,
        exact: rest == 0,
    }
}

// The floor of the root of m * 2^54, if step 3 makes q of it: if m * 2^52 lies above the square of q - 1/2 and below that of q + 1/2.
// With d = q - 1, squared by its upper and its lower digits, `rest` is m * 2^52 - d * d, and t is `rest` - q: it is d where m * 2^52 is the square of q. A
// difference below 0 wraps, and is too large for the next test; the tests of `over` and `part` also keep the products within 64 bits. What is found is
// written so that the compiler sees that step 3 makes q of it.
fn near(m: u64, q: u64) -> Option<Floor>
    requires { (m < 2 ^ 54) × (2 ^ 52 ≤ q) × (q < 2 ^ 53) }
    ensures { Tried (m * 2 ^ 54) q result }
{
    let d = q - 1;
    let a = d / 0x400_0000;
    let c = d % 0x400_0000;
    let over = m.wrapping_sub(a * a);
    if over < 0x1000_0000 {
        let part = (over * 0x200_0000).wrapping_sub(a * c);
        if part < 0x4000_0000 {
            let rest = (part * 0x800_0000).wrapping_sub(c * c);
            let t = rest.wrapping_sub(q);
            if t <= q * 2 - 1 {
                if t == d {
                    return Some(Floor {
                        root: q * 2,
                        exact: true,
                    });
                }
                let up = u64::from(t >= d);
                return Some(Floor {
                    root: d * 2 + 1 + up,
                    exact: false,
                });
            }
        }
    }
    None
}

// Step 2 (5.1, the intermediate result): the largest whole number whose square does not pass m * 2^54, and whether it meets it. Of the guess g nothing is
// asked: its digits are tried.
fn floor_root(m: u64, g: f64) -> Floor
    requires { m < 2 ^ 54 }
    ensures { LargestRoot (m * 2 ^ 54) result }
{
    if !g.is_nan() {
        let q = 0x10_0000_0000_0000 + g.to_bits() % 0x10_0000_0000_0000;
        if let Some(f) = near(m, q) {
            return f;
        }
    }
    floor_by_digits(m)
}

// q times 2^k units, q having 53 digits, or the next power of two.
fn packed(q: u64, k: u64) -> f64
    requires { (2 ^ 52 ≤ q) × (q ≤ 2 ^ 53) × (k < 2000) }
    ensures { result ≡ units binary64 false q k }
{
    f64::from_bits(k * 0x10_0000_0000_0000 + q)
}

// Step 3 (4.3.1, roundTiesToEven): to nearest, ties to even. The root is half of f's number or, where that is not exact, between this half and the next.
fn rounded(f: Floor, k: u64) -> f64
    requires { (2 ^ 53 ≤ f.root) × (f.root < 2 ^ 54) × (k < 2000) }
    ensures { result ≡ units binary64 false (rounded_of f) k }
{
    let root = f.root;
    let q = (root + 1) / 2;
    if f.exact {
        // Half of an odd number was rounded up: down again, where that is the even one.
        return packed(q - (root % 2) * (q % 2), k);
    }
    packed(q, k)
}

// About the root of f, from g, about the root, and h, about half of 1 / root(f): g to 26 digits, so that its square is exact; then what that leaves of f,
// divided by twice the root. Nothing is promised of it.
fn root_near(f: f64, g: f64, h: f64) -> f64 {
    let s = (g + 201326592.0) - 201326592.0;
    let t = s * s;
    s + (f - t) * h * (1.5 - (f + t) * (h * h))
}

// The same, from y, about 1 / root(f).
pub(crate) fn root_by_inverse(f: f64, y: f64) -> f64 {
    root_near(f, f * y, 0.5 * y)
}

// About the root of the normal pattern b's number times a power of four, from 1/2 to 2: its nearest f64 but for few operands. Nothing is promised of it, and of
// a subnormal pattern it is another number's.
fn guess(b: u64) -> f64 {
    // The number times a power of four, from 1/2 to 2.
    let n = b % 0x20_0000_0000_0000 + 0x3fe0_0000_0000_0000;
    let f = f64::from_bits(n);
    // About 0.45 / root(f), to a sixteenth: half the exponent, negated.
    let y = f64::from_bits(0x5fd3_fea0_0000_0000 - n / 2);
    let z = f * y;
    let r = z * y;
    // About 1 / root(r) divided by 88.9696947: the cubic whose largest error is least where r lies, as two factors.
    let p = (0.502803727 - r) * ((r - 0.333390892) * r + 0.109678833);
    root_near(f, 88.9696947 * z * p, 44.48484735 * y * p)
}

// The square root, by the three steps.
pub fn sqrt(x: f64) -> f64
    ensures { result ≡ sqrt_of x }
{
    if let Some(answer) = special(x) {
        return answer;
    }
    let b = x.to_bits();
    let s = scale(b);
    let f = floor_root(s.significand, guess(b));
    rounded(f, s.half - 26)
}

// The square root of x, which is g if x lies from 1 to 2 and the guess is good. Nothing is asked of g. This is a shortcut with `sqrt`'s own promise: where
// `near` finds g, steps 2 and 3 would make g's digits, so g is the answer and `rounded` is not called; in every other case it is `sqrt`.
pub(crate) fn checked_to_two(x: f64, g: f64) -> f64
    ensures { result ≡ sqrt_of x }
{
    if x > 0.0 && !g.is_nan() {
        let b = x.to_bits();
        let c = g.to_bits();
        if b >> 52 == 1023 && c >> 52 == 1023 {
            let s = scale(b);
            let q = 0x10_0000_0000_0000 + c % 0x10_0000_0000_0000;
            if s.half == 1048 && near(s.significand, q).is_some() {
                return g;
            }
        }
    }
    sqrt(x)
}

// The square root of x, quick where x lies from 1 to 2 and y is about 1 / root(x). Nothing is asked of y.
pub(crate) fn sqrt_by_inverse(x: f64, y: f64) -> f64
    ensures { result ≡ sqrt_of x }
{
    checked_to_two(x, root_by_inverse(x, y))
}
