// Lowercase hexadecimal, written and read.
ghost use Rattle.std.specs.Prelude.{◌≡◌, ◌≤◌, ◌<◌, length};
ghost use Rattle.journal.specs.Hex.{hex_digit, digit_value, is_digit, hex_text, are_digits, hex_value};

// The byte of a digit below 16.
fn hex_digit(d: u64) -> u8
    requires { d < 16 }
    ensures { result ≡ hex_digit d }
{
    if d < 10 {
        b'0' + d as u8
    } else {
        b'a' - 10 + d as u8
    }
}

// Writes x in as many digits as there are places.
pub(crate) fn write_hex(digits: &mut [u8], x: u64)
    ensures { digits.new ≡ hex_text (length digits.old) x }
{
    let mut left = x;
    for j in (0..digits.len()).rev() {
        digits[j] = hex_digit(left % 16);
        left = left / 16;
    }
}

// The byte is a digit.
fn is_digit(x: u8) -> bool
    ensures { result ≡ is_digit x }
{
    matches!(x, b'0'..=b'9' | b'a'..=b'f')
}

// The digit of a byte, below 16 for every byte. Not `to_digit`: it has none for most bytes, and so a branch more for each byte that is read.
fn digit_value(x: u8) -> u64
    ensures { result ≡ digit_value x }
{
    if x <= b'9' {
        u64::from(x % 16)
    } else {
        (u64::from(x) + 9) % 16
    }
}

// Each byte is a digit. No early exit, as `all` has one: right bytes are the rule, and a loop without one is compiled to vectors.
pub(crate) fn are_digits(bytes: &[u8]) -> bool
    ensures { result ≡ are_digits bytes.now 0 (length bytes.now) }
{
    let mut all = true;
    for x in bytes {
        all = all & is_digit(*x);
    }
    all
}

// The number that the digits write.
pub(crate) fn hex_value(digits: &[u8]) -> u64
    requires { length digits.now ≤ 16 }
    ensures { result ≡ hex_value digits.now 0 (length digits.now) }
{
    let mut v: u64 = 0;
    for x in digits {
        v = v * 16 + digit_value(*x);
    }
    v
}
