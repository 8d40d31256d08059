// The header.
ghost use Rattle.std.specs.Prelude.{◌≡◌, ◌≤◌, length, get_or};
ghost use Rattle.buffers.specs.Lent.{over};
ghost use Rattle.float.specs.Arithmetic.{zero·0};
ghost use Rattle.solar_roll.specs.Plan.{lent};
ghost use Rattle.journal.specs.Lines.{header_length};
ghost use Rattle.journal.specs.Header.{header_text, has_roll, roll_bits, header_of};

use crate::hex::write_hex;
use float::bits;
use solar_roll::{Plan, triple};

// How many bytes a header has, with its 0a.
pub const HEADER_LENGTH: usize = 107;

// Writes a header of the numbers that it holds: a float as its bits.
fn write_numbers(
    out: &mut [u8],
    targets: u64,
    times: u64,
    n: u64,
    tolerance: u64,
    configured: u64,
    roll: u64,
    x: u64,
    y: u64,
    z: u64,
)
    requires { header_length ≤ length out.old }
    ensures { out.new ≡ over (header_text targets times n tolerance configured roll x y z) out.old }
{
    write_hex(&mut out[..8], targets);
    write_hex(&mut out[8..16], times);
    write_hex(&mut out[16..24], n);
    write_hex(&mut out[24..40], tolerance);
    write_hex(&mut out[40..42], configured);
    write_hex(&mut out[42..58], roll);
    write_hex(&mut out[58..74], x);
    write_hex(&mut out[74..90], y);
    write_hex(&mut out[90..106], z);
    out[106] = b'\n';
}

// 1 for a configured roll, else 0.
fn has_roll(configured: Option<f64>) -> u64
    ensures { result ≡ has_roll configured }
{
    u64::from(configured.is_some())
}

// The bits of a configured roll, else 0.
fn roll_bits(configured: Option<f64>) -> u64
    ensures { result ≡ roll_bits configured }
{
    configured.map_or(0, |roll| bits(roll))
}

// The first number of xs, 0 for none.
fn first_or_zero(xs: &[f64]) -> f64
    ensures { result ≡ get_or xs.now 0 zero·0 }
{
    xs.first().copied().unwrap_or(0.0)
}

// Writes the header of a plan with n samples.
pub(crate) fn write_header(out: &mut [u8], plan: &Plan, n: u64)
    requires { header_length ≤ length out.old }
    ensures { out.new ≡ over (header_of (lent plan.now) n) out.old }
{
    let panel = triple(plan.panels, 0);
    let tolerance = bits(first_or_zero(plan.tolerances));
    let has = has_roll(plan.configured);
    let roll = roll_bits(plan.configured);
    let x = bits(panel[0]);
    let y = bits(panel[1]);
    let z = bits(panel[2]);
    let targets = plan.rows() as u64;
    let times = plan.times() as u64;
    write_numbers(out, targets, times, n, tolerance, has, roll, x, y, z);
}
