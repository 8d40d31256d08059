// Section 1's arithmetic on f64, each operation rounded once, in the order of the Rust; and document 02's sine and cosine,
// in its order.
//
// Every public function is total, and its contract gives its whole answer by a definition of specs/,
// over the toolchain's account of IEEE 754.
#![tactic(auto)]

mod angles;
mod arctangent;
mod arithmetic;
mod root;
mod series;
mod trigonometry;

pub use angles::atan2_each;
pub use arctangent::atan2;
pub use arithmetic::{abs, bits, of_bits, rem_euclid, rem_euclid_turn, to_degrees};
pub use root::sqrt;
pub use trigonometry::{SinCos, cos, sin, sin_cos, to_radians};

// The f64 nearest to pi.
pub const PI: f64 = std::f64::consts::PI;
