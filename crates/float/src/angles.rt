// The arctangents of many points, step by step of all of them: no point waits for another, so the processor overlaps
// them, and works several at once where no branch stands.
ghost use Rattle.std.specs.Prelude.{◌≡◌, ℕ, ◌≤◌, min, length, get_or, slice_index_or, Float};
ghost use Rattle.std.specs.Float.{nan};
ghost use Rattle.buffers.specs.Lent.{filled};
ghost use Rattle.buffers.specs.Ranges.{tab};
ghost use Rattle.float.specs.Root.{sqrt_of};
ghost use Rattle.float.specs.Arithmetic.{◌⊕◌, ◌⊗◌, one, abs_of};
ghost use Rattle.float.specs.Arctangent.{halved, ratio, turned_angle, arctangent};

use crate::abs;
use crate::arctangent::{COSINE_GUESS, polynomial, ratio, turned_angle};
use crate::root::{checked_to_two, root_by_inverse};

// How many points are worked side by side.
const BLOCK: usize = 64;

// Guesses the root of 1 + q * q for each q. Nothing is promised of the guesses.
fn guess_roots(qs: &[f64], roots: &mut [f64])
    requires { length roots.old ≡ length qs.now }
    ensures { length roots.new ≡ length roots.old }
{
    for k in 0..qs.len() {
        let u = qs[k] * qs[k];
        roots[k] = root_by_inverse(1.0 + u, polynomial(&COSINE_GUESS, u));
    }
}

// Makes of each guess the root of 1 + q * q.
fn check_roots(qs: &[f64], roots: &mut [f64])
    requires { length roots.old ≡ length qs.now }
    ensures { let q : ℕ → Float = λ k. get_or qs.now k nan in
        roots.new ≡ tab (length qs.now) (λ k. sqrt_of (one ⊕ q k ⊗ q k)) }
{
    for k in 0..qs.len() {
        roots[k] = checked_to_two(1.0 + qs[k] * qs[k], roots[k]);
    }
}

// The first q of each point.
fn ratio_each(ys: &[f64], zs: &[f64], qs: &mut [f64])
    requires { (length ys.now ≡ length qs.old) × (length zs.now ≡ length qs.old) }
    ensures { let y : ℕ → Float = λ k. get_or ys.now k nan in let z : ℕ → Float = λ k. get_or zs.now k nan in
        qs.new ≡ tab (length qs.old) (λ k. ratio (abs_of (y k)) (abs_of (z k))) }
{
    for k in 0..qs.len() {
        qs[k] = ratio(abs(ys[k]), abs(zs[k]));
    }
}

// One round for each q.
fn halve_each(qs: &mut [f64])
    requires { length qs.old ≤ BLOCK }
    ensures { qs.new ≡ tab (length qs.old) (λ k. halved (slice_index_or qs.old k nan)) }
{
    let mut block = [0.0; BLOCK];
    let roots = &mut block[..qs.len()];
    guess_roots(qs, roots);
    check_roots(qs, roots);
    for k in 0..qs.len() {
        qs[k] = qs[k] / (1.0 + roots[k]);
    }
}

// The angle of each point, from its last q.
fn turn_each(ys: &[f64], zs: &[f64], qs: &mut [f64])
    requires { (length ys.now ≡ length qs.old) × (length zs.now ≡ length qs.old) }
    ensures { let y : ℕ → Float = λ k. get_or ys.now k nan in let z : ℕ → Float = λ k. get_or zs.now k nan in
        qs.new ≡ tab (length qs.old) (λ k. turned_angle (y k) (z k) (slice_index_or qs.old k nan)) }
{
    for k in 0..qs.len() {
        qs[k] = turned_angle(ys[k], zs[k], qs[k]);
    }
}

// Writes the arctangent of each point (z, y): as many as the shortest list has, and at most 64.
pub fn atan2_each(ys: &[f64], zs: &[f64], angles: &mut [f64])
    ensures { let y : ℕ → Float = λ k. get_or ys.now k nan in let z : ℕ → Float = λ k. get_or zs.now k nan in
        let count : ℕ = min 64 (min (length angles.old) (min (length ys.now) (length zs.now))) in
        angles.new ≡ filled count (λ k. arctangent (y k) (z k)) angles.old }
{
    let shortest = angles.len().min(ys.len().min(zs.len()));
    let count = BLOCK.min(shortest);
    let ys = &ys[..count];
    let zs = &zs[..count];
    let qs = &mut angles[..count];
    ratio_each(ys, zs, qs);
    halve_each(qs);
    halve_each(qs);
    halve_each(qs);
    turn_each(ys, zs, qs);
}
