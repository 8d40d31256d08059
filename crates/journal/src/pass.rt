// The pass that work, recover and collect make over a journal: whether it is right, which chunks have a line, and what their masks are.
ghost use Rattle.std.specs.Prelude.{◌≡◌, true, List, ℕ, ◌+◌, ◌*◌, ◌^◌, ◌≤◌, ◌<◌, ltb, length, Some};
ghost use Rattle.journal.specs.Lines.{header_length, line_length, held_probes};
ghost use Rattle.journal.specs.Right.{whole_lines, torn, possible, fits, lines_right, right};
ghost use Rattle.journal.specs.Calls.{kept};
ghost use Rattle.journal.specs.Pass.{checked_of, Tables, Blank, Sizes, Bounded};

use crate::header::HEADER_LENGTH;
use crate::line::{LINE_LENGTH, Line, read_line};
use crate::plan::PassedPlan;
use roll_sweep::cells_in;

// How many chunks a plan can have, so how long the tables are: 1,048,576 cells make 16,384. Flags and masks are two tables, and not one of Option<u64>:
// that takes 112 KiB more, and with it work's stack would pass the 448 KiB of include/wilfnusk.h.
pub(crate) const MOST_CHUNKS: usize = 16_384;

// The mask has no bit from bit k on.
fn no_bit_from(mask: u64, k: u64) -> bool
    requires { k ≤ 64 }
    ensures { result ≡ ltb mask (2 ^ k) }
{
    k == 64 || mask >> k == 0
}

// The chunk can have this mask and these probes.
fn is_possible(plan: &PassedPlan, line: Line) -> bool
    requires { Sizes plan.now }
    ensures { result ≡ possible plan.now.cells plan.now.samples line.chunk line.mask line.probes }
{
    let all = cells_in(plan.cells, line.chunk);
    if !no_bit_from(line.mask, all) {
        return false;
    }
    let marked = u64::from(line.mask.count_ones());
    let least = all - marked + plan.samples * marked;
    least <= line.probes && line.probes <= plan.samples * all
}

// A line fits, whether or not its chunk has a line before it.
fn line_fits(plan: &PassedPlan, line: Line) -> bool
    requires { Sizes plan.now }
    ensures { result ≡ fits plan.now.cells plan.now.samples (Some line) }
{
    line.chunk < plan.cells.div_ceil(64) && is_possible(plan, line)
}

// The sum of the first lines' probes, if each of these lines is right. The tables come blank, and are then filled.
fn check_lines(
    plan: &PassedPlan,
    journal: &[u8],
    lines: usize,
    seen: &mut [bool],
    masks: &mut [u64],
) -> Option<u64>
    requires within { (l : ℕ) → l < lines → header_length + line_length * l + line_length ≤ length journal.now }
    requires sizes { Sizes plan.now }
    requires blank { Blank seen.old masks.old }
    ensures checked { let b : List ℕ = journal.now in
        result ≡ checked_of (lines_right plan.now.cells plan.now.samples b lines) (held_probes b lines) }
    ensures tables { let b : List ℕ = journal.now in
        lines_right plan.now.cells plan.now.samples b lines ≡ true → Tables b lines seen.new masks.new }
{
    let mut probes = 0;
    for l in 0..lines {
        let line = read_line(journal, l)?;
        if !line_fits(plan, line) {
            return None;
        }
        let c = line.chunk as usize;
        if seen[c] {
            return None;
        }
        seen[c] = true;
        masks[c] = line.mask;
        probes += line.probes;
    }
    Some(probes)
}

// How many whole lines the used bytes hold.
#[tactic(auto, unfolding(crate::specs::Right::whole_lines))]
fn whole_lines(used: usize) -> usize
    ensures { result ≡ whole_lines used }
{
    used.saturating_sub(HEADER_LENGTH) / LINE_LENGTH
}

// The header is incomplete, or a tail shorter than a line follows the last whole line.
#[tactic(auto, unfolding(crate::specs::Right::torn))]
pub(crate) fn is_torn(used: usize) -> bool
    ensures { result ≡ torn used }
{
    used < HEADER_LENGTH || (used - HEADER_LENGTH) % LINE_LENGTH != 0
}

// What recover keeps of the used bytes of a journal that is right.
#[tactic(auto, unfolding(crate::specs::Calls::kept, crate::specs::Right::whole_lines))]
pub(crate) fn kept_length(used: usize) -> usize
    ensures { result ≡ kept used }
{
    if used < HEADER_LENGTH {
        return 0;
    }
    HEADER_LENGTH + LINE_LENGTH * whole_lines(used)
}

// The sum of the lines' probes, if the used bytes are right. The tables come blank, and are then filled. The used length stands beside the buffer, and
// not in a slice of it: `right` is said of the lent buffer and its used length, as in C.
pub(crate) fn check_journal(
    plan: &PassedPlan,
    journal: &[u8],
    used: usize,
    seen: &mut [bool],
    masks: &mut [u64],
) -> Option<u64>
    requires bounded { Bounded plan.now journal.now used }
    requires blank { Blank seen.old masks.old }
    ensures checked { let b : List ℕ = journal.now in
        result ≡ checked_of (right plan.now.cells plan.now.samples plan.now.header b used) (held_probes b (whole_lines used)) }
    ensures tables { let b : List ℕ = journal.now in
        right plan.now.cells plan.now.samples plan.now.header b used ≡ true → Tables b (whole_lines used) seen.new masks.new }
{
    let m = used.min(HEADER_LENGTH);
    if journal[..m] != plan.header[..m] {
        return None;
    }
    check_lines(plan, journal, whole_lines(used), seen, masks)
}
