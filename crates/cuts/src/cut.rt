// Every write of a journal cut at every byte. The model is the journal of a run without a cut, and how many of its writes have
// ended: what they wrote stands, and nothing else.
ghost use Rattle.std.specs.Prelude.{◌≤◌};

use crate::plan::{SmallPlan, begin, collect, first, plan_by_table, plan_of, recover, work};
use buffers::Refusal;
use std::ops::AddAssign;
use std::{fmt, io};

// What stands in a buffer beyond the used bytes.
const UNUSED: u8 = b'?';

type Journal = [u8; 240];

#[derive(Clone, Copy, Default)]
struct Tally {
    cuts: u64,
    differ: u64,
}

impl Tally {
    fn count(&mut self, same: bool) {
        self.cuts = self.cuts.wrapping_add(1);
        self.differ = self.differ.wrapping_add(u64::from(!same));
    }
}

impl AddAssign for Tally {
    fn add_assign(&mut self, other: Tally) {
        self.cuts = self.cuts.wrapping_add(other.cuts);
        self.differ = self.differ.wrapping_add(other.differ);
    }
}

impl fmt::Display for Tally {
    fn fmt<W: fmt::Write>(&self, f: &mut fmt::Formatter<W>) -> fmt::Result {
        let cuts = self.cuts;
        let differ = self.differ;
        write!(f, "{cuts} cuts, {differ} differ")
    }
}

// What one write makes: a journal's header, or the line of a chunk. Two cases: a header is not the absence of a line.
#[derive(Clone, Copy)]
enum Part {
    Header,
    Line(u64),
}

impl Part {
    fn length(self) -> u64
        ensures { result ≤ 107 }
    {
        match self {
            Part::Header => 107,
            Part::Line(_) => 33,
        }
    }
}

// The orders of three chunks. Two chunks have the first two of these, one the first.
static ORDERS: [[Part; 4]; 6] = [
    [Part::Header, Part::Line(0), Part::Line(1), Part::Line(2)],
    [Part::Header, Part::Line(1), Part::Line(0), Part::Line(2)],
    [Part::Header, Part::Line(0), Part::Line(2), Part::Line(1)],
    [Part::Header, Part::Line(1), Part::Line(2), Part::Line(0)],
    [Part::Header, Part::Line(2), Part::Line(0), Part::Line(1)],
    [Part::Header, Part::Line(2), Part::Line(1), Part::Line(0)],
];

fn orders(plan: SmallPlan) -> &'static [[Part; 4]] {
    match plan.writes {
        0..=2 => &ORDERS[..1],
        3 => &ORDERS[..2],
        _ => &ORDERS,
    }
}

// The length of the first writes.
fn length_of(writes: usize) -> u64
    ensures { result ≤ 206 }
{
    match writes {
        0 => 0,
        1 => 107,
        2 => 140,
        3 => 173,
        _ => 206,
    }
}

fn write(plan: SmallPlan, part: Part, journal: &mut [u8], used: u64) -> Result<u64, Refusal> {
    match part {
        Part::Header => begin(plan, journal, used),
        Part::Line(chunk) => work(plan, chunk, journal, used),
    }
}

// Tries to write each of the parts, and gives the used length. A header or a chunk that the journal has is refused.
fn resume(plan: SmallPlan, parts: &[Part], journal: &mut [u8], used: u64) -> u64 {
    let mut end = used;
    for part in parts {
        end = write(plan, *part, journal, end).unwrap_or(end);
    }
    end
}

// Starts again, with the first writes of the first order.
pub(crate) fn start(plan: SmallPlan, writes: usize, journal: &mut [u8]) {
    journal.fill(UNUSED);
    resume(plan, first(&ORDERS[0], writes), journal, 0);
}

// Makes the bytes from the used length on unused.
pub(crate) fn shorten(journal: &mut [u8], used: u64) {
    if let Some(unused) = journal.get_mut(used as usize..) {
        unused.fill(UNUSED);
    }
}

// The first used bytes of a journal.
fn shortened(whole: &Journal, used: u64) -> Journal {
    let mut journal = *whole;
    shorten(&mut journal, used);
    journal
}

// Without a cut: the plan, the number of an order, its parts, and the journal that they make.
#[derive(Clone, Copy)]
struct Uncut<'a> {
    plan: SmallPlan,
    order: usize,
    parts: &'a [Part],
    whole: &'a Journal,
}

impl Uncut<'_> {
    // The buffer holds the first used bytes of the whole journal, and no call altered a byte beyond.
    fn is_held(&self, journal: &Journal, used: u64) -> bool {
        *journal == shortened(self.whole, used)
    }

    // Both journals are collected, to one mask and one sum of probes.
    fn is_collected(&self, journal: &Journal, used: u64) -> bool {
        let mut a = [2u8; 160];
        let mut b = [2u8; 160];
        let whole = self.whole;
        let collected = collect(self.plan, whole, used, &mut a);
        collected.is_ok() && collect(self.plan, journal, used, &mut b) == collected && a == b
    }

    // Cuts the write of a part after the first bytes, so that some are left, recovers and resumes: every answer and byte is the
    // model's.
    fn is_same_after_cut(&self, part: Part, before: u64, after: u64, left: u64) -> bool {
        let mut journal = shortened(self.whole, before);
        if write(self.plan, part, &mut journal, before) != Ok(after)
            || !self.is_held(&journal, after)
        {
            return false;
        }
        shorten(&mut journal, left);
        let kept = if left == after { after } else { before };
        self.is_same_resumed(&mut journal, left, kept)
    }

    // Of a cut journal, recover keeps what the model keeps, and the writes that it lacks complete it.
    fn is_same_resumed(&self, journal: &mut Journal, left: u64, kept: u64) -> bool {
        if left != kept && !refuses_torn(self.plan, left, journal) {
            return false;
        }
        if recover(self.plan, journal, left) != Ok(kept) || !self.is_held(journal, left) {
            return false;
        }
        shorten(journal, kept);
        let end = resume(self.plan, self.parts, journal, kept);
        end == length_of(self.plan.writes)
            && self.is_held(journal, end)
            && self.is_collected(journal, end)
    }

    // Cuts one write at every byte.
    fn cut_write(&self, rt: &impl Print, w: usize, part: Part) -> io::Result<Tally> {
        let before = length_of(w);
        let after = before + part.length();
        let mut tally = Tally::default();
        for left in before..=after {
            let same = self.is_same_after_cut(part, before, after, left);
            if !same {
                let order = self.order;
                println!(rt; "differs: order {order}, write {w}, {left} bytes left")?;
            }
            tally.count(same);
        }
        Ok(tally)
    }

    fn cut_every_write(&self, rt: &impl Print) -> io::Result<Tally> {
        let mut tally = Tally::default();
        for (w, part) in self.parts.iter().enumerate() {
            tally += self.cut_write(rt, w, *part)?;
        }
        Ok(tally)
    }
}

// Where there is something to drop, the journal takes no line and gives no mask. (Without a cell there is no chunk to work.)
fn refuses_torn(plan: SmallPlan, left: u64, journal: &mut [u8]) -> bool {
    let mut mask = [2u8; 160];
    let no = if plan.writes == 1 {
        Refusal::NoSuchIndex
    } else {
        Refusal::JournalTorn
    };
    collect(plan, journal, left, &mut mask) == Err(Refusal::JournalTorn)
        && work(plan, 0, journal, left) == Err(no)
}

fn tell_plan(rt: &impl Print, plan: SmallPlan, whole: &Journal) -> io::Result<()> {
    let mut mask = [2u8; 160];
    match collect(plan, whole, length_of(plan.writes), &mut mask) {
        Ok(probes) => {
            let marked = mask.iter().filter(|mark| **mark == 1).count();
            print!(rt; "{plan}: {marked} marked, {probes} probes")
        }
        Err(_) => print!(rt; "{plan}: collect refuses"),
    }
}

// Cuts every write of every order.
fn cut_plan(rt: &impl Print, plan: SmallPlan) -> io::Result<Tally> {
    let mut tally = Tally::default();
    let mut whole = [UNUSED; 240];
    for (order, parts) in orders(plan).iter().enumerate() {
        let parts = first(parts, plan.writes);
        whole = [UNUSED; 240];
        resume(plan, parts, &mut whole, 0);
        let uncut = Uncut {
            plan,
            order,
            parts,
            whole: &whole,
        };
        tally += uncut.cut_every_write(rt)?;
    }
    tell_plan(rt, plan, &whole)?;
    println!(rt; "; {tally}")?;
    Ok(tally)
}

// The first has no cell, the second one; each of the others has clear and marked cells. The targets of one have different
// tolerances; the last goes by a table.
fn small_plans() -> [SmallPlan; 10] {
    [
        plan_of(0, 70, 1, 1, [10.0; 2], None),
        plan_of(1, 1, 2, 1, [10.0; 2], None),
        plan_of(1, 64, 2, 3, [30.0; 2], None),
        plan_of(2, 33, 3, 4, [20.0; 2], None),
        plan_of(2, 70, 4, 1, [60.0; 2], None),
        plan_of(2, 70, 4, 4, [20.0; 2], None),
        plan_of(2, 70, 4, 2, [-1.0; 2], None),
        plan_of(2, 70, 4, 3, [90.0; 2], Some(30.0)),
        plan_of(2, 70, 4, 4, [20.0, 30.0], None),
        plan_by_table(5, 20.0),
    ]
}

pub(crate) fn cut_plans(rt: &impl Print) -> io::Result<()> {
    let mut tally = Tally::default();
    for plan in small_plans() {
        tally += cut_plan(rt, plan)?;
    }
    println!(rt; "all: {tally}")
}
