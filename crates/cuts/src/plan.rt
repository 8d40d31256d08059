// Small plans, and the journal's calls on them. Every plan takes its targets from two and its Suns from seventy, seen from the
// origin.
use buffers::Refusal;
use solar_roll::Plan;
use std::{array, fmt};

const TARGETS: [f64; 6] = [1.0, 0.0, 0.0, 0.0, 0.6, 0.8];

const OBSERVERS: [f64; 210] = [0.0; 210];

const PANELS: [f64; 3] = [0.0, 1.0, 0.0];

// The first five may be a table's rolls; 360 may not.
const TABLE: [f64; 6] = [0.0, 17.5, 90.0, 200.25, 359.5, 360.0];

// The rolls of a plan: so many even ones, or so many of `TABLE`. Two cases, neither an error.
#[derive(Clone, Copy)]
pub(crate) enum Rolls {
    Even(u64),
    Table(usize),
}

// A plan, and how many writes its whole journal has: the header's and one for each chunk. Of its two tolerances the first
// `listed` are lent.
#[derive(Clone, Copy)]
pub(crate) struct SmallPlan {
    pub targets: usize,
    pub times: usize,
    pub writes: usize,
    pub rolls: Rolls,
    pub tolerances: [f64; 2],
    pub listed: usize,
    pub configured: Option<f64>,
}

pub(crate) fn plan_of(
    targets: usize,
    times: usize,
    writes: usize,
    n: u64,
    tolerances: [f64; 2],
    configured: Option<f64>,
) -> SmallPlan {
    SmallPlan {
        targets,
        times,
        writes,
        rolls: Rolls::Even(n),
        tolerances,
        listed: targets,
        configured,
    }
}

// Two targets of 70 times each, n rolls of the table.
pub(crate) fn plan_by_table(n: usize, tolerance: f64) -> SmallPlan {
    SmallPlan {
        targets: 2,
        times: 70,
        writes: 4,
        rolls: Rolls::Table(n),
        tolerances: [tolerance; 2],
        listed: 2,
        configured: None,
    }
}

impl fmt::Display for SmallPlan {
    fn fmt<W: fmt::Write>(&self, f: &mut fmt::Formatter<W>) -> fmt::Result {
        let targets = self.targets;
        let times = self.times;
        write!(f, "{targets} x {times} cells, n = ")?;
        match self.rolls {
            Rolls::Even(n) => write!(f, "{n}")?,
            Rolls::Table(n) => write!(f, "{n}")?,
        }
        let [first, second] = self.tolerances;
        if first != second {
            write!(f, ", two tolerances")?;
        }
        match self.rolls {
            Rolls::Even(_) => Ok(()),
            Rolls::Table(_) => write!(f, ", by a table"),
        }
    }
}

// Coordinate k of the Suns. The first Sun lies along the first target, so that its cell is Free.
fn coordinate(k: usize) -> f64 {
    match k {
        0 => 1.0,
        1 | 2 => 0.0,
        _ => ((k % 101) * 7 % 19) as u32 as f64 - 9.0,
    }
}

fn suns() -> [f64; 210] {
    array::from_fn(coordinate)
}

// The first of a list.
pub(crate) fn first<T>(list: &[T], count: usize) -> &[T] {
    &list[..count.min(list.len())]
}

fn first_triples(list: &[f64], count: usize) -> &[f64] {
    first(list, count.saturating_mul(3))
}

impl SmallPlan {
    fn lent<'a>(&'a self, suns: &'a [f64]) -> Plan<'a> {
        Plan {
            targets: first_triples(&TARGETS, self.targets),
            suns: first_triples(suns, self.times),
            observers: first_triples(&OBSERVERS, self.times),
            tolerances: first(&self.tolerances, self.listed),
            configured: self.configured,
            panels: &PANELS,
        }
    }
}

// Each names another call of the journal, with parameters of its own: one function over them would take each as a closure.
pub(crate) fn begin(small: SmallPlan, journal: &mut [u8], used: u64) -> Result<u64, Refusal> {
    let suns = suns();
    let plan = small.lent(&suns);
    match small.rolls {
        Rolls::Even(n) => journal::begin(&plan, n, journal, used),
        Rolls::Table(n) => journal::begin_rolls(&plan, first(&TABLE, n), journal, used),
    }
}

pub(crate) fn work(
    small: SmallPlan,
    chunk: u64,
    journal: &mut [u8],
    used: u64,
) -> Result<u64, Refusal> {
    let suns = suns();
    let plan = small.lent(&suns);
    match small.rolls {
        Rolls::Even(n) => journal::work(&plan, n, chunk, journal, used),
        Rolls::Table(n) => journal::work_rolls(&plan, first(&TABLE, n), chunk, journal, used),
    }
}

pub(crate) fn recover(small: SmallPlan, journal: &[u8], used: u64) -> Result<u64, Refusal> {
    let suns = suns();
    let plan = small.lent(&suns);
    match small.rolls {
        Rolls::Even(n) => journal::recover(&plan, n, journal, used),
        Rolls::Table(n) => journal::recover_rolls(&plan, first(&TABLE, n), journal, used),
    }
}

pub(crate) fn collect(
    small: SmallPlan,
    journal: &[u8],
    used: u64,
    mask: &mut [u8],
) -> Result<u64, Refusal> {
    let suns = suns();
    let plan = small.lent(&suns);
    match small.rolls {
        Rolls::Even(n) => journal::collect(&plan, n, journal, used, mask),
        Rolls::Table(n) => journal::collect_rolls(&plan, first(&TABLE, n), journal, used, mask),
    }
}
