// Questions about a row of samples, and about a list of windows. Above a function stands what its lines answer.
use crate::kinds::Kind;
use crate::words::{Line, UNWRITTEN};
use buffers::Refusal;
use float::{bits, of_bits};
use windows::{expand, total_violation_duration, violation_windows, visibility_windows};

// The columns that a listing writes. A crate that gave this to rows too would be longer.
#[derive(Drop)]
struct Columns {
    first: [u64; 24],
    last: [u64; 24],
    first_time: [i64; 24],
    last_time: [i64; 24],
    severity: [f64; 24],
    is_last: [u8; 24],
}

impl Columns {
    fn unwritten() -> Columns {
        Columns {
            first: [UNWRITTEN; 24],
            last: [UNWRITTEN; 24],
            first_time: [7; 24],
            last_time: [7; 24],
            severity: [of_bits(UNWRITTEN); 24],
            is_last: [7; 24],
        }
    }

    fn list_violations(
        &mut self,
        mask: &[u8],
        instants: &[i64],
        severities: &[f64],
    ) -> Result<u64, Refusal> {
        violation_windows(
            mask,
            instants,
            severities,
            &mut self.first,
            &mut self.last,
            &mut self.first_time,
            &mut self.last_time,
            &mut self.severity,
            &mut self.is_last,
        )
    }

    fn list_visibility(&mut self, mask: &[u8], instants: &[i64]) -> Result<u64, Refusal> {
        visibility_windows(
            mask,
            instants,
            &mut self.first,
            &mut self.last,
            &mut self.first_time,
            &mut self.last_time,
            &mut self.severity,
            &mut self.is_last,
        )
    }

    // Six words for each window.
    fn are_those_of(&self, asked: &Line) -> bool {
        asked.has(&self.first, 4, 6)
            && asked.has(&self.last, 5, 6)
            && asked.has(&self.first_time, 6, 6)
            && asked.has(&self.last_time, 7, 6)
            && asked.has(&self.severity, 8, 6)
            && asked.has(&self.is_last, 9, 6)
    }
}

// About the samples: how many windows, each one's six words.
pub(crate) fn samples(kind: Kind, given: &Line, asked: &Line) -> bool {
    let count = given.word(1);
    let mut mask = [0u8; 48];
    let mut instants = [0i64; 48];
    let mut severities = [0.0f64; 48];
    let mask = given.read(7, count, &mut mask);
    let instants = given.read(given.word(3), count, &mut instants);
    let severities = given.read(given.word(4), count, &mut severities);
    let mut columns = Columns::unwritten();
    let listed = match kind {
        Kind::Violations => columns.list_violations(mask, instants, severities),
        _ => columns.list_visibility(mask, instants),
    };
    listed == Ok(asked.word(3)) && columns.are_those_of(asked)
}

// About the windows, over the samples' times.
pub(crate) fn windows(kind: Kind, given: &Line, asked: &Line) -> bool {
    let count = given.word(2);
    let mut instants = [0i64; 48];
    let mut starts = [0i64; 16];
    let mut ends = [0i64; 16];
    let instants = given.read(given.word(3), given.word(1), &mut instants);
    let starts = given.read(given.word(5), count, &mut starts);
    let ends = given.read(given.word(6), count, &mut ends);
    match kind {
        Kind::Seconds => seconds(asked, starts, ends),
        Kind::Result => result(asked, starts, ends, instants),
        _ => expansion(asked, starts, ends, instants),
    }
}

// The mask.
fn expansion(asked: &Line, starts: &[i64], ends: &[i64], instants: &[i64]) -> bool {
    let mut mask = [7u8; 48];
    expand(starts, ends, instants, &mut mask) == Ok(0) && asked.has(&mask, 3, 1)
}

// How many windows, each one's first and last time.
fn result(asked: &Line, starts: &[i64], ends: &[i64], instants: &[i64]) -> bool {
    let mut mask = [7u8; 48];
    let mut columns = Columns::unwritten();
    expand(starts, ends, instants, &mut mask) == Ok(0)
        && columns.list_visibility(mask.get(..instants.len()).unwrap_or(&mask), instants)
            == Ok(asked.word(3))
        && asked.has(&columns.first_time, 4, 2)
        && asked.has(&columns.last_time, 5, 2)
}

// The seconds.
fn seconds(asked: &Line, starts: &[i64], ends: &[i64]) -> bool {
    total_violation_duration(starts, ends).is_ok_and(|total| bits(total) == asked.word(3))
}
