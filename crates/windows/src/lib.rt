// Windows of a row of samples (document 01, section 5): the listings of violation and of visibility windows, as columns
// or as records, the expansion of windows back to a mask, and their total duration.
//
// A public function refuses by the name of document 01's number and then writes nothing. Its contract gives its whole answer and every
// lent place by equality with the definitions of specs/.
#![tactic(auto)]

mod expansion;
mod listings;
mod records;
mod refusal;
mod runs;
mod seconds;

pub use expansion::expand;
pub use listings::{violation_windows, visibility_windows};
pub use records::{violation_records, visibility_records};
pub use seconds::total_violation_duration;

// A window: first and last sample number, their times in nanoseconds, the severity, and 1 if the window ends with the
// final sample, else 0. Every field has eight bytes, so that a record has no byte without a meaning.
#[repr(C)]
#[derive(Clone, Copy)]
pub struct Window {
    pub first: u64,
    pub last: u64,
    pub first_time: i64,
    pub last_time: i64,
    pub severity: f64,
    pub is_last: u64,
}

// Which windows a listing gives. It says three things that belong together, the byte of a run, which runs are kept and the severity: three closures would
// be no plainer, as they would go along in every call, and the definitions of specs/Steps are by listing.
#[derive(Clone, Copy)]
pub(crate) enum Listing {
    Violations,
    Visibility,
}

// A row of samples: a mask byte and a time of each and, for violation windows, a severity. Visibility windows are listed without severities.
// The public calls take its lists one by one, as C lends them.
#[derive(Clone, Copy)]
pub(crate) struct Samples<'a> {
    pub(crate) mask: &'a [u8],
    pub(crate) times: &'a [i64],
    pub(crate) severities: &'a [f64],
}

// Windows by their first and by their last times. The public calls take the two lists one by one, as C lends them.
#[derive(Clone, Copy)]
pub(crate) struct Spans<'a> {
    pub(crate) first: &'a [i64],
    pub(crate) last: &'a [i64],
}
