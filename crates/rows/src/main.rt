// Document 01's windows, run: the examples of section 5 and its limits, each answer with what the lent lists hold after it.
// Every place of a column holds 7 before a call, so that a place that stays is seen.
#![tactic(auto)]

use buffers::Refusal;
use std::io;

// The columns that a listing writes. A crate that gave this to replay too would be longer.
#[derive(Drop)]
struct Columns<const N: usize> {
    first: [u64; N],
    last: [u64; N],
    first_time: [i64; N],
    last_time: [i64; N],
    severity: [f64; N],
    is_last: [u8; N],
}

impl<const N: usize> Columns<N> {
    fn sevens() -> Self {
        Columns {
            first: [7; N],
            last: [7; N],
            first_time: [7; N],
            last_time: [7; N],
            severity: [7.0; N],
            is_last: [7; N],
        }
    }

    fn list_violations(
        &mut self,
        mask: &[u8],
        times: &[i64],
        severities: &[f64],
    ) -> Result<u64, Refusal> {
        windows::violation_windows(
            mask,
            times,
            severities,
            &mut self.first,
            &mut self.last,
            &mut self.first_time,
            &mut self.last_time,
            &mut self.severity,
            &mut self.is_last,
        )
    }

    fn list_visibility(&mut self, mask: &[u8], times: &[i64]) -> Result<u64, Refusal> {
        windows::visibility_windows(
            mask,
            times,
            &mut self.first,
            &mut self.last,
            &mut self.first_time,
            &mut self.last_time,
            &mut self.severity,
            &mut self.is_last,
        )
    }

    fn show(&self, rt: &impl Print, times: &[i64]) -> io::Result<()> {
        for k in 0..N {
            let first = self.first[k];
            let last = self.last[k];
            print!(rt; "    {first} to {last}")?;
            show_time(rt, self.first_time[k], times)?;
            show_time(rt, self.last_time[k], times)?;
            let severity = float::bits(self.severity[k]);
            let is_last = self.is_last[k];
            println!(rt; " severity {severity:016x} last {is_last}")?;
        }
        Ok(())
    }
}

fn show_answer(rt: &impl Print, answer: Result<u64, Refusal>) -> io::Result<()> {
    match answer {
        Ok(n) => println!(rt; " accepted {n}"),
        Err(refusal) => println!(rt; " refused {}", refusal.number()),
    }
}

// Seconds as a bit pattern in hexadecimal, which shows the sign of a zero.
fn show_duration(rt: &impl Print, duration: Result<f64, Refusal>) -> io::Result<()> {
    match duration {
        Ok(x) => println!(rt; " seconds {:016x}", float::bits(x)),
        Err(refusal) => println!(rt; " refused {}", refusal.number()),
    }
}

// A time, as the first sample that has it.
fn show_time(rt: &impl Print, t: i64, times: &[i64]) -> io::Result<()> {
    match times.iter().position(|time| *time == t) {
        Some(i) => print!(rt; " t{i}"),
        None => print!(rt; " --"),
    }
}

// Here and below a row's lists are passed on one by one, as the calls take them.
fn violations(rt: &impl Print, mask: &[u8], times: &[i64], severities: &[f64]) -> io::Result<()> {
    let mut columns = Columns::<3>::sevens();
    print!(rt; "  violations")?;
    show_answer(rt, columns.list_violations(mask, times, severities))?;
    columns.show(rt, times)
}

fn visibility(rt: &impl Print, mask: &[u8], times: &[i64]) -> io::Result<()> {
    let mut columns = Columns::<3>::sevens();
    print!(rt; "  visibility")?;
    show_answer(rt, columns.list_visibility(mask, times))?;
    columns.show(rt, times)
}

fn both(rt: &impl Print, mask: &[u8], times: &[i64], severities: &[f64]) -> io::Result<()> {
    violations(rt, mask, times, severities)?;
    visibility(rt, mask, times)
}

// Five marks at steady times.
fn row(rt: &impl Print, mask: [u8; 5]) -> io::Result<()> {
    both(
        rt,
        &mask,
        &[10, 20, 30, 40, 50],
        &[0.0, 0.5, 0.25, 1.5, 2.0],
    )
}

// One column is shorter than the others.
fn uneven(rt: &impl Print) -> io::Result<()> {
    let mut columns = Columns::<3>::sevens();
    let answer = windows::violation_windows(
        &[0],
        &[5],
        &[0.5],
        &mut columns.first,
        &mut columns.last,
        &mut columns.first_time,
        &mut columns.last_time,
        &mut columns.severity,
        &mut columns.is_last[..2],
    );
    show_answer(rt, answer)
}

// A listing with 32,768 places, and the last of them. Its columns stand here and in no struct: they are 1.3 MB, and arrays are
// copied into a struct.
fn list_all(rt: &impl Print, mask: &[u8], times: &[i64], severities: &[f64]) -> io::Result<()> {
    let mut first = [7; 32768];
    let mut last = [7; 32768];
    let mut first_time = [7; 32768];
    let mut last_time = [7; 32768];
    let mut severity = [7.0; 32768];
    let mut is_last = [7; 32768];
    let answer = windows::violation_windows(
        mask,
        times,
        severities,
        &mut first,
        &mut last,
        &mut first_time,
        &mut last_time,
        &mut severity,
        &mut is_last,
    );
    show_answer(rt, answer)?;
    let first = first[32767];
    let last = last[32767];
    println!(rt; "    window 32767 is {first} to {last}")
}

// 65,536 samples that alternate, the first marked: 32,768 windows.
fn longest(rt: &impl Print) -> io::Result<()> {
    let mut mask = [0u8; 65536];
    for (i, byte) in mask.iter_mut().enumerate() {
        *byte = u8::from(i % 2 == 0);
    }
    list_all(rt, &mask, &[0i64; 65536], &[0.0f64; 65536])
}

fn too_long(rt: &impl Print) -> io::Result<()> {
    list_all(rt, &[0u8; 65537], &[0i64; 65537], &[0.0f64; 65537])
}

fn listings(rt: &impl Print) -> io::Result<()> {
    println!(rt; "01011:")?;
    row(rt, [0, 1, 0, 1, 1])?;
    println!(rt; "11110:")?;
    row(rt, [1, 1, 1, 1, 0])?;
    println!(rt; "00100:")?;
    row(rt, [0, 0, 1, 0, 0])?;
    println!(rt; "10101:")?;
    row(rt, [1, 0, 1, 0, 1])?;
    println!(rt; "repeated and reordered times, 11010:")?;
    both(
        rt,
        &[1, 1, 0, 1, 0],
        &[30, 20, 20, 10, 50],
        &[0.0, 0.0, 0.0, 0.0, 0.0],
    )?;
    println!(rt; "empty:")?;
    both(rt, &[], &[], &[])?;
    println!(rt; "one sample, marked, then clear:")?;
    both(rt, &[1], &[5], &[0.5])?;
    both(rt, &[0], &[5], &[0.5])?;
    print!(rt; "65,536 samples:")?;
    longest(rt)
}

fn refusals(rt: &impl Print) -> io::Result<()> {
    println!(rt; "times, then severities, of another length:")?;
    both(rt, &[0, 1], &[5], &[0.5, 0.5])?;
    both(rt, &[0, 1], &[5, 6], &[0.5])?;
    print!(rt; "a column of another length:")?;
    uneven(rt)?;
    print!(rt; "65,537 samples:")?;
    too_long(rt)?;
    println!(rt; "the limits of times, then beyond them:")?;
    both(
        rt,
        &[1, 1],
        &[-4_000_000_000_000_000_000, 4_000_000_000_000_000_000],
        &[0.0, 0.0],
    )?;
    both(rt, &[1, 1], &[-4_000_000_000_000_000_001, 0], &[0.0, 0.0])?;
    both(rt, &[1, 1], &[0, 4_000_000_000_000_000_001], &[0.0, 0.0])?;
    println!(rt; "severities -0, infinite, NaN, at a clear sample too:")?;
    both(rt, &[1, 1], &[0, 1], &[0.0, -0.0])?;
    both(rt, &[1, 0], &[0, 1], &[0.0, f64::INFINITY])?;
    both(rt, &[0, 1], &[0, 1], &[f64::NAN, 0.0])?;
    println!(rt; "a mask byte of 2, and with it a last time beyond:")?;
    both(rt, &[2, 1], &[0, 1], &[0.0, 0.0])?;
    both(rt, &[2, 1], &[0, 4_000_000_000_000_000_001], &[0.0, 0.0])?;
    println!(rt; "four violation windows, three places:")?;
    both(
        rt,
        &[1, 0, 1, 0, 1, 0, 1],
        &[11, 12, 13, 14, 15, 16, 17],
        &[0.0; 7],
    )
}

// The mask of five times, and a sixth place that stays.
fn expand(rt: &impl Print, first: &[i64], last: &[i64], times: &[i64; 5]) -> io::Result<()> {
    let mut mask = [7u8; 6];
    let answer = windows::expand(first, last, times, &mut mask);
    print!(rt; "    ")?;
    for byte in mask {
        print!(rt; "{byte}")?;
    }
    show_answer(rt, answer)
}

fn expansions(rt: &impl Print) -> io::Result<()> {
    let steady: [i64; 5] = [10, 20, 30, 40, 50];
    println!(rt; "expand 20-20 and 40-50 over 10 20 30 40 50:")?;
    expand(rt, &[20, 40], &[20, 50], &steady)?;
    println!(rt; "expand 20-30 and 50-50 over repeated times 10 20 20 30 40:")?;
    expand(rt, &[20, 50], &[30, 50], &[10, 20, 20, 30, 40])?;
    println!(rt; "expand 20-30 and 40-40 over reordered times 30 10 25 40 35:")?;
    expand(rt, &[20, 40], &[30, 40], &[30, 10, 25, 40, 35])?;
    println!(rt; "expand 40-20, which ends before it starts, and 30-50, in order and reordered:")?;
    expand(rt, &[40, 30], &[20, 50], &steady)?;
    expand(rt, &[40, 30], &[20, 50], &[50, 40, 30, 20, 10])?;
    println!(rt; "expand a window beyond the limit, and two lengths:")?;
    expand(rt, &[20, 30], &[4_000_000_000_000_000_001, 50], &steady)?;
    expand(rt, &[20], &[], &steady)
}

fn seconds(rt: &impl Print, first: i64, last: i64) -> io::Result<()> {
    show_duration(rt, windows::total_violation_duration(&[first], &[last]))
}

fn durations(rt: &impl Print) -> io::Result<()> {
    print!(rt; "seconds of 0 to 1.999999999:")?;
    seconds(rt, 0, 1_999_999_999)?;
    print!(rt; "seconds of a window that ends 1.5 s before it starts:")?;
    seconds(rt, 1_500_000_000, 0)?;
    print!(rt; "seconds of the longest window, and beyond:")?;
    seconds(rt, -4_000_000_000_000_000_000, 4_000_000_000_000_000_000)?;
    seconds(rt, -4_000_000_000_000_000_000, 4_000_000_000_000_000_001)?;
    print!(rt; "seconds of two windows, of none, and of two lengths:")?;
    show_duration(
        rt,
        windows::total_violation_duration(&[0, 1_000_000_000], &[1_999_999_999, 4_000_000_000]),
    )?;
    show_duration(rt, windows::total_violation_duration(&[], &[]))?;
    show_duration(rt, windows::total_violation_duration(&[0], &[]))
}

fn main(rt: HostRuntime) -> io::Result<()> {
    listings(&rt)?;
    refusals(&rt)?;
    expansions(&rt)?;
    durations(&rt)
}
