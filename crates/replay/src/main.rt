// Replays the recorded answers of the original Rust: asks the library what each line of data/ asks, and compares. Writes for each
// kind of question how many answers there are, and how many of them differ here; the gate wants none.
//
// harness/compare/src/bin/record.rs writes the files, and says what a line holds.
#![tactic(auto)]

ghost use Rattle.std.specs.Prelude.{◌≤◌, length, IfOk};

mod kinds;
mod plans;
mod positions;
mod rows;
mod words;

use kinds::Kind;
use std::fs::File;
use std::io;
use std::io::Read;
use std::rt::Files;
use words::Line;

// Whether a line's answer is the library's too.
fn agrees(kind: Kind, given: &Line, asked: &Line) -> bool {
    match kind {
        Kind::Difference => plans::difference(asked),
        Kind::Violations | Kind::Visibility => rows::samples(kind, given, asked),
        Kind::Expand | Kind::ExpandReordered | Kind::Result | Kind::Seconds => {
            rows::windows(kind, given, asked)
        }
        Kind::Vectors => positions::vectors(given, asked),
        _ => plans::asked_of_plan(kind, given, asked),
    }
}

// The answers of a kind, and those of them that differ.
#[derive(Clone, Copy, Default)]
struct Count {
    answers: u64,
    differ: u64,
}

// By kind. At `Given`, which does not ask, stands what is of no kind.
type Counts = [Count; 20];

fn tally(given: &Line, asked: &Line, counts: &mut Counts) {
    let kind = Kind::try_from(asked.word(0));
    if let Some(count) = counts.get_mut(kind.unwrap_or(Kind::Given) as usize) {
        count.answers = count.answers.wrapping_add(1);
        if !kind.is_ok_and(|kind| agrees(kind, given, asked)) {
            count.differ = count.differ.wrapping_add(1);
        }
    }
}

// What follows the last line's end is no line.
fn replay(text: &[u8], counts: &mut Counts) {
    let mut given = Line::unwritten();
    let mut lines = text.split(|byte| *byte < b' ');
    let _ = lines.next_back();
    for line in lines {
        let line = Line::parse(line);
        if Kind::try_from(line.word(0)) == Ok(Kind::Given) {
            given = line;
        } else {
            tally(&given, &line, counts);
        }
    }
}

// Reads until the buffer is full or the input ends, and answers how many bytes were read.
// `read_exact` refuses a shorter file, and `read_to_end` needs the heap. A crate that gave this to vectors too would be longer.
// `done` counts bytes that the reader gave, so no range gives it.
fn read_full(input: &mut impl Read, buffer: &mut [u8]) -> io::Result<usize>
    ensures { IfOk result (λ n. n ≤ length buffer.new) }
{
    let mut done = 0;
    while done < buffer.len() {
        let n = input.read(&mut buffer[done..])?;
        if n == 0 {
            break;
        }
        done += n;
    }
    Ok(done)
}

fn replay_file(rt: &impl Files, name: &str, counts: &mut Counts) -> io::Result<()> {
    let mut buffer = [0u8; 65536];
    let mut file = File::open(rt, name)?;
    let length = read_full(&mut file, &mut buffer)?;
    replay(&buffer[..length], counts);
    Ok(())
}

static SHOWN: [(&str, Kind); 20] = [
    ("differences", Kind::Difference),
    ("cells, Free or a roll", Kind::Cell),
    ("named values", Kind::NamedValues),
    ("rows with severities", Kind::Row),
    ("sweeps with probes", Kind::Sweep),
    ("masks at the configured roll", Kind::Batch),
    ("masks at a sweep's roll", Kind::AtSweep),
    ("masks at a fixed roll", Kind::AtFixed),
    ("masks at every roll", Kind::EveryRoll),
    ("fields of regard", Kind::Field),
    ("fields of regard at a roll", Kind::FieldAtRoll),
    ("violation windows", Kind::Violations),
    ("visibility windows of a mask", Kind::Visibility),
    ("visibility windows of a result", Kind::Result),
    ("expansions, rising times", Kind::Expand),
    ("expansions, reordered times", Kind::ExpandReordered),
    ("seconds", Kind::Seconds),
    ("vectors of catalogue positions", Kind::Vectors),
    ("sweeps with probes, by a table", Kind::Table),
    ("of no kind", Kind::Given),
];

fn show(rt: &impl Print, counts: &Counts) -> io::Result<()> {
    for (name, kind) in &SHOWN {
        if let Some(Count { answers, differ }) = counts.get(*kind as usize) {
            println!(rt; "{name}: {answers} answers, {differ} differ")?;
        }
    }
    Ok(())
}

static FILES: [&str; 6] = [
    "section-2",
    "section-3",
    "section-5",
    "section-6",
    "catalogue",
    "table",
];

fn main(rt: HostRuntime) -> io::Result<()> {
    let mut counts = [Count::default(); 20];
    for name in &FILES {
        replay_file(&rt, name, &mut counts)?;
    }
    show(&rt, &counts)
}
