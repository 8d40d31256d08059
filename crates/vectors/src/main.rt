// Replays the roots, arctangents, sines and cosines that tools/vectors.rs recorded, from standard input, and writes how many
// agree, after each line that does not.
//
// A line has three words of 16 hexadecimal digits: an operand, dashes and its root; or y, z and the arctangent of (y, z); or r,
// a colon, its sine and its cosine.
#![tactic(auto)]

ghost use Rattle.std.specs.Prelude.{◌<◌, ◌≤◌, length, IfOk};

use std::io;
use std::io::Read;

const LINE: usize = 51;

type Line = [u8; LINE];

// The value of a hexadecimal digit. Any other byte has one too, here and in crates/replay, which `to_digit` would not give.
fn digit(c: u8) -> u64
    ensures { result < 16 }
{
    if c < b'a' {
        c as u64 % 16
    } else {
        (c as u64 + 9) % 16
    }
}

fn word(digits: &[u8]) -> u64 {
    digits.iter().fold(0, |value, c| (value << 4) | digit(*c))
}

// What a line has.
#[derive(Clone, Copy, PartialEq, Eq)]
enum Form {
    Root,
    Arctangent,
    SineAndCosine,
}

fn form_of(line: &Line) -> Form {
    if line[16] == b':' {
        Form::SineAndCosine
    } else if line[17] == b'-' {
        Form::Root
    } else {
        Form::Arctangent
    }
}

// Whether a line has the answer that is computed here.
fn agrees(line: &Line) -> bool {
    let x = float::of_bits(word(&line[..16]));
    let second = word(&line[17..33]);
    let third = word(&line[34..50]);
    match form_of(line) {
        Form::Root => float::bits(float::sqrt(x)) == third,
        Form::Arctangent => float::bits(float::atan2(x, float::of_bits(second))) == third,
        Form::SineAndCosine => {
            let both = float::sin_cos(x);
            float::bits(both.sin) == second && float::bits(both.cos) == third
        }
    }
}

fn count(lines: &[Line], form: Form) -> usize {
    lines.iter().filter(|line| form_of(line) == form).count()
}

fn replay(rt: &impl Print, text: &[u8]) -> io::Result<()> {
    let (lines, _) = text.as_chunks::<LINE>();
    let mut agree: usize = 0;
    for line in lines {
        if agrees(line) {
            agree += 1;
        } else {
            rt.write_all(line)?;
        }
    }
    let roots = count(lines, Form::Root);
    let arctangents = count(lines, Form::Arctangent);
    let sines = count(lines, Form::SineAndCosine);
    print!(rt; "{roots} roots, {arctangents} arctangents and {sines} sines and cosines: ")?;
    println!(rt; "{agree} agree")
}

// Reads until the buffer is full or the input ends, and answers how many bytes were read.
// `read_exact` refuses a shorter input, and `read_to_end` needs the heap. A crate that gave this to replay too would be longer.
// `done` counts bytes that the reader gave, so no range gives it.
fn read_full(input: &mut impl Read, buffer: &mut [u8]) -> io::Result<usize>
    ensures { IfOk result (λ n. n ≤ length buffer.new) }
{
    let mut done = 0;
    while done < buffer.len() {
        let n = input.read(&mut buffer[done..])?;
        if n == 0 {
            break;
        }
        done += n;
    }
    Ok(done)
}

fn main(rt: HostRuntime) -> io::Result<()> {
    let mut space = [0u8; 65536];
    let n = read_full(&mut rt.reader(), &mut space)?;
    replay(&rt, &space[..n])
}
