// Answers as lines of text.
use buffers::Refusal;
use float::bits as pattern;
use solar_roll::CellRoll;
use std::io;

// What was asked, and a cell's answer: its roll by its bits.
pub(crate) fn cell(rt: &impl Print, question: &str, c: CellRoll) -> io::Result<()> {
    match c {
        CellRoll::Free => println!(rt; "{question}: free"),
        CellRoll::At(roll) => {
            let word = pattern(roll);
            println!(rt; "{question}: at {word:016x}")
        }
        CellRoll::Refused(number) => println!(rt; "{question}: refused {number}"),
    }
}

// What was asked, and what a call answered.
pub(crate) fn answered(
    rt: &impl Print,
    question: &str,
    answer: Result<u64, Refusal>,
) -> io::Result<()> {
    match answer {
        Ok(number) => println!(rt; "{question}: accepted {number}"),
        Err(refusal) => println!(rt; "{question}: refused {}", refusal.number()),
    }
}

// A mask, a digit a byte.
pub(crate) fn bytes(rt: &impl Print, mask: &[u8]) -> io::Result<()> {
    print!(rt; "  ")?;
    for byte in mask {
        print!(rt; "{byte}")?;
    }
    println!(rt;)
}

// Floats by their bits.
pub(crate) fn bits(rt: &impl Print, values: &[f64]) -> io::Result<()> {
    for value in values {
        let word = pattern(*value);
        print!(rt; "  {word:016x}")?;
    }
    println!(rt;)
}
