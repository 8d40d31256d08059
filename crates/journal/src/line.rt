// A chunk line, written and read.
ghost use Rattle.std.specs.Prelude.{◌≡◌, ◌+◌, ◌*◌, ◌≤◌, length};
ghost use Rattle.buffers.specs.Lent.{over, put};
ghost use Rattle.journal.specs.Lines.{header_length, line_length, line_text};
ghost use Rattle.journal.specs.Right.{line_at};

use crate::header::HEADER_LENGTH;
use crate::hex::{are_digits, hex_value, write_hex};

// How many bytes a line has, with its 0a.
pub const LINE_LENGTH: usize = 33;

// The numbers of a line.
#[derive(Clone, Copy)]
pub struct Line {
    pub chunk: u64,
    pub mask: u64,
    pub probes: u64,
}

// Writes a line at the front of the journal's tail.
fn write_line(tail: &mut [u8], line: Line)
    requires { line_length ≤ length tail.old }
    ensures { tail.new ≡ over (line_text line.chunk line.mask line.probes) tail.old }
{
    write_hex(&mut tail[..8], line.chunk);
    write_hex(&mut tail[8..24], line.mask);
    write_hex(&mut tail[24..32], line.probes);
    tail[32] = b'\n';
}

// Appends a line to the used bytes of the journal.
pub(crate) fn append_line(journal: &mut [u8], used: usize, line: Line)
    requires { used + line_length ≤ length journal.old }
    ensures { journal.new ≡ put used (line_text line.chunk line.mask line.probes) journal.old }
{
    write_line(&mut journal[used..], line);
}

// Reads line l: none if it lacks its 32 digits or 0a.
pub(crate) fn read_line(journal: &[u8], l: usize) -> Option<Line>
    requires { header_length + line_length * l + line_length ≤ length journal.now }
    ensures { result ≡ line_at journal.now l }
{
    let at = HEADER_LENGTH + LINE_LENGTH * l;
    let digits = &journal[at..at + 32];
    let end = journal[at + 32];
    let framed = are_digits(digits) & (end == b'\n');
    if !framed {
        return None;
    }
    Some(Line {
        chunk: hex_value(&digits[..8]),
        mask: hex_value(&digits[8..24]),
        probes: hex_value(&digits[24..]),
    })
}
