// A line's words: read as lists of what they stand for, and compared with lists that a call wrote.
use float::{bits, of_bits};

// What stands past a line's last word, and in every type what a lent place holds before a call.
pub(crate) const UNWRITTEN: u64 = 7;

// The value of a hexadecimal digit. Any other byte has one too, here and in crates/vectors, which `to_digit` would not give.
fn digit(c: u8) -> u64 {
    if c < b'a' {
        c as u64 % 16
    } else {
        (c as u64 + 9) % 16
    }
}

// What a word may stand for.
pub(crate) trait Word: Copy {
    fn from_word(word: u64) -> Self;

    fn to_word(self) -> u64;
}

impl Word for u64 {
    fn from_word(word: u64) -> Self {
        word
    }

    fn to_word(self) -> u64 {
        self
    }
}

impl Word for f64 {
    fn from_word(word: u64) -> Self {
        of_bits(word)
    }

    fn to_word(self) -> u64 {
        bits(self)
    }
}

impl Word for i64 {
    fn from_word(word: u64) -> Self {
        word.cast_signed()
    }

    fn to_word(self) -> u64 {
        self.cast_unsigned()
    }
}

impl Word for u8 {
    fn from_word(word: u64) -> Self {
        (word % 256) as u8
    }

    fn to_word(self) -> u64 {
        u64::from(self)
    }
}

#[derive(Clone, Copy)]
pub(crate) struct Line([u64; 256]);

impl Line {
    pub(crate) fn unwritten() -> Line {
        Line([UNWRITTEN; 256])
    }

    // Words are parted by spaces.
    pub(crate) fn parse(text: &[u8]) -> Line {
        let mut words = [UNWRITTEN; 256];
        for (word, digits) in words.iter_mut().zip(text.split(|byte| *byte == b' ')) {
            *word = digits.iter().fold(0, |value, c| (value << 4) | digit(*c));
        }
        Line(words)
    }

    pub(crate) fn word(&self, i: u64) -> u64 {
        self.0.get(i as usize).copied().unwrap_or(UNWRITTEN)
    }

    pub(crate) fn number(&self, i: u64) -> f64 {
        of_bits(self.word(i))
    }

    // Reads words from word `from` on, and gives the first `count`, or those that there was room for.
    pub(crate) fn read<'a, T: Word>(&self, from: u64, count: u64, out: &'a mut [T]) -> &'a [T] {
        for (k, place) in out.iter_mut().enumerate() {
            *place = T::from_word(self.word(from.wrapping_add(k as u64)));
        }
        let read: &[T] = out;
        read.get(..count as usize).unwrap_or(read)
    }

    // Whether a list holds the words from `from` on, one in `step`, and is unwritten past the last.
    pub(crate) fn has<T: Word>(&self, list: &[T], from: u64, step: u64) -> bool {
        list.iter().enumerate().all(|(k, x)| {
            x.to_word() == self.word(from.wrapping_add(step.wrapping_mul(k as u64)))
        })
    }
}
