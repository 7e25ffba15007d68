//! The words of a line, and the numbers that they write.
use crate::reason::{Reason, Refusal};

/// A word, and the column of its first byte, from 1.
#[derive(Clone, Copy)]
pub struct Word<'a> {
    pub column: usize,
    pub text: &'a [u8],
}

impl Word<'_> {
    pub fn refused(&self, reason: Reason) -> Refusal {
        Refusal {
            column: self.column,
            reason,
        }
    }
}

/// What is left of a line, and the column where that begins.
#[derive(Clone, Copy)]
pub struct Words<'a> {
    rest: &'a [u8],
    column: usize,
}

fn is_space(b: u8) -> bool {
    matches!(b, b' ' | 9..=13)
}

/// Whether a line holds the byte outside its comment: spaces, and those that ASCII prints.
pub fn is_held(b: u8) -> bool {
    is_space(b) || b.is_ascii_graphic()
}

/// A line up to its comment.
pub fn before_comment(line: &[u8]) -> &[u8] {
    match line.iter().position(|b| *b == b'#') {
        Some(k) => &line[..k],
        None => line,
    }
}

impl<'a> Words<'a> {
    pub fn new(line: &'a [u8]) -> Words<'a> {
        Words {
            rest: line,
            column: 1,
        }
    }

    /// The next word, if there is one.
    pub fn next_word(&mut self) -> Option<Word<'a>> {
        let rest = self.rest;
        let start = rest.iter().position(|b| !is_space(*b))?;
        let (_, from) = rest.split_at(start);
        let long = from.iter().position(|b| is_space(*b)).unwrap_or(from.len());
        let (text, after) = from.split_at(long);
        let column = self.column.wrapping_add(start);
        self.rest = after;
        self.column = column.wrapping_add(long);
        Some(Word { column, text })
    }
}

/// The number of 64 bits that a word's bytes write in hexadecimal.
pub fn value_of(word: &[u8]) -> Result<u64, Reason> {
    if word.is_empty() {
        return Err(Reason::NotNumber);
    }
    let mut value = Some(0u64);
    for b in word {
        let digit = char::from(*b).to_digit(16).ok_or(Reason::NotNumber)?;
        value = value
            .and_then(|v| v.checked_mul(16))
            .map(|v| v | u64::from(digit));
    }
    value.ok_or(Reason::Above64)
}

/// The same, where a plus may stand before the digits.
pub fn signed_value_of(word: &[u8]) -> Result<u64, Reason> {
    value_of(word.strip_prefix(b"+").unwrap_or(word))
}

/// The byte that two digits write; 0 where they are none.
pub fn byte_of(digits: &[u8]) -> u8 {
    value_of(digits).map_or(0, |byte| (byte % 256) as u8)
}
