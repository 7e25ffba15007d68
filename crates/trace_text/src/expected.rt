//! What a line's comment expects of its operation: `#= ANSWER; rd=3 .. -- WHY`. Of its words `rd` is held here; the
//! others are the oracle's.
use crate::lex;
use crate::reason::{Reason, Refusal};

/// The descriptors that an operation should read, as a word says it.
#[derive(Clone, Copy, Debug)]
pub struct Said {
    pub reads: u64,
    /// zeros before the number, with which no answer writes it
    pub zeros: usize,
    /// the column of the word
    pub column: usize,
}

/// The first word that says what should be read, and the first after it that says otherwise: with both, one is at fault.
#[derive(Clone, Copy, Debug, Default)]
pub struct Expected {
    first: Option<Said>,
    other: Option<Said>,
}

impl Said {
    fn of(number: &[u8], column: usize) -> Result<Self, Reason> {
        let reads = lex::value_of(number)?;
        let last = number.len().wrapping_sub(1);
        let zeros = number.iter().position(|b| *b != b'0').unwrap_or(last);
        Ok(Said {
            reads,
            zeros,
            column,
        })
    }

    fn holds(&self, reads: u64) -> bool {
        self.reads == reads && self.zeros == 0
    }
}

impl Expected {
    fn add(&mut self, said: Said) {
        match self.first {
            None => self.first = Some(said),
            Some(first) if self.other.is_none() && !said.holds(first.reads) => {
                self.other = Some(said);
            }
            _ => {}
        }
    }

    /// The word that does not hold of so many descriptors read, if one does not.
    pub fn broken(&self, reads: u64) -> Option<Said> {
        match self.first {
            Some(first) if first.holds(reads) => self.other,
            first => first,
        }
    }
}

// Whether a byte ends a word.
fn ends(b: u8) -> bool {
    b == b';' || !b.is_ascii_graphic()
}

// What stands before the reason.
fn before_reason(text: &[u8]) -> &[u8] {
    match text.windows(2).position(|pair| matches!(pair, b"--")) {
        Some(k) => &text[..k],
        None => text,
    }
}

// The number of the word that bytes begin with, if that is `rd`.
fn number(text: &[u8]) -> Option<&[u8]> {
    let long = text.iter().position(|b| ends(*b)).unwrap_or(text.len());
    match &text[..long] {
        [b'r', b'd', b'=', number @ ..] => Some(number),
        b"rd" => Some(&[]),
        _ => None,
    }
}

/// What the comment of some bytes expects to be read.
pub fn reads(line: &[u8]) -> Result<Expected, Refusal> {
    let mut expected = Expected::default();
    let Some(before) = line.iter().position(|b| *b == b'#') else {
        return Ok(expected);
    };
    let Some(text) = line[before..].strip_prefix(b"#=") else {
        return Ok(expected);
    };
    let text = before_reason(text);
    let mut begins = true;
    for (i, b) in text.iter().enumerate() {
        if begins && let Some(number) = number(&text[i..]) {
            let column = before.wrapping_add(i).wrapping_add(3);
            let said = Said::of(number, column).map_err(|reason| Refusal { column, reason })?;
            expected.add(said);
        }
        begins = ends(*b);
    }
    Ok(expected)
}
