//! A record's words, in their order.

/// The words of a record that are not read yet.
#[derive(Clone, Copy)]
pub struct Words<'a> {
    rest: &'a [u8],
}

impl<'a> Words<'a> {
    pub fn new(rest: &'a [u8]) -> Words<'a> {
        Words { rest }
    }

    /// The next word, if there is a whole one.
    pub fn next(&mut self) -> Option<u64> {
        let (word, rest) = self.rest.split_first_chunk::<8>()?;
        self.rest = rest;
        Some(u64::from_le_bytes(*word))
    }

    /// The next words, 0 past the last.
    pub fn fill(&mut self, words: &mut [u64]) {
        for word in words {
            *word = self.next().unwrap_or(0);
        }
    }

    /// Whether so many words are left.
    pub fn has(&self, n: usize) -> bool {
        n <= self.rest.len() / 8
    }
}
