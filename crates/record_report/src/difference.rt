//! A word that is not what it should be.
use std::fmt;

/// In which line of a record it was found, its place, what it is and what it should be. A word of an operation's line
/// has a name.
#[derive(Clone, Copy)]
pub struct Difference {
    pub line: u64,
    pub word: u64,
    pub name: Option<&'static str>,
    pub is: u64,
    pub want: u64,
}

impl fmt::Display for Difference {
    fn fmt<W: fmt::Write>(&self, f: &mut fmt::Formatter<W>) -> fmt::Result {
        write!(f, "\n  line {}: word {}", self.line, self.word)?;
        if let Some(name) = self.name {
            write!(f, " ({name})")?;
        }
        write!(f, " is {:x}, not {:x}", self.is, self.want)
    }
}
