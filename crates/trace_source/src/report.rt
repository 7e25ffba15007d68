//! What keeps a trace from being carried out, and what is said of it on standard error: `FILE:LINE:COLUMN: reason`.
use serde::Serialize;
use std::alloc::{AllocError, Global};
use std::{fmt, io};
use trace_text::expected::Said;
use trace_text::reason::Refusal;

/// What keeps a trace from being carried out.
#[derive(Clone, Copy, Debug)]
pub enum Trouble {
    /// what the system says of the file, or memory
    File(io::Error),
    /// standard output takes no more
    Output(io::Error),
    /// the number of the line that is refused
    Line(u64, Refusal),
    /// the number of a line that expects other reads, the word that says so, and what was read
    Reads(u64, Said, u64),
    /// what the system says of a file that a line loads: the line, the column of its path
    Load(u64, usize, io::Error),
    /// what the system says of the dump before the first line
    Image(io::Error),
    LongImage,
    ManyLines,
    ReadOnce,
}

impl From<AllocError> for Trouble {
    fn from(error: AllocError) -> Trouble {
        Trouble::File(io::Error::from(error))
    }
}

/// What is said of a call that is not carried out: where it stopped, if there is a place, and why.
#[derive(Drop, Serialize)]
pub struct Message<'a> {
    /// a file, an option, or the write of standard output
    #[serde(skip_serializing_if = Option::is_none)]
    place: Option<&'a str>,
    #[serde(skip_serializing_if = Option::is_none)]
    line: Option<u64>,
    #[serde(skip_serializing_if = Option::is_none)]
    column: Option<usize>,
    #[serde(skip_serializing_if = Option::is_none)]
    byte: Option<u64>,
    reason: String,
}

impl<'a> Message<'a> {
    pub fn new(place: Option<&'a str>, reason: String) -> Self {
        Message {
            place,
            line: None,
            column: None,
            byte: None,
            reason,
        }
    }

    /// At a byte of a file, from 0.
    pub fn at_byte(path: &'a str, byte: u64, reason: String) -> Self {
        Message {
            place: Some(path),
            line: None,
            column: None,
            byte: Some(byte),
            reason,
        }
    }

    // In a line of the file, at a column.
    fn at(path: &'a str, line: u64, column: usize, reason: String) -> Self {
        Message {
            place: Some(path),
            line: Some(line),
            column: Some(column),
            byte: None,
            reason,
        }
    }
}

impl fmt::Display for Message<'_> {
    fn fmt<W: fmt::Write>(&self, f: &mut fmt::Formatter<W>) -> fmt::Result {
        write!(f, "a72: ")?;
        if let Some(place) = self.place {
            write!(f, "{place}")?;
        }
        if let (Some(line), Some(column)) = (self.line, self.column) {
            write!(f, ":{line}:{column}")?;
        }
        if self.place.is_some() {
            write!(f, ": ")?;
        }
        if let Some(byte) = self.byte {
            write!(f, "byte {byte}: ")?;
        }
        writeln!(f, "{}", self.reason)
    }
}

/// An error of the system in its own words, which std follows by the error's number.
pub fn system(alloc: Global, error: io::Error) -> Result<String, AllocError> {
    let text = format!(in alloc; "{error}")?;
    match text.split_once(" (os error ") {
        Some((words, _)) => String::from_str(alloc, words),
        None => Ok(text),
    }
}

/// The message on a trace.
pub fn message_on<'a>(
    alloc: Global,
    path: &'a str,
    trouble: Trouble,
) -> Result<Message<'a>, AllocError> {
    let written = |reason: &str| String::from_str(alloc, reason);
    Ok(match trouble {
        Trouble::File(error) => Message::new(Some(path), system(alloc, error)?),
        Trouble::Output(error) => Message::new(Some("write"), system(alloc, error)?),
        Trouble::Line(line, Refusal { column, reason }) => {
            Message::at(path, line, column, format!(in alloc; "{reason}")?)
        }
        Trouble::Reads(line, said, is) => {
            let Said {
                reads,
                zeros,
                column,
            } = said;
            let reason = format!(in alloc;
                "descriptors read: {is:x}, not {:0>zeros$}{reads:x}",
                ""
            )?;
            Message::at(path, line, column, reason)
        }
        Trouble::Load(line, column, error) => {
            Message::at(path, line, column, system(alloc, error)?)
        }
        Trouble::Image(error) => Message::new(Some("--image"), system(alloc, error)?),
        Trouble::LongImage => Message::new(
            Some("--image"),
            written("a file of more than 20000000 bytes (512 MiB)")?,
        ),
        Trouble::ManyLines => Message::new(Some(path), written("more than 1000000000 lines")?),
        Trouble::ReadOnce => Message::new(
            Some(path),
            written("not a file that can be read twice (- is standard input)")?,
        ),
    })
}
