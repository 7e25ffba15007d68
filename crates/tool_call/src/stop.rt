//! What keeps a command from being carried out, and what is said of it on standard error.
ghost use Rattle.std.specs.Prelude.{◌≡◌};
ghost use Rattle.std.specs.Process.{exit_status};
ghost use Rattle.tool_call.specs.Status.{status_of};

use crate::usage;
use census_report::report::Refused;
use cpu::check::Check;
use std::alloc::{AllocError, Global};
use std::io;
use std::io::Write;
use std::process::ExitCode;
use thiserror::Error;
use trace_source::report;
use trace_source::report::{Message, Trouble};
use windows_report::refusal::Refusal;
use windows_report::report as list;

/// An argument that is no such thing.
#[derive(Clone, Copy, Debug, Error)]
pub enum Wrong {
    #[error("{0}: not a hexadecimal number of 64 bits")]
    Number(&'static str),
    #[error("{0}: not a decimal number of 64 bits")]
    Decimal(&'static str),
    #[error("LEVEL: 0, 1, 2 or 3")]
    Level,
    #[error("N: not a decimal number of 32 bits")]
    Rows,
    #[error("the rate is 48000 or 44100 frames a second")]
    Rate,
    #[error("the kind of access is read, write or fetch")]
    Kind,
    #[error("the view is user or privileged")]
    View,
    #[error("{0}: File name too long")]
    LongPath(&'static str),
    #[error("--image wants FILE@ADDRESS, the address hexadecimal")]
    Image,
    #[error("an argument is not text in UTF-8")]
    NotText,
}

#[derive(Clone, Copy, Debug, Error)]
pub enum Stop {
    #[error("no command")]
    NoCommand,
    #[error("no such command")]
    NoSuchCommand,
    #[error("no such option")]
    NoSuchOption,
    /// a wrong call, and what is wrong with it
    #[error("{0}")]
    Usage(&'static str),
    #[error(transparent)]
    Argument(#[from] Wrong),
    #[error("a trace")]
    Trace(#[from] Trouble),
    #[error(transparent)]
    Census(#[from] Refused),
    /// what the system says of LIST
    #[error("{0}")]
    List(io::Error),
    #[error("a list of more than 10000 bytes (64 KiB)")]
    LongList,
    /// of a command on windows of a list, or on a flipped bit
    #[error("the window of RAM passes 2^64")]
    PastRam,
    /// of a command on the core that a trace leaves
    #[error("the trace ends on a core above 3: there are the cores 0 to 3")]
    NoCore,
    /// LIST is wrong
    #[error("a wrong list")]
    WrongList(Refusal),
    /// two windows share a page, or a page faults, as standard output says
    #[error("windows that are not apart")]
    NotApart,
    /// the core gave an answer that a walk now would not, as standard output says
    #[error("a stale answer")]
    Stale,
    /// some of what was asked was not looked at, as standard output says
    #[error("not all was looked at")]
    Unfinished,
    #[error("the proved core lost a tone of the chord")]
    LostTone,
    /// standard output takes no more
    #[error("{0}")]
    Output(#[from] io::Error),
    #[error("out of memory")]
    Memory(#[from] AllocError),
}

// A check of a command on windows or on a flipped bit.
impl From<Check> for Stop {
    fn from(check: Check) -> Self {
        match check {
            Check::Level => Stop::Census(Refused::Level),
            _ => Stop::PastRam,
        }
    }
}

impl From<list::Refused> for Stop {
    fn from(refused: list::Refused) -> Self {
        match refused {
            list::Refused::Check(check) => Stop::from(check),
            list::Refused::List(refusal) => Stop::WrongList(refusal),
            list::Refused::Memory(error) => Stop::Memory(error),
        }
    }
}

impl Stop {
    /// The status that the tool ends with: 2 where the call is wrong, else 1.
    pub fn status(&self) -> ExitCode
        ensures { exit_status result ≡ status_of self.now }
    {
        match self {
            Stop::NoCommand | Stop::NoSuchCommand | Stop::NoSuchOption | Stop::Usage(_) => {
                ExitCode::from(2u8)
            }
            _ => ExitCode::FAILURE,
        }
    }
}

// The word after those that name no option, in their order: the command is that of place 0.
fn word_at(words: &[String], place: usize) -> &str {
    let mut before = 0usize;
    let mut is_image = false;
    for word in words {
        let word = word.as_str();
        if is_image {
            is_image = false;
        } else if word == "--image" {
            is_image = true;
        } else if !word.starts_with("--") {
            if before == place {
                return word;
            }
            before = before.wrapping_add(1);
        }
    }
    ""
}

// Whether a call asks for JSON.
fn is_json(words: &[String]) -> bool {
    words.iter().any(|word| word.as_str() == "--json")
}

// The first word that names no option.
fn unknown_option(words: &[String]) -> &str {
    let known = |word: &str| {
        matches!(
            word,
            "--image"
                | "--short"
                | "--words"
                | "--full"
                | "--all"
                | "--svg"
                | "--json"
                | "--help"
                | "--version"
        )
    };
    let unknown = words.iter().find(|word| word.as_str().starts_with("--")
        && !known(word.as_str()));
    unknown.map_or("", |word| word.as_str())
}

// The message on the call of these words.
fn message(alloc: Global, words: &[String], stop: Stop) -> Result<Message<'_>, AllocError> {
    let reason = match stop {
        Stop::NoSuchCommand => {
            let word = word_at(words, 0);
            let nearest = usage::nearest(alloc, word)?;
            format!(in alloc; "no such command: {word} (the nearest is {nearest})")?
        }
        Stop::NoSuchOption => {
            let word = unknown_option(words);
            format!(in alloc; "no such option: {word}")?
        }
        Stop::Trace(trouble) => return report::message_on(alloc, word_at(words, 1), trouble),
        Stop::Output(error) => {
            let reason = report::system(alloc, error)?;
            return Ok(Message::new(Some("write"), reason));
        }
        Stop::List(error) => {
            let reason = report::system(alloc, error)?;
            return Ok(Message::new(Some(word_at(words, 2)), reason));
        }
        Stop::LongList => {
            let reason = format!(in alloc; "{stop}")?;
            return Ok(Message::new(Some(word_at(words, 2)), reason));
        }
        Stop::WrongList(Refusal { byte, reason }) => {
            let reason = format!(in alloc; "{reason}")?;
            return Ok(Message::at_byte(word_at(words, 2), byte, reason));
        }
        _ => format!(in alloc; "{stop}")?,
    };
    Ok(Message::new(None, reason))
}

/// Says why the call of these words is not carried out: as JSON where it asks for that, else in words, and the usage
/// after a wrong call.
pub fn show<W: Write>(out: &mut W, alloc: Global, words: &[String], stop: Stop) -> io::Result<()> {
    if matches!(stop, Stop::Stale | Stop::Unfinished | Stop::NotApart) {
        return Ok(());
    }
    let message = message(alloc, words, stop)?;
    if is_json(words) {
        return json_text::line(out, alloc, &message);
    }
    match stop {
        Stop::NoCommand => usage::usage(out),
        Stop::NoSuchCommand | Stop::NoSuchOption | Stop::Usage(_) => {
            write!(out, "{message}")?;
            usage::usage(out)
        }
        _ => write!(out, "{message}"),
    }
}
