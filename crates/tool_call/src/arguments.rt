//! The words of a call: its command, options and arguments.
use crate::stop::{Stop, Wrong};
use std::alloc::AllocError;
use std::env;
use std::io::ErrorKind;
use std::rt::Env;
use trace_source::{Image, Trace};
use trace_text::lex;
use trace_text::reason::Reason;

// An argument has no more bytes, as a number and as a path.
const NUMBER: usize = 32;

const PATH: usize = 4096;

/// The options of a call.
#[derive(Clone, Copy, Default)]
pub struct Options<'a> {
    pub image: Option<Image<'a>>,
    pub short: bool,
    pub words: bool,
    pub full: bool,
    pub all: bool,
    pub svg: bool,
    pub json: bool,
    pub help: bool,
    pub version: bool,
}

/// The words after the program's name: options, which may stand anywhere, and the others in their order.
#[derive(Drop)]
pub struct Arguments<'a> {
    pub options: Options<'a>,
    pub words: Vec<&'a str>,
}

/// A number; 0x may stand before it.
pub fn number(word: &str) -> Result<u64, Reason> {
    if NUMBER < word.len() {
        return Err(Reason::NotNumber);
    }
    let bytes = word.as_bytes();
    lex::value_of(bytes.strip_prefix(b"0x").unwrap_or(bytes))
}

/// A number by its name in the usage.
pub fn named_number(word: &str, name: &'static str) -> Result<u64, Stop> {
    number(word).map_err(|_| Stop::Argument(Wrong::Number(name)))
}

/// The level that an argument names; none where it is not there.
pub fn level(word: Option<&&str>) -> Result<Option<u64>, Stop> {
    let Some(word) = word else {
        return Ok(None);
    };
    match number(word) {
        Ok(level) if level < 4 => Ok(Some(level)),
        _ => Err(Stop::Argument(Wrong::Level)),
    }
}

// Rows of a table where a call does not say how many.
const ROWS: usize = 20;

/// A number of decimal digits alone.
pub fn decimal(word: &str) -> Option<u64> {
    if !word.bytes().all(|b| b.is_ascii_digit()) {
        return None;
    }
    word.parse::<u64>().ok()
}

/// The number of rows that an argument says, in decimal.
pub fn rows(word: Option<&&str>) -> Result<usize, Stop> {
    let Some(word) = word else {
        return Ok(ROWS);
    };
    match decimal(word) {
        Some(rows) if rows <= u32::MAX as u64 => Ok(rows as usize),
        _ => Err(Stop::Argument(Wrong::Rows)),
    }
}

/// The words after the program's name.
pub fn words<R: Env + AllocGlobal>(rt: &R) -> Result<Vec<String>, Stop> {
    match env::args(rt) {
        Ok(all) => Ok(all.skip(1).collect(rt.alloc())?),
        Err(error) if error.kind() == ErrorKind::OutOfMemory => Err(Stop::Memory(AllocError)),
        Err(_) => Err(Stop::Argument(Wrong::NotText)),
    }
}

/// The path of a file, by its name in the usage.
pub fn path<'a>(word: &'a str, name: &'static str) -> Result<&'a str, Stop> {
    if PATH < word.len() {
        return Err(Stop::Argument(Wrong::LongPath(name)));
    }
    Ok(word)
}

// FILE@ADDRESS.
fn image(word: &str) -> Result<Image<'_>, Stop> {
    let Some((file, addr)) = word.rsplit_once('@') else {
        return Err(Stop::Argument(Wrong::Image));
    };
    let addr = number(addr).map_err(|_| Stop::Argument(Wrong::Image))?;
    let path = path(file, "--image")?;
    Ok(Image { path, addr })
}

impl Options<'_> {
    /// What is wrong with the options of a call: one of another command, or two that exclude each other.
    pub fn misplaced(&self, command: &str) -> Option<&'static str> {
        if self.short && command != "run" {
            return Some("--short is an option of run");
        }
        if self.words && command != "run" {
            return Some("--words is an option of run");
        }
        if self.full && command != "run" {
            return Some("--full is an option of run");
        }
        if self.all && command != "audit" {
            return Some("--all is an option of audit");
        }
        if self.svg && command != "census" {
            return Some("--svg is an option of census");
        }
        if self.image.is_some() && matches!(command, "chord" | "frames" | "help") {
            return Some("--image is an option of the commands that take a TRACE");
        }
        if self.svg && self.json {
            return Some("census wants --svg or --json, and not both");
        }
        (self.short && self.words).then_some("run wants --short or --words, and not both")
    }
}

impl<'a> Arguments<'a> {
    /// The words as options and others. An option that is not known is a wrong call.
    pub fn new(words: &'a [String], others: Vec<&'a str>) -> Result<Arguments<'a>, Stop> {
        let mut all = Arguments {
            options: Options::default(),
            words: others,
        };
        let mut wants_image = false;
        for word in words {
            let word = word.as_str();
            let options = &mut all.options;
            if wants_image {
                if options.image.is_some() {
                    return Err(Stop::Usage("--image stands twice"));
                }
                options.image = Some(image(word)?);
                wants_image = false;
                continue;
            }
            match word {
                "--image" => wants_image = true,
                "--short" => options.short = true,
                "--words" => options.words = true,
                "--full" => options.full = true,
                "--all" => options.all = true,
                "--svg" => options.svg = true,
                "--json" => options.json = true,
                "-h" | "--help" => options.help = true,
                "--version" => options.version = true,
                _ if word.starts_with("--") => return Err(Stop::NoSuchOption),
                _ => all.words.push(word).map_err(AllocError::from)?,
            }
        }
        if wants_image {
            return Err(Stop::Argument(Wrong::Image));
        }
        Ok(all)
    }

    /// The trace of a path, on the dump that the options name.
    pub fn trace(&self, word: &'a str) -> Result<Trace<'a>, Stop> {
        Ok(Trace {
            path: path(word, "TRACE")?,
            image: self.options.image,
        })
    }
}
