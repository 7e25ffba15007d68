//! Records, replayed one after another on one core, and what is said of them.
use crate::cases::Case;
use cpu::call::Reply;
use record_report::report;
use record_report::report::Counts;
use record_report::tally::Tally;
use std::alloc::{AllocError, Global};
use std::io::{ErrorKind, Read, Write};
use std::rt::Files;
use std::{fs, io};
use trace_core::machine::{Machine, Performed};
use trace_text::answer::Answer;

// The last answer where there was none yet.
const NOTHING: Performed = Performed {
    answer: Answer::Reply(Reply::Done),
    reads: 0,
};

/// A core on which records are replayed, and what they came to.
#[derive(Drop)]
pub struct Replay<'a, W> {
    pub out: &'a mut W,
    pub machine: Machine,
    pub tally: Tally,
    // how many records there were, and what they came to
    records: u64,
    total: Counts,
    // whether the record that is replayed is one of four cores
    pub several: bool,
    // of the record that is replayed: its lines, what it came to, its last case, and what its last operation
    // answered and read
    pub lines: u64,
    pub counts: Counts,
    pub case: Case,
    pub performed: Performed,
}

// A file's bytes, up to where a read fails; nothing where it can't be opened.
fn bytes_of<R: Files + AllocGlobal>(rt: &R, name: &str) -> io::Result<Option<Vec<u8>>> {
    let Ok(mut file) = fs::open(rt, name) else {
        return Ok(None);
    };
    let mut bytes = Vec::new(rt.alloc());
    match file.read_to_end(&mut bytes) {
        Err(error) if error.kind() == ErrorKind::OutOfMemory => Err(error),
        _ => Ok(Some(bytes)),
    }
}

impl<'a, W: Write> Replay<'a, W> {
    pub fn new(out: &'a mut W, alloc: Global) -> Result<Replay<'a, W>, AllocError> {
        Ok(Replay {
            out,
            machine: Machine::new(alloc),
            tally: Tally::new(),
            records: 0,
            total: Counts::default(),
            several: false,
            lines: 0,
            counts: Counts::default(),
            case: Case::default(),
            performed: NOTHING,
        })
    }

    /// A new record begins.
    pub fn restart(&mut self) {
        self.machine.restart();
        self.several = false;
        self.lines = 0;
        self.counts = Counts::default();
        self.case = Case::default();
        self.performed = NOTHING;
    }

    /// A record by its name.
    pub fn file<R: Files + AllocGlobal>(&mut self, rt: &R, name: &str) -> io::Result<()> {
        write!(self.out, "{name}")?;
        let Some(bytes) = bytes_of(rt, name)? else {
            self.total.wrong = self.total.wrong.wrapping_add(1);
            return writeln!(self.out, ": no such file");
        };
        self.record(bytes.as_slice())?;
        self.records = self.records.wrapping_add(1);
        self.total.add(&self.counts);
        writeln!(self.out, "{}", self.counts)
    }

    /// The summary, and whether all was as recorded. A run without a record shows nothing.
    pub fn finish(&mut self) -> io::Result<bool> {
        if self.records == 0 {
            self.total.wrong = self.total.wrong.wrapping_add(1);
            writeln!(self.out, "no record was replayed")?;
        }
        report::all(self.out, self.records, &self.total, &self.tally)?;
        self.out.flush()?;
        Ok(self.total.wrong == 0)
    }
}
