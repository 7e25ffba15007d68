//! The summary: each record, operations by kind and answer, cases by class.
use crate::tables;
use crate::tables::{Column, KINDS, Kind};
use crate::tally::{ANSWERS, Tally};
use std::io::Write;
use std::{fmt, io};

/// What a record came to, or all of them: operations replayed and left out, cases, differences.
#[derive(Clone, Copy, Default)]
pub struct Counts {
    pub done: u64,
    pub left: u64,
    pub cases: u64,
    pub wrong: u64,
}

impl Counts {
    pub fn add(&mut self, more: &Counts) {
        self.done = self.done.wrapping_add(more.done);
        self.left = self.left.wrapping_add(more.left);
        self.cases = self.cases.wrapping_add(more.cases);
        self.wrong = self.wrong.wrapping_add(more.wrong);
    }
}

/// A record's line.
impl fmt::Display for Counts {
    fn fmt<W: fmt::Write>(&self, f: &mut fmt::Formatter<W>) -> fmt::Result {
        let start = if self.wrong == 0 { ": " } else { "\n  " };
        write!(f, "{start}{} operations", self.done)?;
        if self.left != 0 {
            write!(f, ", {} left out", self.left)?;
        }
        if self.cases != 0 {
            write!(f, ", {} cases", self.cases)?;
        }
        write!(f, ", {} differences", self.wrong)
    }
}

// A kind, how often it was asked for, and how often it gave each answer.
fn row<W: Write>(out: &mut W, kind: Kind, name: &str, counts: &[u64; ANSWERS]) -> io::Result<()> {
    let sum = counts.iter().fold(0u64, |sum, n| sum.wrapping_add(*n));
    if sum == 0 {
        return Ok(());
    }
    write!(out, "{name} {sum}")?;
    let mut before = "  ";
    for (place, n) in counts.iter().enumerate() {
        if *n != 0 {
            write!(out, "{before}{} {n}", Column { kind, place })?;
            before = ", ";
        }
    }
    writeln!(out)
}

/// The whole summary of some records.
pub fn all<W: Write>(out: &mut W, records: u64, all: &Counts, tally: &Tally) -> io::Result<()> {
    writeln!(out, "\nRecorded answers, by operation:")?;
    for (kind, name) in KINDS {
        row(out, kind, name, tally.row(kind))?;
    }
    writeln!(out, "\nOutside vectors, by class of difference:")?;
    for (class, n) in tally.cases().iter().enumerate() {
        if *n != 0 {
            writeln!(out, "{} {n}", tables::class_name(class))?;
        }
    }
    let Counts {
        done,
        left,
        cases,
        wrong,
    } = all;
    write!(
        out,
        "\n{records} records, {done} operations, {left} left out"
    )?;
    writeln!(out, ", {cases} outside cases; differences {wrong}")
}
