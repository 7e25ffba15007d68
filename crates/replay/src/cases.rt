//! Cases that another implementation answered: what the core must come to, and for a class of difference what it must
//! not.
use crate::replay::Replay;
use crate::stop::{Fault, Stop};
use record_report::difference::Difference;
use std::io;
use std::io::Write;

/// A case, as far as its lines were read.
#[derive(Clone, Copy, Default)]
pub struct Case {
    // up to two classes, a byte each; 0 where both answer alike
    class: u64,
    wrong: bool,
    // how many parts of the other answer were told, and how many of them the core has too
    told: u64,
    same: u64,
}

// In a record the places from here on are the words of the last answer.
const ANSWER: u64 = 0x1_0000;

impl Case {
    // A case is right where all that is due was found; and where a class is named, some part of the other answer was
    // not.
    fn is_right(&self) -> bool {
        match self.class {
            0 => !self.wrong && self.told == 0,
            _ => !self.wrong && self.same != self.told,
        }
    }
}

impl<W: Write> Replay<'_, W> {
    // A word of the core or of the last answer; 0 past the last.
    fn found(&self, place: u64) -> u64 {
        match place.checked_sub(ANSWER) {
            Some(k) => self
                .performed
                .answer
                .words()
                .get(k as usize)
                .copied()
                .unwrap_or(0),
            None => self.machine.word(place as usize),
        }
    }

    // What the core must have come to.
    fn due(&mut self, place: u64, is: u64, want: u64) -> io::Result<()> {
        if is == want {
            return Ok(());
        }
        self.case.wrong = true;
        let difference = Difference {
            line: self.lines,
            word: place,
            name: None,
            is,
            want,
        };
        write!(self.out, "{difference}")
    }

    // The answer that is due: its code, third and fourth word in one, and its second word.
    fn answered(&mut self, small: u64, value: u64) -> io::Result<()> {
        let [code, second, third, ..] = small.to_le_bytes().map(u64::from);
        let words = self.performed.answer.words();
        for ((place, is), want) in (ANSWER..).zip(words).zip([code, value, second, third]) {
            self.due(place, is, want)?;
        }
        Ok(())
    }

    // A part of the other answer.
    fn other(&mut self, place: u64, told: u64) {
        self.case.told = self.case.told.wrapping_add(1);
        if self.found(place) == told {
            self.case.same = self.case.same.wrapping_add(1);
        }
    }

    fn end(&mut self) -> io::Result<()> {
        let class = self.case.class;
        self.counts.cases = self.counts.cases.wrapping_add(1);
        if self.case.is_right() {
            self.tally.note_case(class);
            if 256 <= class {
                self.tally.note_case(class / 256);
            }
            return Ok(());
        }
        self.counts.wrong = self.counts.wrong.wrapping_add(1);
        if !self.case.wrong {
            write!(self.out, "\n  a case that agrees, or has no class")?;
        }
        Ok(())
    }

    /// A line of a case.
    pub fn case_line(&mut self, op: &[u64; 8]) -> Result<(), Stop> {
        let [code, first, second, ..] = *op;
        match code {
            70 => {
                self.case = Case::default();
                self.case.class = first;
            }
            71 => {
                let is = self.machine.word(first as usize);
                self.due(first, is, second)?;
            }
            72 => self.other(first, second),
            73 => self.end()?,
            74 => self.answered(first, second)?,
            // operations and leaves, and pokes
            0..29 | 40..46 => return Err(Stop::Broken(Fault::NoSuchOperation)),
            _ => return Err(Stop::Broken(Fault::NoSuchLine)),
        }
        Ok(())
    }
}
