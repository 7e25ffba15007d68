//! A record's lines, one after another.
use crate::judge;
use crate::replay::Replay;
use crate::stop::{Fault, Stop};
use crate::words::Words;
use record_report::short;
use std::io;
use std::io::Write;
use trace_text::line::{Line, Setup};
use trace_text::words;

// No record has a longer window, in bytes.
const LONGEST_WINDOW: usize = 0x20_0000;

// The code of a line with bytes of a list of windows.
const BYTES: u64 = 68;

// No record has more lines.
const LINES: u64 = 100_000_000;

// A line of eight words, of which the first is read.
fn full(words: &mut Words<'_>, first: u64) -> Result<[u64; 8], Stop> {
    if !words.has(7) {
        return Err(Stop::Broken(Fault::ShortLine));
    }
    let mut line = [first; 8];
    words.fill(&mut line[1..]);
    Ok(line)
}

// A short line: its first word says how many follow.
fn brief(words: &mut Words<'_>, first: u64) -> [u64; 8] {
    let mut following = [0; 3];
    let n = (first >> 8 & 255) as usize;
    words.fill(&mut following[..n.min(3)]);
    let [a, b, c] = following;
    short::words(first, a, b, c)
}

// How many words an operation has, of one core and of four.
const OF_ONE: u64 = 8 + judge::AFTER as u64;

const OF_FOUR: u64 = OF_ONE + judge::OF_FOUR as u64;

// The bytes `A72REC03`, and as many words to an operation as are read here.
fn is_record(head: &[u64; 8]) -> bool {
    head[0] == u64::from_le_bytes(*b"A72REC03") && (head[6] == OF_ONE || head[6] == OF_FOUR)
}

impl<W: Write> Replay<'_, W> {
    // One difference more: a fault of the record.
    fn faulty(&mut self, fault: Fault) -> io::Result<()> {
        self.counts.wrong = self.counts.wrong.wrapping_add(1);
        write!(self.out, "\n  {fault}")
    }

    // Bytes of a list of windows: how many, and the words that hold them.
    fn list(&mut self, op: &[u64; 8]) -> Result<(), Stop> {
        let count = op[1];
        if 48 < count {
            return Err(Stop::Broken(Fault::NoSuchLine));
        }
        let words = op.iter().skip(2);
        for byte in words
            .flat_map(|word| word.to_le_bytes())
            .take(count as usize)
        {
            if !self.machine.add_byte(byte)? {
                return Err(Stop::Broken(Fault::LongList));
            }
        }
        Ok(())
    }

    // The line that begins with this word. The words after an operation's are held against the core where it is whole.
    fn line(&mut self, words: &mut Words<'_>, first: u64) -> Result<(), Stop> {
        self.lines = self.lines.wrapping_add(1);
        let whole = first % 256 < 128;
        let op = if whole {
            full(words, first)?
        } else {
            brief(words, first)
        };
        if op[0] == BYTES {
            return self.list(&op);
        }
        match words::line_of(&op) {
            Some(Line::Operation(operation)) => {
                self.performed = self.machine.perform(operation);
                self.counts.done = self.counts.done.wrapping_add(1);
                if whole {
                    self.judge(words, &operation)?;
                }
            }
            Some(Line::Setup(Setup::Window { len, .. })) if LONGEST_WINDOW < len => {
                return Err(Stop::Broken(Fault::LargeWindow));
            }
            Some(Line::Setup(setup)) => self.machine.arrange(setup)?,
            Some(Line::Load(_) | Line::Bytes(_)) | None => self.case_line(&op)?,
        }
        Ok(())
    }

    // The lines up to the record's end, or to one that is at fault.
    fn all_lines(&mut self, words: &mut Words<'_>) -> Result<(), Stop> {
        for _ in 0..LINES {
            let Some(first) = words.next() else {
                return Ok(());
            };
            self.line(words, first)?;
        }
        Ok(())
    }

    // The header's numbers of lines, operations and cases are those that were there, and there was an operation.
    fn as_headed(&mut self, head: &[u64; 8]) -> io::Result<()> {
        let [_, _, lines, done, _, cases, ..] = *head;
        let counts = self.counts;
        self.counts.left = done.saturating_sub(counts.done);
        if counts.done == 0 {
            self.faulty(Fault::NothingReplayed)
        } else if (lines, done, cases) == (self.lines, counts.done, counts.cases) {
            Ok(())
        } else {
            self.faulty(Fault::OtherNumbers)
        }
    }

    /// A whole record, from a fresh core and a window without bytes.
    pub fn record(&mut self, record: &[u8]) -> io::Result<()> {
        self.restart();
        let mut words = Words::new(record);
        let mut head = [0; 8];
        words.fill(&mut head);
        if !is_record(&head) {
            return self.faulty(Fault::NoRecord);
        }
        self.several = head[6] == OF_FOUR;
        match self.all_lines(&mut words) {
            Ok(()) => {}
            Err(Stop::Broken(fault)) => self.faulty(fault)?,
            Err(Stop::Output(error)) => return Err(error),
        }
        self.as_headed(&head)
    }
}
