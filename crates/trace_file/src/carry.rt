//! What a command does with each line of a trace: it is shown, carried out in silence, counted, or audited.
use audit_report::auditor::Auditor;
use audit_report::kept::Cause;
use cpu::call::Call;
use operation_report::show::{Form, Outcome, Seen};
use reads_report::named;
use reads_report::pages::Pages;
use std::alloc::{AllocError, Global};
use std::io;
use std::io::Write;
use trace_core::cores::Cores;
use trace_core::machine::{Machine, Performed};
use trace_source::report::Trouble;
use trace_text::expected::Expected;
use trace_text::line::{Line, Operation, Setup};

/// A line of a trace, by its number from 1, and what it expects to be read.
#[derive(Clone, Copy)]
pub struct Numbered {
    pub number: u64,
    pub line: Line,
    pub expected: Expected,
}

impl Numbered {
    // The line, and the core that it is for, among several.
    fn cause(&self, machine: &Machine) -> Cause {
        let core = match self.line {
            Line::Operation(_) | Line::Setup(Setup::Part(_)) => machine.cores.number(),
            _ => None,
        };
        Cause {
            number: self.number,
            core,
            line: self.line,
        }
    }

    // What was read is what the line expects.
    fn hold(&self, reads: u64) -> Result<(), Trouble> {
        match self.expected.broken(reads) {
            Some(said) => Err(Trouble::Reads(self.number, said, reads)),
            None => Ok(()),
        }
    }
}

/// What carries out lines.
pub trait Carrier {
    /// A line is carried out on the machine; false where the lines after it are of no interest. Of a line that loads a
    /// file the bytes are in the window already.
    fn line(&mut self, line: Numbered, machine: &mut Machine) -> Result<bool, Trouble>;
}

/// Each operation gets a line of output.
#[derive(Drop)]
pub struct Shown<'a, W> {
    pub out: &'a mut W,
    pub form: Form,
    /// as JSON, which is made here
    pub json: Option<Global>,
}

/// Nothing is said.
#[derive(Clone, Copy)]
pub struct Silent;

/// Nothing is said; what each operation reads is counted at its page, for each core by itself.
#[derive(Drop)]
pub struct Counted {
    pages: [Pages; 4],
}

impl Counted {
    pub fn new(alloc: Global) -> Self {
        Counted {
            pages: [
                Pages::new(alloc),
                Pages::new(alloc),
                Pages::new(alloc),
                Pages::new(alloc),
            ],
        }
    }

    /// Of the core that is spoken to, if there is one of its number.
    pub fn pages(&self, cores: &Cores) -> Option<&Pages> {
        self.pages.get(cores.place()?)
    }

    // A call, and what it read at its page.
    fn call(&mut self, machine: &mut Machine, call: Call) -> Result<(), AllocError> {
        let page = match machine.cores.spoken_to() {
            Some(core) => named::page(core, call),
            None => None,
        };
        let reads = machine.perform(Operation::Call(call)).reads;
        let (Some(page), Some(place)) = (page, machine.cores.place()) else {
            return Ok(());
        };
        if reads != 0 {
            self.pages[place].note(page, reads)?;
        }
        Ok(())
    }
}

/// Each access is held to a walk made now.
#[derive(Drop)]
pub struct Audited<'a, W> {
    pub out: &'a mut W,
    pub auditor: Auditor,
    /// all stale answers are shown, or the first alone
    pub all: bool,
    /// each is shown when it is found; else they are kept
    pub at_once: bool,
}

// The line, but for what it says.
fn perform(line: Line, machine: &mut Machine) -> Result<(), Trouble> {
    match line {
        Line::Setup(setup) => machine.arrange(setup)?,
        Line::Operation(operation) => {
            machine.perform(operation);
        }
        Line::Load(_) | Line::Bytes(_) => {}
    }
    Ok(())
}

impl<W: Write> Carrier for Shown<'_, W> {
    fn line(&mut self, line: Numbered, machine: &mut Machine) -> Result<bool, Trouble> {
        let Line::Operation(operation) = line.line else {
            perform(line.line, machine)?;
            line.hold(0)?;
            return Ok(true);
        };
        let Performed { answer, reads } = machine.perform(operation);
        let window = match self.form {
            Form::Whole => machine.window_digest(),
            _ => 0,
        };
        let seen = Seen {
            number: machine.cores.number(),
            core: machine.cores.spoken_to(),
            el: machine.level(),
            window,
        };
        let outcome = Outcome::new(self.form, line.number, operation, answer, reads, seen);
        match self.json {
            Some(alloc) => json_text::line(self.out, alloc, &outcome),
            None => write!(self.out, "{outcome}"),
        }
        .map_err(Trouble::Output)?;
        line.hold(reads)?;
        Ok(true)
    }
}

impl Carrier for Silent {
    fn line(&mut self, line: Numbered, machine: &mut Machine) -> Result<bool, Trouble> {
        perform(line.line, machine)?;
        Ok(true)
    }
}

impl Carrier for Counted {
    fn line(&mut self, line: Numbered, machine: &mut Machine) -> Result<bool, Trouble> {
        match line.line {
            Line::Operation(Operation::Call(call)) => self.call(machine, call)?,
            Line::Setup(Setup::Fresh) => {
                for pages in self.pages.iter_mut() {
                    pages.clear();
                }
                perform(line.line, machine)?;
            }
            _ => perform(line.line, machine)?,
        }
        Ok(true)
    }
}

impl<W: Write> Carrier for Audited<'_, W> {
    fn line(&mut self, line: Numbered, machine: &mut Machine) -> Result<bool, Trouble> {
        let cause = line.cause(machine);
        self.auditor.line(machine, cause)?;
        if self.at_once {
            for finding in &self.auditor.found {
                write!(self.out, "{finding}").map_err(Trouble::Output)?;
            }
            self.auditor.found.clear();
        }
        Ok(self.all || self.auditor.counts.stale == 0)
    }
}
