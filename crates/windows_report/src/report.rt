//! A list of windows on a core, shown.
ghost use Rattle.std.specs.Prelude.{◌≡◌, IfErr, IfOk};
ghost use Rattle.word.specs.Ram.{word_at};
ghost use Rattle.windows.specs.Window.{window};
ghost use Rattle.windows.specs.Windows.{windows_of};
ghost use Rattle.windows_report.specs.Rows.{rows_from};
ghost use Rattle.windows_report.specs.Told.{IsFound, IsRefused, IsTold, is_apart};

use crate::refusal::Refusal;
use crate::run::Run;
use crate::shared::Shared;
use crate::{pages, run, shared};
use cpu::Core;
use cpu::check::Check;
use fault::Fault;
use json_text::Hex;
use serde::{Serialize, Serializer};
use std::alloc::{AllocError, Global};
use std::fmt;
use walk_report::answer::Told;
use walk_report::explain;
use walk_report::fields::Faulted;
use windows::list::{Window, WindowList};
use windows::pages::PageFault;
use windows::{Pair, WindowsError};

// Pages that are answered alike: their first and last address, and what the first is answered.
#[derive(Clone, Copy, Serialize)]
struct Pages {
    va: Hex,
    last: Hex,
    pages: u64,
    #[serde(serialize_with = told)]
    answer: Result<u64, Fault>,
}

// A window, by its place in the list.
#[derive(Drop, Serialize)]
struct Row {
    window: usize,
    va: Hex,
    pages: u64,
    runs: Vec<Pages>,
}

// What the list comes to.
#[derive(Drop, Serialize)]
#[serde(tag = "kind", rename_all = "snake_case")]
enum Found {
    Shared {
        first: u64,
        second: u64,
        pages: Vec<Shared>,
    },
    Apart,
    Fault {
        window: u64,
        page: u64,
        va: Hex,
        #[serde(serialize_with = faulted)]
        fault: Fault,
    },
}

/// The windows of a list on a core and its RAM: the physical pages of each, and whether two share one.
#[derive(Drop, Serialize)]
pub struct Report {
    el: u8,
    regime: &'static str,
    windows: Vec<Row>,
    found: Found,
}

/// Why there is no report.
#[derive(Clone, Copy)]
pub enum Refused {
    /// a check that is missed: the core's level is above 3, or the window of RAM passes 2^64
    Check(Check),
    /// the list is wrong
    List(Refusal),
    Memory(AllocError),
}

impl From<AllocError> for Refused {
    ghost use Rattle.windows_report.specs.declared.report.Refused.TheVariants.{Memory};

    ghost from_gives = { λ error why. why ≡ Memory error };

    fn from(error: AllocError) -> Self {
        Refused::Memory(error)
    }
}

// A fault's status and name.
fn faulted<S: Serializer>(fault: &Fault, out: &mut S) -> Result<(), S::Error> {
    Faulted::new(fault.fsc).serialize(out)
}

// An address, or these.
fn told<S: Serializer>(answer: &Result<u64, Fault>, out: &mut S) -> Result<(), S::Error> {
    Told::from(*answer).serialize(out)
}

impl Row {
    fn new(alloc: Global, number: usize, window: Window, runs: &[Run]) -> Result<Self, AllocError>
        ensures window { IfOk result (λ row. row.window ≡ number) }
        ensures runs { IfOk result (λ row. row.runs.items ≡ rows_from window.start runs.now) }
    {
        let mut all = Vec::new(alloc);
        let mut va = window.start;
        for run in runs {
            let end = run.end(va);
            all.push(Pages {
                va: Hex(va),
                last: Hex(end.wrapping_sub(1)),
                pages: run.pages,
                answer: run.first,
            })?;
            va = end;
        }
        Ok(Row {
            window: number,
            va: Hex(window.start),
            pages: window.pages,
            runs: all,
        })
    }
}

// What the pages of each window are answered.
fn rows(
    alloc: Global,
    core: &Core,
    base: u64,
    ram: &[u8],
    windows: &[Window],
) -> Result<Vec<Row>, AllocError> {
    let mut all = Vec::new(alloc);
    for (number, window) in windows.iter().enumerate() {
        let answers = pages::answers(alloc, core, base, ram, *window)?;
        let runs = run::runs(alloc, answers.as_slice())?;
        all.push(Row::new(alloc, number, *window, runs.as_slice())?)?;
    }
    Ok(all)
}

// A window of a list by its number: one without pages past the last.
fn window(windows: &[Window], number: u64) -> Window
    ensures { result ≡ window windows.now number }
{
    windows
        .get(number as usize)
        .copied()
        .unwrap_or(Window { start: 0, pages: 0 })
}

// What the library finds, with the pages that two windows share, or the address that faults.
fn tell(
    alloc: Global,
    core: &Core,
    base: u64,
    ram: &[u8],
    windows: &[Window],
    answer: Result<Option<Pair>, PageFault>,
) -> Result<Found, AllocError>
    ensures { IfOk result (λ found. IsFound core.now (word_at base ram.now 8) windows.now answer found) }
{
    match answer {
        Ok(None) => Ok(Found::Apart),
        Ok(Some(pair)) => {
            let (first, second) = (window(windows, pair.first), window(windows, pair.second));
            let first = pages::answers(alloc, core, base, ram, first)?;
            let second = pages::answers(alloc, core, base, ram, second)?;
            Ok(Found::Shared {
                first: pair.first,
                second: pair.second,
                pages: shared::both(alloc, first.as_slice(), second.as_slice())?,
            })
        }
        Err(page) => Ok(Found::Fault {
            window: page.window,
            page: page.page,
            va: Hex(pages::address(window(windows, page.window), page.page)),
            fault: page.fault,
        }),
    }
}

impl Report {
    /// Of a list on a core and its RAM, which starts at `base`: what every page is answered, and what the library finds.
    pub fn new(
        alloc: Global,
        core: &Core,
        base: u64,
        ram: &[u8],
        list: &[u8],
    ) -> Result<Self, Refused>
        ensures found { IfOk result (λ report. IsTold (windows_of core.now.control core.now.privilege.level base ram.now
            list.now) report.found) }
        ensures refused { IfErr result (λ why. IsRefused list.now (windows_of core.now.control
            core.now.privilege.level base ram.now list.now) why) }
    {
        let answer = match windows::windows(core, base, ram, list) {
            Ok(pair) => Ok(pair),
            Err(WindowsError::Page(page)) => Err(page),
            Err(WindowsError::List(why)) => return Err(Refused::List(Refusal::new(why, list))),
            Err(WindowsError::Check(check)) => return Err(Refused::Check(check)),
        };
        let decoded = match WindowList::read(list) {
            Ok(decoded) => decoded,
            Err(why) => return Err(Refused::List(Refusal::new(why, list))),
        };
        let windows = decoded.windows();
        Ok(Report {
            el: core.privilege.level,
            regime: explain::regime_name(core.regime()),
            windows: rows(alloc, core, base, ram, windows)?,
            found: tell(alloc, core, base, ram, windows, answer)?,
        })
    }

    /// Whether no two windows share a page, and none faults.
    pub fn is_apart(&self) -> bool
        ensures { result ≡ is_apart self.now.found }
    {
        matches!(self.found, Found::Apart)
    }
}

// A fault by its name, and its status.
fn fault<W: fmt::Write>(f: &mut fmt::Formatter<W>, fault: Fault) -> fmt::Result {
    writeln!(f, "{} (0x{:02x})", Faulted::new(fault.fsc), fault.fsc)
}

impl fmt::Display for Pages {
    fn fmt<W: fmt::Write>(&self, f: &mut fmt::Formatter<W>) -> fmt::Result {
        write!(f, "  {:016x}-{:016x}  ", self.va.0, self.last.0)?;
        match self.answer {
            Ok(pa) => {
                let last = pa.wrapping_add(self.last.0.wrapping_sub(self.va.0));
                writeln!(f, "{pa:016x}-{last:016x}")
            }
            Err(why) => fault(f, why),
        }
    }
}

impl fmt::Display for Row {
    fn fmt<W: fmt::Write>(&self, f: &mut fmt::Formatter<W>) -> fmt::Result {
        for (place, run) in self.runs.iter().enumerate() {
            match place {
                0 => write!(f, "  {:>2}{run}", self.window)?,
                _ => write!(f, "    {run}")?,
            }
        }
        Ok(())
    }
}

impl fmt::Display for Report {
    fn fmt<W: fmt::Write>(&self, f: &mut fmt::Formatter<W>) -> fmt::Result {
        let count = self.windows.len();
        let plural = if count == 1 { "" } else { "s" };
        write!(f, "{count} window{plural} at EL{}", self.el)?;
        writeln!(f, ", for a privileged write: the regime is {}", self.regime)?;
        for row in &self.windows {
            write!(f, "{row}")?;
        }
        match &self.found {
            Found::Shared {
                first,
                second,
                pages,
            } => {
                for page in pages {
                    write!(
                        f,
                        "windows {first} and {second} share the physical page {:x}",
                        page.pa.0
                    )?;
                    let (one, other) = (page.page_of_first, page.page_of_second);
                    writeln!(f, " (page {one} of {first}, page {other} of {second})")?;
                }
                Ok(())
            }
            Found::Apart => writeln!(f, "no two of {count} windows share a page"),
            Found::Fault {
                window,
                page,
                va,
                fault: why,
            } => {
                write!(f, "window {window}, page {page} ({:016x}): ", va.0)?;
                fault(f, *why)
            }
        }
    }
}
