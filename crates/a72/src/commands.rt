//! The commands.
use crate::{flipped_bit, ranges, totals, voice_windows};
use audit_report::auditor::Auditor;
use audit_report::finding::Audit;
use cache_report::Cache;
use census_report::report::{Census, Form};
use chord::story::Story;
use core_calls::settings;
use counters_report::report::Counters;
use cpu::Core;
use json_text::Count;
use operation_report::show;
use reads_report::report::Report;
use serde::Serialize;
use std::alloc::Global;
use std::fmt::Display;
use std::io;
use std::io::{Input, Write};
use std::rt::Files;
use tlb::access::Kind;
use tool_call::arguments::{Arguments, Options};
use tool_call::stop::{Stop, Wrong};
use tool_call::{arguments, usage};
use trace_core::cores::Cores;
use trace_core::memory;
use trace_file::carry::{Audited, Counted, Shown, Silent};
use trace_file::run;
use walk_report::explain;

// A report, as text or as JSON.
pub(crate) fn report<W: Write, T: Display + Serialize>(
    out: &mut W,
    alloc: Global,
    json: bool,
    report: &T,
) -> io::Result<()> {
    if json {
        json_text::line(out, alloc, report)
    } else {
        write!(out, "{report}")
    }
}

// A report of one of several cores as a document: behind the core's number its own fields.
#[derive(Clone, Copy, Serialize)]
struct OfCore<'a, T> {
    core_number: Count,
    #[serde(flatten)]
    report: &'a T,
}

// A document of the core that is spoken to; of several cores it has its number.
fn document<W: Write, T: Serialize>(
    out: &mut W,
    alloc: Global,
    cores: &Cores,
    report: &T,
) -> io::Result<()> {
    match cores.number() {
        Some(number) => {
            let core_number = Count(number);
            json_text::line(
                out,
                alloc,
                &OfCore {
                    core_number,
                    report,
                },
            )
        }
        None => json_text::line(out, alloc, report),
    }
}

// Of several cores the number of the one that a report is of, above it as text; nothing of a core by itself.
fn heading<W: Write>(out: &mut W, cores: &Cores) -> io::Result<()> {
    match cores.number() {
        Some(number) => writeln!(out, "core {number:x}"),
        None => Ok(()),
    }
}

/// A report of the core that is spoken to.
pub(crate) fn report_of<W: Write, T: Display + Serialize>(
    out: &mut W,
    alloc: Global,
    json: bool,
    cores: &Cores,
    said: &T,
) -> io::Result<()> {
    if json {
        document(out, alloc, cores, said)
    } else {
        heading(out, cores)?;
        write!(out, "{said}")
    }
}

/// The core that is spoken to where a trace ends.
pub(crate) fn core(cores: &Cores) -> Result<&Core, Stop> {
    cores.spoken_to().ok_or(Stop::NoCore)
}

/// The same, at a level, if one is named.
pub(crate) fn core_at(cores: &mut Cores, level: Option<u64>) -> Result<&mut Core, Stop> {
    let core = cores.spoken_to_mut().ok_or(Stop::NoCore)?;
    if let Some(level) = level {
        settings::level(core, level);
    }
    Ok(core)
}

// `a72 run`.
fn run<R: Files + Input + AllocGlobal, W: Write>(
    rt: &R,
    out: &mut W,
    arguments: &Arguments<'_>,
    words: &[&str],
) -> Result<(), Stop> {
    let [path] = words else {
        return Err(Stop::Usage("run wants one TRACE"));
    };
    let form = if arguments.options.short {
        show::Form::Short
    } else if arguments.options.words {
        show::Form::Words
    } else {
        show::Form::Whole
    };
    let trace = arguments.trace(path)?;
    let json = arguments.options.json;
    let mut shown = Shown {
        out,
        form,
        json: json.then_some(rt.alloc()),
    };
    let machine = run::run(rt, trace, &mut shown)?;
    if arguments.options.full {
        let cache = Cache::new(rt.alloc(), core(&machine.cores)?)?;
        report_of(shown.out, rt.alloc(), json, &machine.cores, &cache)?;
    }
    Ok(())
}

// `a72 audit`.
fn audit<R: Files + Input + AllocGlobal, W: Write>(
    rt: &R,
    out: &mut W,
    arguments: &Arguments<'_>,
    words: &[&str],
) -> Result<(), Stop> {
    let [path] = words else {
        return Err(Stop::Usage("audit wants one TRACE"));
    };
    let trace = arguments.trace(path)?;
    let Options { all, json, .. } = arguments.options;
    let mut audited = Audited {
        out,
        auditor: Auditor::new(rt.alloc())?,
        all,
        at_once: !json,
    };
    run::run(rt, trace, &mut audited)?;
    let audit = Audit::new(audited.auditor, all);
    let out = audited.out;
    report(out, rt.alloc(), json, &audit)?;
    if audit.is_clean() {
        return Ok(());
    }
    out.flush()?;
    Err(Stop::Stale)
}

// `a72 counters`.
fn count<R: Files + Input + AllocGlobal, W: Write>(
    rt: &R,
    out: &mut W,
    arguments: &Arguments<'_>,
    words: &[&str],
) -> Result<(), Stop> {
    let [path] = words else {
        return Err(Stop::Usage("counters wants one TRACE"));
    };
    let mut counted = Counted::new(rt.alloc());
    let machine = run::run(rt, arguments.trace(path)?, &mut counted)?;
    let cores = &machine.cores;
    let pages = counted.pages(cores).ok_or(Stop::NoCore)?;
    let counters = Counters::new(&core(cores)?.tlb, &pages.by_level());
    report_of(out, rt.alloc(), arguments.options.json, cores, &counters)?;
    Ok(())
}

// `a72 reads`.
fn reads<R: Files + Input + AllocGlobal, W: Write>(
    rt: &R,
    out: &mut W,
    arguments: &Arguments<'_>,
    words: &[&str],
) -> Result<(), Stop> {
    let [path, rest @ ..] = words else {
        return Err(Stop::Usage("reads wants a TRACE, then a number of rows if you like"));
    };
    if 1 < rest.len() {
        return Err(Stop::Usage("reads wants no more than a number of rows after TRACE"));
    }
    let rows = arguments::rows(rest.first())?;
    let mut counted = Counted::new(rt.alloc());
    let machine = run::run(rt, arguments.trace(path)?, &mut counted)?;
    let pages = counted.pages(&machine.cores).ok_or(Stop::NoCore)?;
    let pages = Report::new(rt.alloc(), pages, rows)?;
    report_of(
        out,
        rt.alloc(),
        arguments.options.json,
        &machine.cores,
        &pages,
    )?;
    Ok(())
}

// The kind that an argument names; a read where it is not there.
pub(crate) fn kind_of(word: Option<&&str>) -> Result<Kind, Stop> {
    match word {
        None => Ok(Kind::Read),
        Some(word) => match *word {
            "read" => Ok(Kind::Read),
            "write" => Ok(Kind::Write),
            "fetch" => Ok(Kind::Fetch),
            _ => Err(Stop::Argument(Wrong::Kind)),
        },
    }
}

// `a72 walk`.
fn walk<R: Files + Input + AllocGlobal, W: Write>(
    rt: &R,
    out: &mut W,
    arguments: &Arguments<'_>,
    words: &[&str],
) -> Result<(), Stop> {
    let [path, address, rest @ ..] = words else {
        return Err(Stop::Usage(
            "walk wants a TRACE and an ADDRESS, then a kind of access and a level if you like",
        ));
    };
    if 2 < rest.len() {
        return Err(Stop::Usage(
            "walk wants no more than a kind of access and a level after ADDRESS",
        ));
    }
    let va = arguments::named_number(address, "ADDRESS")?;
    let level = arguments::level(rest.get(1))?;
    let kind = kind_of(rest.first())?;
    let mut machine = run::run(rt, arguments.trace(path)?, &mut Silent)?;
    let core = core_at(&mut machine.cores, level)?;
    let ram = machine.ram.as_mut_slice();
    let explained = explain::explain(core, machine.base, ram, kind, va);
    report_of(
        out,
        rt.alloc(),
        arguments.options.json,
        &machine.cores,
        &explained,
    )?;
    if explained.agree {
        return Ok(());
    }
    out.flush()?;
    Err(Stop::Stale)
}

// `a72 census`.
fn census<R: Files + Input + AllocGlobal, W: Write>(
    rt: &R,
    out: &mut W,
    arguments: &Arguments<'_>,
    words: &[&str],
    terminal: bool,
) -> Result<(), Stop> {
    let form = if arguments.options.svg {
        Form::Picture
    } else if terminal {
        Form::Coloured
    } else {
        Form::Plain
    };
    let [path, first, pages, rest @ ..] = words else {
        return Err(Stop::Usage(
            "census wants a TRACE, a FIRST address and a number of PAGES, then a level and --svg if you like",
        ));
    };
    if 1 < rest.len() {
        return Err(Stop::Usage("census wants no more than a level after PAGES"));
    }
    let first = arguments::named_number(first, "FIRST")?;
    let pages = arguments::named_number(pages, "PAGES")?;
    let level = arguments::level(rest.first())?;
    let mut machine = run::run(rt, arguments.trace(path)?, &mut Silent)?;
    let core = core_at(&mut machine.cores, level)?;
    let ram = machine.ram.as_slice();
    let census = Census::new(core, machine.base, ram, first, pages)?;
    if arguments.options.json {
        document(out, rt.alloc(), &machine.cores, &census.facts(rt.alloc())?)?;
        return Ok(());
    }
    if matches!(form, Form::Plain | Form::Coloured) {
        heading(out, &machine.cores)?;
    }
    census.show(out, rt.alloc(), form)?;
    Ok(())
}

// `a72 chord`.
fn chord<W: Write>(alloc: Global, out: &mut W, json: bool, words: &[&str]) -> Result<(), Stop> {
    if !words.is_empty() {
        return Err(Stop::Usage("chord wants nothing more"));
    }
    let story = Story::new(alloc, memory::zeros(alloc)?)?;
    report(out, alloc, json, &story)?;
    if story.whole {
        return Ok(());
    }
    out.flush()?;
    Err(Stop::LostTone)
}

/// `a72 help`.
pub fn help<W: Write>(alloc: Global, out: &mut W, json: bool) -> Result<(), Stop> {
    report(out, alloc, json, &usage::HELP)?;
    Ok(())
}

/// `a72 --version`.
pub fn version<W: Write>(alloc: Global, out: &mut W, json: bool) -> Result<(), Stop> {
    report(out, alloc, json, &usage::VERSION)?;
    Ok(())
}

/// The command that a call's first word names.
pub fn carry_out<R: Files + Input + AllocGlobal, W: Write>(
    rt: &R,
    out: &mut W,
    arguments: &Arguments<'_>,
    terminal: bool,
) -> Result<(), Stop> {
    let Some((name, rest)) = arguments.words.split_first() else {
        return Err(Stop::NoCommand);
    };
    if !usage::is_command(name) {
        return Err(Stop::NoSuchCommand);
    }
    if let Some(why) = arguments.options.misplaced(name) {
        return Err(Stop::Usage(why));
    }
    match *name {
        "run" => run(rt, out, arguments, rest),
        "audit" => audit(rt, out, arguments, rest),
        "counters" => count(rt, out, arguments, rest),
        "reads" => reads(rt, out, arguments, rest),
        "walk" => walk(rt, out, arguments, rest),
        "flip" => flipped_bit::carry_out(rt, out, arguments, rest),
        "census" => census(rt, out, arguments, rest, terminal),
        "ranges" => ranges::carry_out(rt, out, arguments, rest),
        "windows" => voice_windows::carry_out(rt, out, arguments, rest),
        "frames" => totals::carry_out(rt.alloc(), out, arguments.options.json, rest),
        "chord" => chord(rt.alloc(), out, arguments.options.json, rest),
        "help" => help(rt.alloc(), out, arguments.options.json),
        _ => Err(Stop::NoSuchCommand),
    }
}
