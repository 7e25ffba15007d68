//! `a72 ranges`.
use crate::commands;
use census_report::report::Refused;
use ranges_report::report::Ranges;
use std::io::{Input, Write};
use std::rt::Files;
use tool_call::arguments;
use tool_call::arguments::Arguments;
use tool_call::stop::Stop;
use trace_file::carry::Silent;
use trace_file::run;

// The ends of what is asked: the pages of FIRST and LAST, or all.
fn ends(bounds: Option<(&str, &str)>) -> Result<(u64, u64), Stop> {
    let Some((first, last)) = bounds else {
        return Ok((0, u64::MAX));
    };
    let first = arguments::named_number(first, "FIRST")? & !0xFFF;
    let last = arguments::named_number(last, "LAST")? | 0xFFF;
    if last < first {
        return Err(Stop::Usage("ranges wants FIRST at or below LAST"));
    }
    Ok((first, last))
}

/// The ranges that a trace leaves mapped.
pub(crate) fn carry_out<R: Files + Input + AllocGlobal, W: Write>(
    rt: &R,
    out: &mut W,
    arguments: &Arguments<'_>,
    words: &[&str],
) -> Result<(), Stop> {
    let (path, bounds, level) = match words {
        [path] => (path, None, None),
        [path, level] => (path, None, Some(level)),
        [path, first, last] => (path, Some((*first, *last)), None),
        [path, first, last, level] => (path, Some((*first, *last)), Some(level)),
        _ => {
            return Err(Stop::Usage(
                "ranges wants a TRACE, then a FIRST and a LAST address, and a level, if you like",
            ));
        }
    };
    let (first, last) = ends(bounds)?;
    let level = arguments::level(level)?;
    let mut machine = run::run(rt, arguments.trace(path)?, &mut Silent)?;
    let core = commands::core_at(&mut machine.cores, level)?;
    if 3 < core.privilege.level {
        return Err(Stop::Census(Refused::Level));
    }
    let ram = machine.ram.as_slice();
    let ranges = Ranges::new(rt.alloc(), core, machine.base, ram, first, last)?;
    commands::report_of(
        out,
        rt.alloc(),
        arguments.options.json,
        &machine.cores,
        &ranges,
    )?;
    if ranges.is_all() {
        return Ok(());
    }
    out.flush()?;
    Err(Stop::Unfinished)
}
