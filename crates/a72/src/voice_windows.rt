//! `a72 windows`.
use crate::commands;
use std::io::{Input, Read, Write};
use std::rt::Files;
use std::{fs, io};
use tool_call::arguments;
use tool_call::arguments::Arguments;
use tool_call::stop::Stop;
use trace_file::carry::Silent;
use trace_file::run;
use trace_text::line::LONGEST_LIST;
use windows_report::report::Report;

// The bytes of a list, and one more of a file that is too long.
fn read<R: Files + AllocGlobal>(rt: &R, path: &str) -> io::Result<Vec<u8>> {
    let mut bytes = Vec::new(rt.alloc());
    let file = fs::open(rt, path)?;
    file.take(LONGEST_LIST as u64 + 1).read_to_end(&mut bytes)?;
    Ok(bytes)
}

/// The windows of a list, on the core that a trace leaves.
pub(crate) fn carry_out<R: Files + Input + AllocGlobal, W: Write>(
    rt: &R,
    out: &mut W,
    arguments: &Arguments<'_>,
    words: &[&str],
) -> Result<(), Stop> {
    let [path, list] = words else {
        return Err(Stop::Usage("windows wants a TRACE and a LIST"));
    };
    let list = read(rt, arguments::path(list, "LIST")?).map_err(Stop::List)?;
    if LONGEST_LIST < list.len() {
        return Err(Stop::LongList);
    }
    let machine = run::run(rt, arguments.trace(path)?, &mut Silent)?;
    let (ram, list) = (machine.ram.as_slice(), list.as_slice());
    let core = commands::core(&machine.cores)?;
    let report = Report::new(rt.alloc(), core, machine.base, ram, list)?;
    commands::report_of(
        out,
        rt.alloc(),
        arguments.options.json,
        &machine.cores,
        &report,
    )?;
    if report.is_apart() {
        return Ok(());
    }
    out.flush()?;
    Err(Stop::NotApart)
}
