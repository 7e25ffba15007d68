//! `a72 flip`.
use crate::commands;
use flip_report::report::Report;
use std::io::{Input, Write};
use std::rt::Files;
use tool_call::arguments;
use tool_call::arguments::Arguments;
use tool_call::stop::{Stop, Wrong};
use trace_file::carry::Silent;
use trace_file::run;

// Whether the view that an argument names is EL0's.
fn is_user(word: Option<&&str>) -> Result<Option<bool>, Stop> {
    match word {
        None => Ok(None),
        Some(word) => match *word {
            "user" => Ok(Some(true)),
            "privileged" => Ok(Some(false)),
            _ => Err(Stop::Argument(Wrong::View)),
        },
    }
}

/// The first bit of RAM whose flip changes how an access ends, on the core that a trace leaves.
pub(crate) fn carry_out<R: Files + Input + AllocGlobal, W: Write>(
    rt: &R,
    out: &mut W,
    arguments: &Arguments<'_>,
    words: &[&str],
) -> Result<(), Stop> {
    let [path, address, rest @ ..] = words else {
        return Err(Stop::Usage(
            "flip wants a TRACE and an ADDRESS, then a kind of access, a view and a level if you like",
        ));
    };
    if 3 < rest.len() {
        return Err(Stop::Usage(
            "flip wants no more than a kind of access, a view and a level after ADDRESS",
        ));
    }
    let va = arguments::named_number(address, "ADDRESS")?;
    let level = arguments::level(rest.get(2))?;
    let kind = commands::kind_of(rest.first())?;
    let view = is_user(rest.get(1))?;
    let mut machine = run::run(rt, arguments.trace(path)?, &mut Silent)?;
    let core = commands::core_at(&mut machine.cores, level)?;
    // where none is named, the level's own
    let user = view.unwrap_or(core.privilege.level == 0);
    let ram = machine.ram.as_mut_slice();
    let report = Report::new(core, machine.base, ram, va, kind, user)?;
    commands::report_of(
        out,
        rt.alloc(),
        arguments.options.json,
        &machine.cores,
        &report,
    )?;
    Ok(())
}
