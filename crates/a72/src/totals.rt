//! `a72 frames`.
use crate::commands;
use frames::Rate;
use frames_report::Total;
use std::alloc::Global;
use std::io::Write;
use tool_call::arguments;
use tool_call::stop::{Stop, Wrong};

// The rate that an argument names, in frames a second; none where it is not there.
fn rate(word: Option<&&str>) -> Result<Option<Rate>, Stop> {
    let Some(word) = word else {
        return Ok(None);
    };
    match arguments::decimal(word).and_then(Rate::of) {
        Some(rate) => Ok(Some(rate)),
        None => Err(Stop::Argument(Wrong::Rate)),
    }
}

/// The sample frames of a number of cycles.
pub(crate) fn carry_out<W: Write>(
    alloc: Global,
    out: &mut W,
    json: bool,
    words: &[&str],
) -> Result<(), Stop> {
    let [total, rest @ ..] = words else {
        return Err(Stop::Usage("frames wants a TOTAL of cycles, then a rate if you like"));
    };
    if 1 < rest.len() {
        return Err(Stop::Usage("frames wants no more than a rate after TOTAL"));
    }
    let Some(cycles) = arguments::decimal(total) else {
        return Err(Stop::Argument(Wrong::Decimal("TOTAL")));
    };
    let rate = rate(rest.first())?;
    commands::report(out, alloc, json, &Total::new(cycles, rate))?;
    Ok(())
}
