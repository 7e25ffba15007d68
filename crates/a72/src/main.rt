#![tactic(auto)]
//! The tool: traces on the proved core, the pages that read most, an audit of its cache, its counters by level, one
//! translation step by step, the bit whose flip changes one, an address space as ranges, a census of pages, windows
//! that share a page, cycles as sample frames, and the chord.
mod commands;
mod flipped_bit;
mod ranges;
mod totals;
mod voice_windows;

use std::io;
use std::io::{BufWriter, Input, IsTerminal, LineWriter, Write};
use std::process::ExitCode;
use std::rt::Files;
use tool_call::arguments::Arguments;
use tool_call::stop::Stop;
use tool_call::{arguments, stop};

// A call's command.
fn command<R: Files + Input + AllocGlobal, W: Write>(
    rt: &R,
    out: &mut W,
    words: &[String],
    terminal: bool,
) -> Result<(), Stop> {
    let arguments = Arguments::new(words, Vec::new(rt.alloc()))?;
    if arguments.options.version {
        commands::version(rt.alloc(), out, arguments.options.json)?;
    } else if arguments.options.help {
        commands::help(rt.alloc(), out, arguments.options.json)?;
    } else {
        commands::carry_out(rt, out, &arguments, terminal)?;
    }
    out.flush()?;
    Ok(())
}

// The command of the words, on standard output. On a terminal each line is written as it is made.
fn carry_out(rt: &HostRuntime, words: &[String]) -> Result<(), Stop> {
    let alloc = rt.alloc();
    let terminal = rt.stdout().is_terminal();
    if terminal {
        let mut out = LineWriter::new(alloc, io::writer(rt))?;
        command(rt, &mut out, words, terminal)
    } else {
        let mut out = BufWriter::new(alloc, io::writer(rt))?;
        command(rt, &mut out, words, terminal)
    }
}

// What is wrong is said on standard error; the status is the same where that takes nothing.
fn stopped(rt: &HostRuntime, words: &[String], stop: Stop) -> ExitCode {
    let _ = stop::show(&mut rt.stderr(), rt.alloc(), words, stop);
    stop.status()
}

fn main(rt: HostRuntime) -> ExitCode {
    let words = match arguments::words(&rt) {
        Ok(words) => words,
        Err(stop) => return stopped(&rt, &[], stop),
    };
    match carry_out(&rt, words.as_slice()) {
        Ok(()) => ExitCode::SUCCESS,
        Err(stop) => stopped(&rt, words.as_slice(), stop),
    }
}
