//! A trace line by line, from a file or from standard input: checked, and then carried out as a command asks.
use crate::carry::{Carrier, Numbered};
use crate::load;
use cpu::call::Call;
use std::io::{BufRead, BufReader, Input, Read, Seek};
use std::rt::Files;
use std::{fs, io};
use trace_core::machine::Machine;
use trace_source::Trace;
use trace_source::report::Trouble;
use trace_text::expected::Expected;
use trace_text::line::{Digits, LONGEST_LIST, Line, Operation};
use trace_text::reason::{Reason, Refusal};
use trace_text::{expected, parse};

// No trace has more lines.
const LINES: u64 = 1_000_000_000;

// The longest line, in bytes; so many suffice for the 65,000 that are promised.
const LONGEST: usize = 65_520;

// Reads the next line, without its end, in place of the one before it; false where there is none. One that is too long
// is cut off behind its first byte too many.
fn next_line<B: BufRead>(reader: &mut B, line: &mut Vec<u8>) -> io::Result<bool> {
    line.clear();
    let most = LONGEST as u64 + 1;
    let n = reader.by_ref().take(most).read_until(b'\n', line)?;
    if line.last() == Some(&b'\n') {
        line.pop();
    }
    Ok(n != 0)
}

// What a line's bytes mean, if they mean anything.
fn meaning(bytes: &[u8]) -> Result<Option<(Line, Expected)>, Refusal> {
    if LONGEST < bytes.len() {
        return Err(Refusal {
            column: 1,
            reason: Reason::LongLine,
        });
    }
    match parse::parse(bytes)? {
        Some(line) => Ok(Some((line, expected::reads(bytes)?))),
        None => Ok(None),
    }
}

fn parsed(number: u64, bytes: &[u8]) -> Result<Option<Numbered>, Trouble> {
    match meaning(bytes) {
        Ok(Some((line, expected))) => Ok(Some(Numbered {
            number,
            line,
            expected,
        })),
        Ok(None) => Ok(None),
        Err(refusal) => Err(Trouble::Line(number, refusal)),
    }
}

// A list of windows has more bytes than there may be.
fn long_list(number: u64, digits: Digits) -> Trouble {
    let column = digits.start.wrapping_add(1);
    let reason = Reason::LongList;
    Trouble::Line(number, Refusal { column, reason })
}

// How many bytes a line's digits are.
fn bytes_of(digits: Digits) -> usize {
    digits.end.saturating_sub(digits.start) / 2
}

// All lines of a reader that stands at a trace's start are read, and none is carried out.
fn check<R: Files, B: BufRead>(rt: &R, reader: &mut B, bytes: &mut Vec<u8>) -> Result<(), Trouble> {
    let mut listed = 0;
    for before in 0..LINES {
        let number = before + 1;
        if !next_line(reader, bytes).map_err(Trouble::File)? {
            return Ok(());
        }
        match parsed(number, bytes.as_slice())?.map(|line| line.line) {
            Some(Line::Load(from)) => load::check(rt, number, bytes.as_slice(), from)?,
            Some(Line::Operation(Operation::Call(Call::Windows))) => listed = 0,
            Some(Line::Bytes(digits)) => {
                listed = bytes_of(digits).saturating_add(listed);
                if LONGEST_LIST < listed {
                    return Err(long_list(number, digits));
                }
            }
            _ => {}
        }
    }
    Err(Trouble::ManyLines)
}

// A line's bytes of a list of windows go behind those that are there.
fn list(number: u64, line: &[u8], digits: Digits, machine: &mut Machine) -> Result<(), Trouble> {
    if machine.add_digits(line.get(digits.start..digits.end).unwrap_or(b""))? {
        Ok(())
    } else {
        Err(long_list(number, digits))
    }
}

// All lines of a reader that stands at a trace's start are carried out, until the carrier has seen enough.
fn carry_out<R: Files, B: BufRead, C: Carrier>(
    rt: &R,
    reader: &mut B,
    bytes: &mut Vec<u8>,
    carrier: &mut C,
    machine: &mut Machine,
) -> Result<(), Trouble> {
    for before in 0..LINES {
        let number = before + 1;
        if !next_line(reader, bytes).map_err(Trouble::File)? {
            return Ok(());
        }
        let Some(line) = parsed(number, bytes.as_slice())? else {
            continue;
        };
        match line.line {
            Line::Load(from) => load::line(rt, number, bytes.as_slice(), from, machine)?,
            Line::Bytes(digits) => list(number, bytes.as_slice(), digits, machine)?,
            _ => {}
        }
        if !carrier.line(line, machine)? {
            return Ok(());
        }
    }
    Err(Trouble::ManyLines)
}

/// Carries out a trace: a file is checked whole before its first line is; standard input, which is read once, is
/// carried out as it comes.
pub fn run<R: Files + Input + AllocGlobal, C: Carrier>(
    rt: &R,
    trace: Trace<'_>,
    carrier: &mut C,
) -> Result<Machine, Trouble> {
    let mut machine = Machine::new(rt.alloc());
    let mut bytes = Vec::new(rt.alloc());
    if let Some(image) = trace.image {
        load::as_window(rt, image, &mut machine)?;
    }
    if trace.path == "-" {
        let mut reader = BufReader::new(rt.alloc(), rt.reader()).map_err(Trouble::File)?;
        carry_out(rt, &mut reader, &mut bytes, carrier, &mut machine)?;
        return Ok(machine);
    }
    let mut file = fs::open(rt, trace.path).map_err(Trouble::File)?;
    file.rewind().map_err(|_| Trouble::ReadOnce)?;
    let mut reader = BufReader::new(rt.alloc(), file).map_err(Trouble::File)?;
    check(rt, &mut reader, &mut bytes)?;
    reader.rewind().map_err(|_| Trouble::ReadOnce)?;
    carry_out(rt, &mut reader, &mut bytes, carrier, &mut machine)?;
    Ok(machine)
}
