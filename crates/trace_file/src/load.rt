//! Raw dumps: a file's bytes into the window.
use std::io::{Read, Seek, SeekFrom};
use std::rt::Files;
use std::{fs, io, str};
use trace_core::machine::Machine;
use trace_source::Image;
use trace_source::report::Trouble;
use trace_text::line::{LONGEST_WINDOW, Load, Setup};
use trace_text::reason::{Reason, Refusal};

// The path of a line's file, and the place that a message names.
fn path_in(line: &[u8], from: Load) -> &str {
    let path = line.get(from.start..from.end).unwrap_or(b"");
    str::from_utf8(path).unwrap_or("")
}

fn column(from: Load) -> usize {
    from.start.wrapping_add(1)
}

// A file, and how many bytes it has.
fn open<R: Files>(rt: &R, path: &str) -> io::Result<(R::File, u64)> {
    let mut file = fs::open(rt, path)?;
    let len = file.seek(SeekFrom::End(0))?;
    file.rewind()?;
    Ok((file, len))
}

/// A line's file is there.
pub fn check<R: Files>(rt: &R, number: u64, line: &[u8], from: Load) -> Result<(), Trouble> {
    match open(rt, path_in(line, from)) {
        Ok(_) => Ok(()),
        Err(error) => Err(Trouble::Load(number, column(from), error)),
    }
}

/// A line's file goes into the window, which holds all of it.
pub fn line<R: Files>(
    rt: &R,
    number: u64,
    line: &[u8],
    from: Load,
    machine: &mut Machine,
) -> Result<(), Trouble> {
    let column = column(from);
    let failed = |error| Trouble::Load(number, column, error);
    let (mut file, len) = open(rt, path_in(line, from)).map_err(failed)?;
    let Some(part) = machine.part(from.addr, len) else {
        let reason = Reason::OutsideWindow;
        return Err(Trouble::Line(number, Refusal { column, reason }));
    };
    file.read_exact(part).map_err(failed)
}

/// A dump becomes the window.
pub fn as_window<R: Files>(rt: &R, image: Image<'_>, machine: &mut Machine) -> Result<(), Trouble> {
    let (mut file, len) = open(rt, image.path).map_err(Trouble::Image)?;
    if len > LONGEST_WINDOW as u64 {
        return Err(Trouble::LongImage);
    }
    machine.arrange(Setup::Window {
        base: image.addr,
        len: len as usize,
    })?;
    file.read_exact(machine.ram.as_mut_slice())
        .map_err(Trouble::Image)
}
