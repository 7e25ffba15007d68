//! What the tool says of itself.
use serde::Serialize;
use std::alloc::{AllocError, Global};
use std::io::Write;
use std::{fmt, io};
use strsim::levenshtein;

const COMMANDS: [&str; 12] = [
    "run", "reads", "audit", "walk", "flip", "counters", "census", "ranges", "windows", "frames",
    "chord", "help",
];

// What each command does.
const DETAILS: &str = "
run      carries out a trace on the proved core and prints a line for each operation: its line number,
         the operation, the answer, the table descriptors that it read, counters, registers kept and digests, as the
         Rust's run does; --short: no more than the answer and the reads; --words: these, and below them names,
         faults, ESR, FAR, PAR and MAIR in words; --full: after the trace each live entry of the cache and each hint.
         A comment `#= ANSWER; rd=3` says how many descriptors are to be read: the status is 1 where it is not so.
reads    carries out a trace, then shows the pages whose walks read most table descriptors, N rows (decimal; 20):
         level, page, regime, operations, descriptors, their share with a bar; then the others, and all.
audit    carries out a trace, and beside each access walks the tables afresh: shows the first answer that such a walk
         would not give (--all: each), the line that filled the cache, the line that changed the table, and whether
         a TLBI came between. The status is 1 where there is one.
walk     carries out a trace, then shows one translation of ADDRESS (hexadecimal) step by step: registers,
         range, each descriptor, the end, and what the core answers. A read at the core's level, or as named.
         The status is 1 where the core answers otherwise than the walk.
flip     carries out a trace, then shows the walk of ADDRESS (hexadecimal) and the first bit of a descriptor in RAM
         whose flip changes how an access ends with nothing cached, and what it ends in then; or that no bit of RAM
         does. A read at the core's level, by its own rights, or as named; the unprivileged mark does not count.
counters carries out a trace, then shows what the cache counted at each exception level: translations that an
         entry answered, walks, descriptors that were read, the share of walks with a bar, the sums, and which
         level walks and reads most.
census   carries out a trace, then shows how the PAGES pages of 4 KiB from FIRST (both hexadecimal) end in a
         fresh walk at the core's level, or as named: a table, and a map; --svg: the map as a picture.
ranges   carries out a trace, then shows what the tables map, from FIRST to LAST (hexadecimal) or of all addresses, at
         the core's level, or as named: a row for each range of addresses that are mapped on and alike.
windows  carries out a trace, then shows where the windows of LIST lie, each page for a privileged write at the core's
         level: runs of physical pages, and those that the first two windows with one in common share, or the first
         page that faults; the status is 1 where there is one. LIST is a file of numbers, the lowest byte first: how
         many windows (2 bytes), their first addresses (8 bytes each), and then their pages of 4 KiB (2 bytes each).
frames   shows a TOTAL of cycles (decimal; 1500000000 are a second) as sample frames, at 48000 and 44100 frames a
         second, or at one of them: whole frames, and exactly what is left of the next, in cycles or 147ths of one.
chord    sixteen voices, a page each, and every order of a small chord: no tone is lost; against a stale
         cache, which loses one; and with the tables changed on another core than the one that hears.

TRACE is a file of lines, or - for standard input, which is carried out as it comes: tr, dpa, fpa, ld, st, if, sys,
reg, level, mark, x, abort, census, win, flip; fresh, window, zero, poke, load, bytes; leaves l-..; pokes p-..; parts
w-.. From its first line `core N` on it is of four cores, 0 to 3, over one RAM, and operations go to core N: run
names it, audit holds each to what it heard, and the other commands are of the core that the last such line names.
Numbers are hexadecimal without 0x; # starts a comment. Names stand for numbers as an assembler has them: reg TCR_EL1
19, tlbi vae1is x1, at s1e1r x0, dc zva x2. A file with a bad line gets a message `a72: FILE:LINE:COLUMN: reason` on
standard error, and nothing else happens. --image FILE@ADDRESS: the bytes of FILE, a raw dump, are the window before
the first line, from the physical ADDRESS on. --json: what a command says as one JSON document, of run as one for
each operation; what keeps a call from being carried out too, on standard error.
";

/// Whether a word is the name of a command.
pub fn is_command(word: &str) -> bool {
    for name in COMMANDS {
        if name == word {
            return true;
        }
    }
    false
}

// The calls.
const CALLS: [&str; 12] = [
    "a72 run TRACE [--short|--words] [--full]",
    "a72 reads TRACE [N]",
    "a72 audit TRACE [--all]",
    "a72 walk TRACE ADDRESS [read|write|fetch] [LEVEL]",
    "a72 flip TRACE ADDRESS [read|write|fetch] [user|privileged] [LEVEL]",
    "a72 counters TRACE",
    "a72 census TRACE FIRST PAGES [LEVEL] [--svg]",
    "a72 ranges TRACE [FIRST LAST] [LEVEL]",
    "a72 windows TRACE LIST",
    "a72 frames TOTAL [48000|44100]",
    "a72 chord",
    "with a TRACE: [--image FILE@ADDRESS]; anywhere: --json, -h, --help, --version",
];

/// The version, which is that of bindings/rust/Cargo.toml.
pub const VERSION: Version = Version { version: "0.1.0" };

/// What `a72 help` says.
pub const HELP: Help = Help {
    calls: CALLS,
    details: DETAILS,
};

/// What `a72 --version` says.
#[derive(Clone, Copy, Serialize)]
pub struct Version {
    version: &'static str,
}

/// The calls, and what each command does.
#[derive(Clone, Copy, Serialize)]
pub struct Help {
    calls: [&'static str; 12],
    details: &'static str,
}

impl fmt::Display for Version {
    fn fmt<W: fmt::Write>(&self, f: &mut fmt::Formatter<W>) -> fmt::Result {
        writeln!(f, "a72 {}", self.version)
    }
}

impl fmt::Display for Help {
    fn fmt<W: fmt::Write>(&self, f: &mut fmt::Formatter<W>) -> fmt::Result {
        for (n, call) in self.calls.iter().enumerate() {
            let before = if n == 0 { "usage:" } else { "      " };
            writeln!(f, "{before} {call}")?;
        }
        f.write_str(self.details)
    }
}

/// The calls.
pub fn usage<W: Write>(out: &mut W) -> io::Result<()> {
    let details = "";
    write!(out, "{}", Help { details, ..HELP })
}

/// The command whose name is nearest to a word.
pub fn nearest(alloc: Global, word: &str) -> Result<&'static str, AllocError> {
    let mut best = ("help", usize::MAX);
    for name in COMMANDS {
        let edits = levenshtein(alloc, word, name)?;
        if edits < best.1 {
            best = (name, edits);
        }
    }
    Ok(best.0)
}
