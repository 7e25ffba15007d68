//! A line of output for an operation: its number in the trace, of several cores the one that it is for, the operation,
//! the answer, the descriptors that its walks read, and the core after it.
use crate::said;
use crate::words::Words;
use core_parts::read;
use counters_report::line::Levels;
use cpu::Core;
use digest::parts;
use digest::parts::Sum;
use json_text::{Count, Hex, Shown};
use serde::Serialize;
use std::fmt;
use trace_text::answer::Answer;
use trace_text::line::Operation;

// What is pending for the other cores.
#[derive(Clone, Copy, Serialize)]
struct Pending {
    kind: u64,
    operand: Hex,
}

// How many entries or hints there are, and their digest.
#[derive(Clone, Copy, Serialize)]
struct Digest {
    count: u64,
    digest: Hex,
}

// The core after an operation: what the cache counted, registers, and the digests of registers, entries, hints and the
// window.
#[derive(Clone, Copy, Serialize)]
struct After {
    counters: Levels,
    flushes: Count,
    drops: Count,
    epoch: Count,
    broadcast: Pending,
    last_pa: Hex,
    abort_pa: Hex,
    el: u64,
    unprivileged: bool,
    asid: Hex,
    generation: Count,
    par: Hex,
    pc: Hex,
    registers: Hex,
    entries: Digest,
    hints: Digest,
    ram: Hex,
}

/// What a line of output says.
#[derive(Clone, Copy, PartialEq, Eq)]
pub enum Form {
    /// the operation, its answer, what it read and the core after it
    Whole,
    /// the same without the core: no digest of the window is taken
    Short,
    /// the same, and below it what that says in the manual's words
    Words,
}

/// What is seen after an operation.
#[derive(Clone, Copy)]
pub struct Seen<'a> {
    /// of several cores, the number of the one that was spoken to
    pub number: Option<u64>,
    /// that core, if there is one of its number
    pub core: Option<&'a Core>,
    /// its level, as it was given
    pub el: u64,
    /// the digest of the window, where the form shows it
    pub window: u64,
}

/// An operation that was carried out. Shown, it is a line, and one for each of its words.
#[derive(Clone, Copy, Serialize)]
pub struct Outcome {
    line: Count,
    // of several cores, the one that was spoken to
    #[serde(skip_serializing_if = Option::is_none)]
    core_number: Option<Count>,
    operation: Shown<Operation>,
    #[serde(serialize_with = said::answer)]
    answer: Answer,
    #[serde(skip_serializing_if = Option::is_none)]
    reads: Option<Count>,
    #[serde(skip_serializing_if = Option::is_none)]
    words: Option<Words>,
    #[serde(skip_serializing_if = Option::is_none)]
    core: Option<After>,
}

impl Digest {
    fn new(sum: Sum) -> Self {
        Digest {
            count: sum.count,
            digest: Hex(sum.digest),
        }
    }
}

impl Pending {
    fn new(core: &Core) -> Self {
        let mut pending = [0; 2];
        read::pending(core, &mut pending);
        let [kind, operand] = pending;
        Pending {
            kind,
            operand: Hex(operand),
        }
    }
}

impl After {
    // Of a core, its level as it was given, and the digest of the window.
    fn new(core: &Core, el: u64, window: u64) -> Self {
        let tlb = &core.tlb;
        After {
            counters: Levels::new(&tlb.levels),
            flushes: Count(tlb.flushes),
            drops: Count(tlb.drops),
            epoch: Count(tlb.epoch),
            broadcast: Pending::new(core),
            last_pa: Hex(core.last_pa),
            abort_pa: Hex(core.abort_pa),
            el,
            unprivileged: core.privilege.unprivileged,
            asid: Hex(u64::from(tlb.asid)),
            generation: Count(u64::from(tlb.generation)),
            par: Hex(core.sys.par_el1),
            pc: Hex(core.pc),
            registers: Hex(parts::registers(core)),
            entries: Digest::new(parts::entries(core)),
            hints: Digest::new(parts::hints(core)),
            ram: Hex(window),
        }
    }
}

impl Outcome {
    /// Of the operation of a line: its answer, what it read, and what is seen after it.
    pub fn new(
        form: Form,
        line: u64,
        operation: Operation,
        answer: Answer,
        reads: u64,
        seen: Seen<'_>,
    ) -> Self {
        let (words, core) = match (form, seen.core) {
            (Form::Words, Some(core)) => (Some(Words::new(&operation, answer, core)), None),
            (Form::Whole, Some(core)) => (None, Some(After::new(core, seen.el, seen.window))),
            _ => (None, None),
        };
        Outcome {
            line: Count(line),
            core_number: seen.number.map(Count),
            operation: Shown::new(operation),
            answer,
            reads: operation.reports().then_some(Count(reads)),
            words,
            core,
        }
    }
}

impl fmt::Display for Digest {
    fn fmt<W: fmt::Write>(&self, f: &mut fmt::Formatter<W>) -> fmt::Result {
        write!(f, "{}:{:016x}", self.count, self.digest.0)
    }
}

impl fmt::Display for After {
    fn fmt<W: fmt::Write>(&self, f: &mut fmt::Formatter<W>) -> fmt::Result {
        let Pending { kind, operand } = self.broadcast;
        write!(f, " | {} fl={:x}", self.counters, self.flushes.0)?;
        write!(f, " dr={:x} ep={:x}", self.drops.0, self.epoch.0)?;
        write!(f, " bc={kind}:{:x} lp={:x}", operand.0, self.last_pa.0)?;
        write!(f, " ap={:x} el={}", self.abort_pa.0, self.el)?;
        write!(f, " um={}", u8::from(self.unprivileged))?;
        write!(f, " as={:x} gen={:x}", self.asid.0, self.generation.0)?;
        write!(f, " par={:x} pc={:x}", self.par.0, self.pc.0)?;
        write!(f, " R={:016x} T={}", self.registers.0, self.entries)?;
        write!(f, " H={} M={:016x}", self.hints, self.ram.0)
    }
}

impl fmt::Display for Outcome {
    fn fmt<W: fmt::Write>(&self, f: &mut fmt::Formatter<W>) -> fmt::Result {
        let operation = self.operation.value;
        write!(f, "{} ", self.line.0)?;
        if let Some(number) = self.core_number {
            write!(f, "core {:x}: ", number.0)?;
        }
        write!(f, "{operation} => {}", self.answer)?;
        if let Some(reads) = self.reads {
            write!(f, " rd={:x}", reads.0)?;
        }
        if let Some(core) = &self.core {
            write!(f, "{core}")?;
        }
        writeln!(f)?;
        match &self.words {
            Some(words) => write!(f, "{words}"),
            None => Ok(()),
        }
    }
}
