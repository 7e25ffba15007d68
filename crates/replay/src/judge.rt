//! The words after an operation, held against what the cores answered and hold.
use crate::replay::Replay;
use crate::stop::{Fault, Stop};
use crate::words::Words;
use core_parts::read;
use cpu::Core;
use digest::fold;
use record_report::difference::Difference;
use std::io::Write;
use trace_core::machine::Machine;
use trace_text::line::Operation;

/// How many words an operation's line has after the operation's own eight.
pub const AFTER: usize = 31;

/// How many more it has where there are four cores: a digest of each.
pub const OF_FOUR: usize = 4;

const ANSWER: [&str; 4] = [
    "the answer's code",
    "the answer's word 1",
    "the answer's word 2",
    "the answer's word 3",
];

// The words about a core.
const CORE: [&str; 25] = [
    "hits of EL0",
    "walks of EL0",
    "hits of EL1",
    "walks of EL1",
    "hits of EL2",
    "walks of EL2",
    "hits of EL3",
    "walks of EL3",
    "flushes",
    "drops",
    "epoch",
    "pending",
    "its value",
    "last_pa",
    "abort_pa",
    "level",
    "unprivileged",
    "generation",
    "ASID",
    "PAR_EL1",
    "live entries",
    "hints",
    "digest of registers",
    "digest of entries",
    "digest of hints",
];

const REST: [&str; 2] = ["digest of RAM", "descriptors read"];

const FOUR: [&str; OF_FOUR] = [
    "digest of core 0",
    "digest of core 1",
    "digest of core 2",
    "digest of core 3",
];

// The words about a core, whose level was given as this. A word that a later form adds is one more here.
fn words_of(core: &Core, level: u64) -> [u64; CORE.len()] {
    let [el0, el1, el2, el3] = core.tlb.levels;
    let mut pending = [0; 2];
    read::pending(core, &mut pending);
    let entries = digest::parts::entries(core);
    let hints = digest::parts::hints(core);
    [
        el0.hits,
        el0.walks,
        el1.hits,
        el1.walks,
        el2.hits,
        el2.walks,
        el3.hits,
        el3.walks,
        core.tlb.flushes,
        core.tlb.drops,
        core.tlb.epoch,
        pending[0],
        pending[1],
        core.last_pa,
        core.abort_pa,
        level,
        u64::from(core.privilege.unprivileged),
        u64::from(core.tlb.generation),
        u64::from(core.tlb.asid),
        core.sys.par_el1,
        entries.count,
        hints.count,
        digest::parts::registers(core),
        entries.digest,
        hints.digest,
    ]
}

// The same of the core that is spoken to; 0 where its number is above 3.
fn words_of_spoken(machine: &Machine) -> [u64; CORE.len()] {
    match machine.cores.spoken_to() {
        Some(core) => words_of(core, machine.level()),
        None => [0; CORE.len()],
    }
}

// A digest of the words about a core.
fn digest_of(core: &Core, level: u64) -> u64 {
    let mut h = fold::START;
    for word in words_of(core, level) {
        h = fold::join(h, word);
    }
    h
}

// That of the core at a place. Beside a core by itself fresh ones will stand.
fn digest_at(machine: &Machine, place: usize) -> u64 {
    match machine.cores.at(place) {
        Some(core) => digest_of(core, machine.level_at(place)),
        None => {
            let fresh = Core::new();
            digest_of(&fresh, u64::from(fresh.privilege.level))
        }
    }
}

// The first word that is not as recorded, by its place in the line and its name.
fn first_wrong(
    line: u64,
    from: u64,
    names: &[&'static str],
    words: &[u64],
    want: &[u64],
) -> Option<Difference> {
    for ((word, name), (is, want)) in (from..)
        .zip(names.iter())
        .zip(words.iter().zip(want.iter()))
    {
        if is != want {
            return Some(Difference {
                line,
                word,
                name: Some(*name),
                is: *is,
                want: *want,
            });
        }
    }
    None
}

impl<W: Write> Replay<'_, W> {
    // The same of all words: the answer, the core that is spoken to, RAM and the descriptors read, the four cores.
    fn difference(&mut self, want: &[u64; AFTER + OF_FOUR]) -> Option<Difference> {
        let line = self.lines;
        let ram = self.machine.window_digest();
        let answer = self.performed.answer.words();
        let core = words_of_spoken(&self.machine);
        let found = first_wrong(line, 8, &ANSWER, &answer, &want[..4])
            .or(first_wrong(line, 12, &CORE, &core, &want[4..29]))
            .or(first_wrong(
                line,
                37,
                &REST,
                &[ram, self.performed.reads],
                &want[29..AFTER],
            ));
        if found.is_some() || !self.several {
            return found;
        }
        let machine = &self.machine;
        let four = [
            digest_at(machine, 0),
            digest_at(machine, 1),
            digest_at(machine, 2),
            digest_at(machine, 3),
        ];
        first_wrong(line, 39, &FOUR, &four, &want[AFTER..])
    }

    /// The recorded words after an operation.
    pub fn judge(&mut self, words: &mut Words<'_>, operation: &Operation) -> Result<(), Stop> {
        let more = if self.several { OF_FOUR } else { 0 };
        if !words.has(AFTER + more) {
            return Err(Stop::Broken(Fault::ShortLine));
        }
        let mut want = [0; AFTER + OF_FOUR];
        words.fill(&mut want[..AFTER + more]);
        let par = match self.machine.cores.spoken_to() {
            Some(core) => core.sys.par_el1,
            None => 0,
        };
        self.tally.note(operation, self.performed.answer, par);
        if let Some(difference) = self.difference(&want) {
            self.counts.wrong = self.counts.wrong.wrapping_add(1);
            write!(self.out, "{difference}")?;
        }
        Ok(())
    }
}
