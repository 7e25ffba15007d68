//! How often each operation gave each answer, and how often cases were of each class of difference.
use crate::tables::{KINDS, Kind, LEAVES, NUMBERS, STATUSES};
use cpu::call::Reply;
use exception::kind::{Exception, Stop};
use fault::Fault;
use trace_text::answer::Answer;
use trace_text::line::Operation;

/// Places of a kind's row.
pub const ANSWERS: usize = LEAVES + 4;

/// Classes of difference.
pub const CLASSES: usize = 32;

#[derive(Drop)]
pub struct Tally {
    answers: [[u64; ANSWERS]; KINDS.len()],
    cases: [u64; CLASSES],
}

fn status_place(fault: Fault) -> usize {
    STATUSES + usize::from(fault.fsc % 64)
}

// An AT that was carried out answers as PAR does.
fn done_place(kind: Kind, par: u64) -> usize {
    match kind {
        Kind::At if par & 1 == 1 => STATUSES + (par >> 1 & 63) as usize,
        Kind::At => 6,
        _ => 0,
    }
}

// The place of an answer in its row: ok 0, val 1, none 2, pair 3, undefined 4, unimplemented 5, PAR ok 6, counts 7,
// bit 8; then the numbers of checks, statuses, and leaves by level.
fn place_of(kind: Kind, answer: Answer, par: u64) -> usize {
    match answer {
        Answer::Reply(Reply::Done) => done_place(kind, par),
        Answer::Reply(Reply::Value(_)) => 1,
        Answer::Reply(Reply::Faults) | Answer::Shared(None) | Answer::Flipped(None) => 2,
        Answer::Reply(Reply::Refused(number)) => NUMBERS + usize::from(number % 16),
        Answer::Reply(Reply::Fault { fault, .. }) => status_place(fault),
        Answer::Reply(Reply::Stopped(Stop::Exception(e))) => match e {
            Exception::DataAbort(a) => status_place(a.fault),
            Exception::InsnAbort(a) => status_place(a.fault),
            _ => 4,
        },
        Answer::Reply(Reply::Stopped(Stop::Unimplemented)) => 5,
        Answer::Pair(..) | Answer::Shared(Some(_)) => 3,
        Answer::Counts { .. } => 7,
        Answer::Flipped(Some(_)) => 8,
        Answer::Page(page) => status_place(page.fault),
        Answer::Leaf(leaf) => LEAVES + usize::from(leaf.level % 4),
    }
}

fn count(n: &mut u64) {
    *n = n.wrapping_add(1);
}

impl Tally {
    pub fn new() -> Tally {
        Tally {
            answers: [[0; ANSWERS]; KINDS.len()],
            cases: [0; CLASSES],
        }
    }

    /// An operation's answer, and PAR after it.
    pub fn note(&mut self, operation: &Operation, answer: Answer, par: u64) {
        let kind = Kind::of(operation);
        if let Some(n) = self.answers[kind as usize].get_mut(place_of(kind, answer, par)) {
            count(n);
        }
    }

    /// A case of a class of difference, 0 where there is none.
    pub fn note_case(&mut self, class: u64) {
        count(&mut self.cases[(class % 32) as usize]);
    }

    /// How often a kind gave each answer.
    pub fn row(&self, kind: Kind) -> &[u64; ANSWERS] {
        &self.answers[kind as usize]
    }

    /// How many cases were of each class.
    pub fn cases(&self) -> &[u64; CLASSES] {
        &self.cases
    }
}
