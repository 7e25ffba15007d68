//! The cores, their window of RAM, and what a trace's lines do to them.
use crate::calls::Carried;
use crate::cores::Cores;
use crate::{calls, edits, flipped, leaves, memory, shared};
use core_calls::inspect;
use cpu::Core;
use cpu::call::{Call, Reply};
use cpu::check::Check;
use digest::counts;
use digest::parts::Sum;
use saved::{place, save};
use std::alloc::{AllocError, Global};
use tlb::access::Kind;
use trace_text::answer::Answer;
use trace_text::lex;
use trace_text::line::{LONGEST_LIST, Operation, Setup};
use word::ram;

/// What an operation answered, and the descriptors that its walks read: 0 of one that does not report them.
#[derive(Clone, Copy)]
pub struct Performed {
    pub answer: Answer,
    pub reads: u64,
}

impl From<Answer> for Performed {
    fn from(answer: Answer) -> Self {
        Performed { answer, reads: 0 }
    }
}

impl From<Carried> for Performed {
    fn from(carried: Carried) -> Self {
        Performed {
            answer: Answer::Reply(carried.reply),
            reads: carried.reads,
        }
    }
}

// Of an operation on a number above 3.
fn no_core() -> Answer {
    Answer::Reply(Reply::Refused(Check::Core.number()))
}

/// The cores, and their window of RAM.
#[derive(Drop)]
pub struct Machine {
    pub cores: Cores,
    // the last level that a line gave each core
    given_levels: [u64; 4],
    /// the window: its base and its bytes
    pub base: u64,
    pub ram: Vec<u8>,
    // its digest, which is dear, where it was taken since the bytes last changed
    digest: Option<u64>,
    // the bytes of a list of windows that no operation has taken yet
    list: Vec<u8>,
}

impl Machine {
    /// A fresh core, and a window without bytes.
    pub fn new(alloc: Global) -> Machine {
        Machine {
            cores: Cores::One(Core::new()),
            given_levels: [0; 4],
            base: 0,
            ram: Vec::new(alloc),
            digest: None,
            list: Vec::new(alloc),
        }
    }

    /// As it was when it was made.
    pub fn restart(&mut self) {
        self.cores = Cores::One(Core::new());
        self.base = 0;
        self.ram.clear();
        self.digest = None;
        self.list.clear();
    }

    /// A core has a byte for its level. A larger one is 255 there, and is refused like each above 3.
    pub fn set_level(&mut self, level: u64) {
        if let Some(place) = self.cores.place() {
            self.given_levels[place] = level;
        }
        if let Some(core) = self.cores.spoken_to_mut() {
            core.privilege.level = u8::try_from(level).unwrap_or(u8::MAX);
        }
    }

    /// The level of the core at a place, as it was given; 0 where there is none.
    pub fn level_at(&self, place: usize) -> u64 {
        match self.cores.at(place) {
            Some(core) if core.privilege.level == 255 => {
                self.given_levels.get(place).copied().unwrap_or(0)
            }
            Some(core) => u64::from(core.privilege.level),
            None => 0,
        }
    }

    /// The level of the core that is spoken to, as it was given; 0 where its number is above 3.
    pub fn level(&self) -> u64 {
        match self.cores.place() {
            Some(place) => self.level_at(place),
            None => 0,
        }
    }

    /// The word of the core that is spoken to at a place; 0 past the last, and where its number is above 3.
    pub fn word(&self, place: usize) -> u64 {
        match (place, self.cores.spoken_to()) {
            (place::LEVEL, _) => self.level(),
            (_, Some(core)) => save::word(core, place),
            (_, None) => 0,
        }
    }

    // How many of a census's counts are not 0, and their digest; or the number of the check that it misses.
    fn census(&self, first: u64, pages: u64) -> Answer {
        let Some(core) = self.cores.spoken_to() else {
            return no_core();
        };
        let mut found = [0u64; 129];
        let ram = self.ram.as_slice();
        match inspect::census(core, first, pages, &mut found, self.base, ram) {
            0 => {
                let Sum { count, digest } = counts::counts(&found);
                Answer::Counts { count, digest }
            }
            number => Answer::Reply(Reply::Refused((number % 256) as u8)),
        }
    }

    // What the list of windows finds, which is empty from then on.
    fn windows(&mut self) -> Answer {
        let (ram, list) = (self.ram.as_slice(), self.list.as_slice());
        let answer = match self.cores.spoken_to() {
            Some(core) => shared::answer(core, self.base, ram, list),
            None => no_core(),
        };
        self.list.clear();
        answer
    }

    fn flip(&mut self, kind: Kind, user: bool, va: u64) -> Answer {
        match self.cores.spoken_to() {
            Some(core) => {
                let ram = self.ram.as_mut_slice();
                flipped::answer(core, self.base, ram, va, kind, user)
            }
            None => no_core(),
        }
    }

    // A call that looks, and its answer.
    fn looked(&mut self, answer: Answer) -> Performed {
        if !answer.refuses() {
            self.cores.deliver();
        }
        Performed::from(answer)
    }

    fn call(&mut self, call: Call) -> Performed {
        match call {
            Call::Census(first, pages) => {
                let answer = self.census(first, pages);
                self.looked(answer)
            }
            Call::Windows => {
                let answer = self.windows();
                self.looked(answer)
            }
            Call::Flip(kind, user, va) => {
                let answer = self.flip(kind, user, va);
                self.looked(answer)
            }
            call => {
                let ram = self.ram.as_mut_slice();
                Performed::from(match &mut self.cores {
                    Cores::One(core) => calls::carry_out(core, self.base, ram, call),
                    Cores::Four(cluster, number) => {
                        calls::carry_out_in(cluster, *number, self.base, ram, call)
                    }
                })
            }
        }
    }

    /// One byte more of the list of windows; false where that has as many as a list may have.
    pub fn add_byte(&mut self, byte: u8) -> Result<bool, AllocError> {
        if LONGEST_LIST <= self.list.len() {
            return Ok(false);
        }
        self.list.push(byte)?;
        Ok(true)
    }

    /// The same for bytes by their digits, two for each.
    pub fn add_digits(&mut self, digits: &[u8]) -> Result<bool, AllocError> {
        for byte in digits.chunks(2) {
            if !self.add_byte(lex::byte_of(byte))? {
                return Ok(false);
            }
        }
        Ok(true)
    }

    /// Carries out an operation, on the core that is spoken to. One on a number above 3 is refused by number 8.
    pub fn perform(&mut self, operation: Operation) -> Performed {
        if operation.moves_ram() {
            self.digest = None;
        }
        match operation {
            Operation::Call(call) => self.call(call),
            Operation::Leaf(leaf) => Performed::from(match self.cores.spoken_to() {
                Some(core) => leaves::answer(core, leaf, self.base, self.ram.as_slice()),
                None => no_core(),
            }),
            Operation::Poke(poke) => Performed::from(if edits::poke(self, poke) {
                Answer::Reply(Reply::Done)
            } else {
                no_core()
            }),
        }
    }

    /// Bytes stay by offset when the window changes: new ones are zero, those past its end are lost. A part of a core
    /// whose number is above 3 is written nowhere.
    pub fn arrange(&mut self, setup: Setup) -> Result<(), AllocError> {
        if setup.moves_ram() {
            self.digest = None;
        }
        match setup {
            Setup::Fresh => self.cores.refresh(),
            Setup::Core(number) => {
                let alloc = *self.ram.allocator();
                self.cores.speak_to(alloc, number)?;
            }
            Setup::Window { base, len } => {
                self.base = base;
                self.ram.resize(len, 0)?;
            }
            Setup::Zero => self.ram.as_mut_slice().fill(0),
            Setup::Write { addr, value } => {
                memory::poke(self.base, self.ram.as_mut_slice(), addr, value);
            }
            Setup::Part(part) => edits::overwrite(self, part),
        }
        Ok(())
    }

    /// The part of the window that a number of bytes from an address on take; none where it does not hold them all.
    pub fn part(&mut self, addr: u64, len: u64) -> Option<&mut [u8]> {
        if !ram::inside(self.base, self.ram.len() as u64, len, addr) {
            return None;
        }
        self.digest = None;
        let start = addr.wrapping_sub(self.base) as usize;
        let (_, from) = self.ram.as_mut_slice().split_at_mut_checked(start)?;
        let (part, _) = from.split_at_mut_checked(len as usize)?;
        Some(part)
    }

    /// The digest of the window.
    pub fn window_digest(&mut self) -> u64 {
        if let Some(digest) = self.digest {
            return digest;
        }
        let digest = digest::memory::window(self.base, self.ram.as_slice());
        self.digest = Some(digest);
        digest
    }
}
