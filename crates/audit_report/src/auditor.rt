//! A trace under audit: each call is asked, before it is carried out, for what it is about to answer.
ghost use Rattle.std.specs.Prelude.{◌≡◌, ◌+◌, ◌%◌, ◌^◌, length};
ghost use Rattle.history.specs.Window.{window_of};
ghost use Rattle.transparency.specs.Claim.{answers_of};
ghost use Rattle.audit.specs.Counting.{stale_in};

use crate::finding::{Finding, Since};
use crate::kept::{Cause, Keeping, Kept};
use audit::answers::{Answered, Answers};
use audit::judged::Counts;
use audit::{dropped, judged};
use cpu::call::{Call, Reply};
use cpu::{Core, check};
use std::alloc::{AllocError, Global};
use std::array;
use system::decode;
use system::decode::SysOp;
use tlb::Inval;
use trace_core::machine::Machine;
use trace_text::answer::Answer;
use trace_text::line::{Line, Operation, Setup};

// An invalidation that a line made, and at which places a core hears of it.
#[derive(Clone, Copy)]
struct Invalidation {
    line: Cause,
    what: Inval,
    heard: [bool; 4],
}

/// What was seen of a trace so far.
#[derive(Drop)]
pub struct Auditor {
    // of each core by its place
    keepings: Vec<Keeping>,
    drops: Vec<Invalidation>,
    /// the translations made, and those of them whose answer was stale
    pub counts: Counts,
    /// what was found and not taken away yet
    pub found: Vec<Finding>,
}

// The address of the first store of a DC ZVA that is not refused.
fn zeroing(machine: &Machine, call: Call) -> Option<u64> {
    let core = machine.cores.spoken_to()?;
    let Call::System(e) = call else {
        return None;
    };
    check::missed(
        core.privilege.level,
        machine.base,
        machine.ram.len() as u64,
        call,
    )
    .ok()?;
    match decode::decode(core.privilege.level, e) {
        SysOp::Zva => Some(core.reg(e.rt) & !63),
        _ => None,
    }
}

// Whether a line is a system operation.
fn is_system(line: &Line) -> bool {
    matches!(line, Line::Operation(Operation::Call(Call::System(_))))
}

// What a core has pending, and what a call of it adds.
fn merged(pending: Option<Inval>, what: Option<Inval>) -> Option<Inval> {
    match (pending, what) {
        (Some(earlier), Some(what)) if earlier != what => Some(Inval::All),
        (None, what) => what,
        (pending, _) => pending,
    }
}

// The core at a place by itself, or all but that.
fn heard(place: usize, itself: bool) -> [bool; 4] {
    array::from_fn(|core| (core == place) == itself)
}

impl Invalidation {
    // Whether it came after a line, if that is there.
    fn follows(&self, earlier: Option<Cause>) -> bool {
        match earlier {
            Some(earlier) => earlier.number < self.line.number,
            None => true,
        }
    }

    fn is_heard(&self, place: usize) -> bool {
        self.heard.get(place).copied().unwrap_or(false)
    }
}

impl Auditor {
    pub fn new(alloc: Global) -> Result<Auditor, AllocError> {
        let mut keepings = Vec::new(alloc);
        keepings.push(Keeping::new(alloc)?)?;
        Ok(Auditor {
            keepings,
            drops: Vec::new(alloc),
            counts: Counts::NONE,
            found: Vec::new(alloc),
        })
    }

    // What was invalidated since a walk that the cache at a place keeps.
    fn since(&self, place: usize, kept: &Kept) -> Since {
        let mut since = Since::default();
        for drop in self.drops.iter() {
            if drop.follows(Some(kept.by)) {
                let covers = dropped::covers(drop.what, kept.page, &kept.leaf, kept.asid);
                if drop.is_heard(place) {
                    since.heard = since.heard.wrapping_add(1);
                    if covers {
                        since.covering = Some(drop.line);
                    }
                } else if covers && drop.follows(kept.changed) && is_system(&drop.line.line) {
                    since.unheard = Some(drop.line);
                }
            }
        }
        since
    }

    // One translation of a line: what is to be said of it where its answer is stale.
    fn follow(
        &mut self,
        place: usize,
        core: &Core,
        base: u64,
        ram: &[u8],
        line: Cause,
        answered: Answered,
    ) -> Result<(), AllocError>
        ensures { self.new.counts ≡ self.old.counts }
    {
        let kept = match self.keepings.get_mut(place) {
            Some(keeping) => keeping.answer(core, base, ram, line, &answered),
            None => None,
        };
        if answered.is_stale() {
            let since = match &kept {
                Some(kept) => self.since(place, kept),
                None => Since::default(),
            };
            self.found.push(Finding::new(line, answered, kept, since))?;
        }
        Ok(())
    }

    // The translations of a call that the core at a place is about to make.
    fn note(
        &mut self,
        place: usize,
        core: &Core,
        base: u64,
        ram: &[u8],
        line: Cause,
        call: Call,
    ) -> Result<(), AllocError>
        ensures accesses { self.new.counts.accesses ≡ (self.old.counts.accesses
            + length (answers_of core.now (record { ram = window_of base ram.now; call = call }))) % 2 ^ 64 }
        ensures stale { self.new.counts.stale ≡ (self.old.counts.stale
            + stale_in core.now (record { ram = window_of base ram.now; call = call })) % 2 ^ 64 }
    {
        match judged::judge(core, base, ram, call, &mut self.counts) {
            Answers::Nothing => Ok(()),
            Answers::One(answered) => self.follow(place, core, base, ram, line, answered),
            Answers::Two(answered, next) => {
                self.follow(place, core, base, ram, line, answered)?;
                self.follow(place, core, base, ram, line, next)
            }
        }
    }

    // An invalidation, if there is one.
    fn note_drop(
        &mut self,
        line: Cause,
        what: Option<Inval>,
        heard: [bool; 4],
    ) -> Result<(), AllocError> {
        if let Some(what) = what {
            self.drops.push(Invalidation { line, what, heard })?;
        }
        Ok(())
    }

    // What a call of the core at a place invalidated: in its own cache, and in those of the others.
    fn dropped(
        &mut self,
        place: usize,
        line: Cause,
        own: Option<Inval>,
        others: Option<Inval>,
    ) -> Result<(), AllocError> {
        if own == others {
            return self.note_drop(line, own, [true; 4]);
        }
        self.note_drop(line, own, heard(place, true))?;
        self.note_drop(line, others, heard(place, false))
    }

    // A call: its translations, then the call, and what it invalidated. One of several cores hands on what it has
    // pending then, unless it is refused.
    fn call(
        &mut self,
        machine: &mut Machine,
        line: Cause,
        call: Call,
    ) -> Result<Answer, AllocError> {
        let several = machine.cores.number().is_some();
        let (base, ram) = (machine.base, machine.ram.as_slice());
        let (Some(place), Some(core)) = (machine.cores.place(), machine.cores.spoken_to()) else {
            return Ok(machine.perform(Operation::Call(call)).answer);
        };
        self.note(place, core, base, ram, line, call)?;
        let own = dropped::dropped(core, base, ram, call);
        let pending = core.tlb.broadcast;
        let shared = dropped::shared(core, base, ram, call);
        let answer = machine.perform(Operation::Call(call)).answer;
        let others = if several && !answer.refuses() {
            merged(pending, shared)
        } else {
            None
        };
        self.dropped(place, line, own, others)?;
        Ok(answer)
    }

    // DC ZVA: eight stores, up to the first that is not done.
    fn zero(&mut self, machine: &mut Machine, line: Cause, va: u64) -> Result<(), AllocError> {
        for n in 0..8u64 {
            let store = Call::Store(va.wrapping_add(n * 8), 8, 0);
            match self.call(machine, line, store)? {
                Answer::Reply(Reply::Done) => {}
                _ => return Ok(()),
            }
        }
        Ok(())
    }

    // After a line around the operations.
    fn arranged(&mut self, machine: &Machine, setup: Setup) -> Result<(), AllocError> {
        let alloc = *self.drops.allocator();
        match setup {
            Setup::Fresh => {
                for keeping in self.keepings.iter_mut() {
                    keeping.clear();
                }
                self.drops.clear();
            }
            Setup::Core(_) => {
                for _ in self.keepings.len()..4 {
                    self.keepings.push(Keeping::new(alloc)?)?;
                }
            }
            Setup::Part(part) => {
                if let Some(place) = machine.cores.place() {
                    let epoch = machine.cores.at(place).map_or(0, |core| core.tlb.epoch);
                    if let Some(keeping) = self.keepings.get_mut(place) {
                        keeping.forget(part, epoch);
                    }
                }
            }
            _ => {}
        }
        Ok(())
    }

    /// Carries out a line, and finds each stale answer in it.
    pub fn line(&mut self, machine: &mut Machine, line: Cause) -> Result<(), AllocError> {
        match line.line {
            Line::Setup(setup) => {
                machine.arrange(setup)?;
                self.arranged(machine, setup)?;
            }
            Line::Operation(Operation::Call(call)) => match zeroing(machine, call) {
                Some(va) => self.zero(machine, line, va)?,
                None => {
                    self.call(machine, line, call)?;
                }
            },
            Line::Operation(operation) => {
                machine.perform(operation);
            }
            Line::Load(_) | Line::Bytes(_) => {}
        }
        let moves = line.line.moves_tables();
        let (base, ram) = (machine.base, machine.ram.as_slice());
        for (place, keeping) in self.keepings.iter_mut().enumerate() {
            if let Some(core) = machine.cores.at(place) {
                keeping.drop_dead(core);
                if moves {
                    keeping.follow(core, base, ram, line);
                }
            }
        }
        Ok(())
    }
}
