//! What the cache keeps, and since when: beside each entry and each hint the line that walked, and the line after which
//! the tables no longer give what that walk found.
use audit::answers::{Answered, Ask};
use cpu::Core;
use std::alloc::{AllocError, Global};
use sysreg::regs::Regime;
use tlb::hint;
use trace_text::line::{Line, Part};
use walk::level::{Leaf, Walked};
use walk::regime::Bank;
use walk_report::answer::Source;

const ENTRIES: usize = 1024;

const HINTS: usize = 512;

/// A line of a trace, by its number from 1.
#[derive(Clone, Copy)]
pub struct Cause {
    pub number: u64,
    /// of several cores, the number of the one that it is for; none of a line that is for all
    pub core: Option<u64>,
    pub line: Line,
}

/// A walk that an entry or a hint keeps.
#[derive(Clone, Copy)]
pub struct Kept {
    /// the line that walked
    pub by: Cause,
    pub regime: Regime,
    /// the untagged address without its low twelve bits
    pub page: u64,
    pub leaf: Leaf,
    /// the ASID in force then
    pub asid: u16,
    /// the line since which a walk ends otherwise
    pub changed: Option<Cause>,
}

// Whether a walk ends in a leaf of the same physical page, rights and level.
fn is_same(leaf: &Leaf, walked: Walked) -> bool {
    match walked {
        Ok(now) => {
            now.oa >> 12 == leaf.oa >> 12 && now.perms == leaf.perms && now.level == leaf.level
        }
        Err(_) => false,
    }
}

impl Kept {
    // After a line that may have changed tables or registers.
    fn follow(&mut self, core: &Core, base: u64, ram: &[u8], line: Cause) {
        let bank = Bank::new(&core.control, self.regime);
        let same = bank.stage1_on(self.regime)
            && is_same(
                &self.leaf,
                bank.walk(self.regime, self.page << 12, base, ram).end,
            );
        self.changed = match self.changed {
            _ if same => None,
            None => Some(line),
            earlier => earlier,
        };
    }
}

/// Beside each entry and each hint of the cache the walk that it keeps.
#[derive(Drop)]
pub struct Keeping {
    entries: Vec<Option<Kept>>,
    hints: Vec<Option<Kept>>,
    fetch: Option<Kept>,
    // as the cache's own
    epoch: u64,
}

fn put(list: &mut Vec<Option<Kept>>, place: usize, kept: Option<Kept>) {
    if let Some(cell) = list.get_mut(place) {
        *cell = kept;
    }
}

fn at(list: &Vec<Option<Kept>>, place: usize) -> Option<Kept> {
    list.get(place).copied().flatten()
}

impl Keeping {
    /// Beside an empty cache.
    pub fn new(alloc: Global) -> Result<Keeping, AllocError> {
        Ok(Keeping {
            entries: vec![in alloc; None; ENTRIES]?,
            hints: vec![in alloc; None; HINTS]?,
            fetch: None,
            epoch: 0,
        })
    }

    /// As it was when it was made.
    pub fn clear(&mut self) {
        self.entries.as_mut_slice().fill(None);
        self.hints.as_mut_slice().fill(None);
        self.fetch = None;
        self.epoch = 0;
    }

    /// After a line that wrote a part of the core: no access filled the hint or the entry that it wrote.
    pub fn forget(&mut self, part: Part, epoch: u64) {
        match part {
            Part::Word { .. } => {}
            Part::Hint { slot, .. } => put(&mut self.hints, usize::from(slot) % HINTS, None),
            Part::Entry { slot, .. } => put(&mut self.entries, usize::from(slot) % ENTRIES, None),
            Part::FetchHint { .. } => self.fetch = None,
        }
        self.epoch = epoch;
    }

    // The walk that an answer of the cache comes from; one that a walk gives is kept beside its entry from now on.
    fn origin(
        &mut self,
        core: &Core,
        base: u64,
        ram: &[u8],
        line: Cause,
        answered: &Answered,
    ) -> Option<Kept> {
        let regime = Regime::of_level(core.privilege.level);
        let bank = core.bank();
        let va = answered.ask.address();
        let untagged = bank.untag(regime, va);
        let page = untagged >> 12;
        let slot = (page % 1024) as usize;
        match (answered.source, answered.ask) {
            (Source::Flat, _) => None,
            (Source::Hint, Ask::Fetches(_)) => self.fetch,
            (Source::Hint, Ask::Translates(kind, _)) => at(&self.hints, hint::data_slot(va, kind)),
            (Source::Entry, _) => at(&self.entries, slot),
            (Source::Walk, _) => {
                let leaf = bank.walk(regime, untagged, base, ram).end.ok()?;
                let kept = Some(Kept {
                    by: line,
                    regime,
                    page,
                    leaf,
                    asid: core.control.asid(),
                    changed: None,
                });
                put(&mut self.entries, slot, kept);
                kept
            }
        }
    }

    /// A translation that a line makes is answered: the walk that the answer comes from, if there is one. What the
    /// answer leaves in the cache is kept from now on.
    pub fn answer(
        &mut self,
        core: &Core,
        base: u64,
        ram: &[u8],
        line: Cause,
        answered: &Answered,
    ) -> Option<Kept> {
        let kept = self.origin(core, base, ram, line, answered);
        if answered.core.is_ok() {
            match answered.ask {
                Ask::Fetches(_) => self.fetch = kept,
                Ask::Translates(kind, va) if core.privilege.may_hint(kind) => {
                    put(&mut self.hints, hint::data_slot(va, kind), kept);
                }
                Ask::Translates(_, _) => {}
            }
        }
        kept
    }

    /// After a line: what the cache dropped is kept no more.
    pub fn drop_dead(&mut self, core: &Core) {
        let tlb = &core.tlb;
        if tlb.epoch == self.epoch {
            return;
        }
        self.epoch = tlb.epoch;
        self.hints.as_mut_slice().fill(None);
        self.fetch = None;
        for (kept, entry) in self.entries.iter_mut().zip(tlb.entries.iter()) {
            if entry.tag == 0 || entry.generation != tlb.generation {
                *kept = None;
            }
        }
    }

    /// After a line that may have changed tables or registers.
    pub fn follow(&mut self, core: &Core, base: u64, ram: &[u8], line: Cause) {
        for kept in self.entries.iter_mut().flatten() {
            kept.follow(core, base, ram, line);
        }
        for kept in self.hints.iter_mut().flatten() {
            kept.follow(core, base, ram, line);
        }
        if let Some(kept) = &mut self.fetch {
            kept.follow(core, base, ram, line);
        }
    }
}
