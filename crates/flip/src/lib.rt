#![tactic(auto)]
// One flipped bit: which single bit of RAM, the other way, changes how an access ends with nothing cached. A bit is
// flipped in RAM and taken back, so that every read of its word sees it.
ghost use Rattle.std.specs.Prelude.{if◌then◌else◌, ◌≡◌, ◌+◌, ◌-◌, ◌*◌, ◌<◌, ◌≤◌, length, Some, None};
ghost use Rattle.word.specs.Ram.{within};
ghost use Rattle.flip.specs.Question.{question_of, answer_on, same_answer};
ghost use Rattle.flip.specs.Flip.{flipped, with_bit, first_in, first_flip, flip_of};

pub mod theorems;

use cpu::Core;
use cpu::check::{self, Check};
use fault::Fault;
use sysreg::regs::Regime;
use tlb::access::Kind;
use tlb::fresh::fresh_answer;
use walk::regime::Bank;
use word::ram;

/// A bit of a descriptor in RAM.
#[derive(Clone, Copy, PartialEq, Eq)]
pub struct FlippedBit {
    /// The descriptor's physical address.
    pub pa: u64,
    /// The bit of its little-endian word, 0 to 63.
    pub bit: u8,
}

/// A translation that is asked for with nothing cached.
#[derive(Clone, Copy)]
pub struct Question {
    pub bank: Bank,
    pub regime: Regime,
    /// Judged by EL0's rights.
    pub user: bool,
    pub kind: Kind,
    pub va: u64,
}

// Whether two answers are one: address and address, or status and status.
fn same(a: Result<u64, Fault>, b: Result<u64, Fault>) -> bool
    ensures { result ≡ same_answer a b }
{
    a == b
}

// Where the eight bytes at a physical address stand in RAM, if all of them do.
fn place(base: u64, ram: &[u8], pa: u64) -> Option<usize>
    ensures { result ≡ (if within base (length ram.now) 8 pa then Some (pa - base) else None) }
{
    if ram::inside(base, ram.len() as u64, 8, pa) {
        Some((pa - base) as usize)
    } else {
        None
    }
}

impl Question {
    /// In the regime of the core's level, under its registers. The view, EL0's or the regime's own, counts in the EL1&0
    /// regime alone; neither the level's own nor the mark does.
    pub fn new(core: &Core, va: u64, kind: Kind, user: bool) -> Self
        ensures { result ≡ question_of core.now.control core.now.privilege.level va kind user }
    {
        let regime = core.regime();
        Question {
            bank: core.bank(),
            regime,
            user: user && regime == Regime::El1,
            kind,
            va,
        }
    }

    /// The answer over the RAM that starts at `base`.
    #[inline(never)]
    pub fn answer(&self, base: u64, ram: &[u8]) -> Result<u64, Fault>
        ensures { result ≡ answer_on self.now base ram.now }
    {
        fresh_answer(
            self.bank,
            self.regime,
            self.user,
            self.kind,
            self.va,
            base,
            ram,
        )
    }

    // The answer with one bit of the eight bytes from `at` the other way.
    #[tactic(auto, using(crate::proofs::Flipping::flipping))]
    fn answer_flipped(&self, base: u64, ram: &mut [u8], at: usize, bit: u8) -> Result<u64, Fault>
        requires in_ram { at + 8 ≤ length ram.old }
        requires bit { bit < 64 }
        ensures answer { result ≡ answer_on self.now base (flipped ram.old (8 * at + bit)) }
        ensures ram { ram.new ≡ ram.old }
    {
        let i = at + (bit / 8) as usize;
        let kept = ram[i];
        ram[i] = kept ^ (1 << (bit % 8));
        let answer = self.answer(base, ram);
        ram[i] = kept;
        answer
    }

    /// The answer with a bit of RAM the other way; RAM stays as it was. A bit of a word that is not inside RAM, or
    /// above 63, flips nothing.
    pub fn answer_with(&self, base: u64, ram: &mut [u8], flip: FlippedBit) -> Result<u64, Fault>
        ensures answer { result ≡ answer_on self.now base (with_bit base ram.old flip) }
        ensures ram { ram.new ≡ ram.old }
    {
        match place(base, ram, flip.pa) {
            Some(at) if flip.bit < 64 => self.answer_flipped(base, ram, at, flip.bit),
            _ => self.answer(base, ram),
        }
    }

    // The lowest bit of the descriptor at `pa` whose flip changes the answer; none where it is not wholly in RAM.
    #[tactic(auto, using(crate::proofs::Finding::bits_tried))]
    fn first_bit(
        &self,
        base: u64,
        ram: &mut [u8],
        answer: Result<u64, Fault>,
        pa: u64,
    ) -> Option<FlippedBit>
        requires answer { answer ≡ answer_on self.now base ram.old }
        ensures found { result ≡ first_in self.now base ram.old pa }
        ensures ram { ram.new ≡ ram.old }
    {
        let at = place(base, ram, pa)?;
        for bit in 0..64 {
            if !same(self.answer_flipped(base, ram, at, bit), answer) {
                return Some(FlippedBit { pa, bit });
            }
        }
        None
    }

    /// The first descriptor of the walk, and its lowest bit, whose flip changes the answer; RAM stays as it was.
    #[tactic(auto, using(crate::proofs::Finding::descriptors_tried))]
    pub fn first_flip(&self, base: u64, ram: &mut [u8]) -> Option<FlippedBit>
        ensures found { result ≡ first_flip self.now base ram.old }
        ensures ram { ram.new ≡ ram.old }
    {
        if !self.bank.stage1_on(self.regime) {
            return None;
        }
        let answer = self.answer(base, ram);
        let va = self.bank.untag(self.regime, self.va);
        for n in 0..4 {
            let visit = self.bank.visit(self.regime, va, base, ram, n)?;
            let found = self.first_bit(base, ram, answer, visit.at);
            if found.is_some() {
                return found;
            }
        }
        None
    }
}

/// The first descriptor that the walk of an address fetches, and its lowest bit, whose flip in RAM changes how an
/// access by EL0's rights, or by the regime's own, ends with nothing cached; none where no bit of RAM does. RAM is
/// changed while the call runs, and is as it was when it returns. The answer depends on nothing but the registers
/// that translate, the level, RAM and what is asked: on no cache, on no mark, on no earlier call.
#[tactic(auto, unfolding(crate::specs::Flip::flip_of))]
pub fn flip(
    core: &Core,
    base: u64,
    ram: &mut [u8],
    va: u64,
    kind: Kind,
    user: bool,
) -> Result<Option<FlippedBit>, Check>
    ensures found { result ≡ flip_of core.now.control core.now.privilege.level base ram.old va kind user }
    ensures ram { ram.new ≡ ram.old }
{
    check::with_ram(core.privilege.level, base, ram.len() as u64)?;
    Ok(Question::new(core, va, kind, user).first_flip(base, ram))
}
