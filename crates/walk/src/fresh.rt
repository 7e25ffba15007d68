// How an address ends with nothing cached: what AT, the page census and every other look at the tables start from.
ghost use Rattle.std.specs.Prelude.{◌≡◌};
ghost use Rattle.word.specs.Ram.{word_at};
ghost use Rattle.walk.specs.Walk.{fresh_reads, fresh_of};

use crate::fsc::FSC_ADDR_SIZE;
use crate::level::Walked;
use crate::regime::Bank;
use sysreg::regs::Regime;

/// A physical address, or as its walk ends. With stage 1 off an address that is too large ends in a fault of level 0.
#[derive(Clone, Copy)]
pub enum Fresh {
    Flat(u64),
    Ended(Walked),
}

impl Bank {
    /// The fresh answer of `va`, tag and all, in the regime, over the RAM that starts at `base`; and how many
    /// descriptors its walk read.
    #[inline(always)]
    #[tactic(auto, unfolding(crate::specs::Walk::fresh_of, crate::specs::Walk::fresh_reads))]
    pub fn fresh_with_reads(self, regime: Regime, va: u64, base: u64, ram: &[u8]) -> (Fresh, u8)
        ensures fresh { result.0 ≡ fresh_of self regime va (word_at base ram.now 8) }
        ensures reads { result.1 ≡ fresh_reads self regime va (word_at base ram.now 8) }
    {
        if self.stage1_on(regime) {
            let walked = self.walk(regime, self.untag(regime, va), base, ram);
            (Fresh::Ended(walked.end), walked.reads)
        } else {
            match self.flat(regime, va) {
                Some(pa) => (Fresh::Flat(pa), 0),
                None => (Fresh::Ended(Err(FSC_ADDR_SIZE)), 0),
            }
        }
    }

    /// The fresh answer alone.
    #[inline(always)]
    pub fn fresh(self, regime: Regime, va: u64, base: u64, ram: &[u8]) -> Fresh
        ensures { result ≡ fresh_of self regime va (word_at base ram.now 8) }
    {
        self.fresh_with_reads(regime, va, base, ram).0
    }
}
