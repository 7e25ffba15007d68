// The registers of one translation regime, and what of an address a walk sees.
ghost use Rattle.std.specs.Prelude.{◌≡◌};
ghost use Rattle.walk.specs.Regime.{bank_of, stage1_on, untagged};

use sysreg::regs::{Control, HCR_DC, HCR_TGE, Regime, SCR_NS, SCTLR_M};

/// The registers that translation in one regime reads: its own SCTLR, TCR and TTBR0, and those that all share.
#[derive(Clone, Copy)]
pub struct Bank {
    pub sctlr: u64,
    pub tcr: u64,
    pub ttbr0: u64,
    pub ttbr1_el1: u64,
    pub scr_el3: u64,
    pub hcr_el2: u64,
}

impl Bank {
    /// The registers of a regime.
    pub fn new(c: &Control, regime: Regime) -> Self
        ensures { result ≡ bank_of c.now regime }
    {
        let r = regime.index();
        Bank {
            sctlr: c.sctlr[r],
            tcr: c.tcr[r],
            ttbr0: c.ttbr0[r],
            ttbr1_el1: c.ttbr1_el1,
            scr_el3: c.scr_el3,
            hcr_el2: c.hcr_el2,
        }
    }

    /// Is stage 1 on for the regime? `HCR_EL2.{TGE,DC}` turn it off for Non-secure EL1&0 (DDI 0487, D5.2.9).
    pub fn stage1_on(&self, regime: Regime) -> bool
        ensures { result ≡ stage1_on self.now regime }
    {
        let on = self.sctlr & SCTLR_M != 0;
        match regime {
            Regime::El1 => on
                && (self.scr_el3 & SCR_NS == 0 || self.hcr_el2 & (HCR_TGE | HCR_DC) == 0),
            Regime::El2 | Regime::El3 => on,
        }
    }

    /// `va` as the walk sees it, with top byte ignore applied.
    #[tactic(auto, unfolding(crate::specs::Regime::untagged))]
    pub fn untag(&self, regime: Regime, va: u64) -> u64
        ensures { result ≡ untagged self.now.tcr regime va }
    {
        if regime == Regime::El1 {
            let tbi = if va >> 55 & 1 == 0 { 37 } else { 38 };
            if self.tcr >> tbi & 1 != 0 {
                return ((va << 8).cast_signed() >> 8).cast_unsigned();
            }
        } else if self.tcr >> 20 & 1 != 0 {
            return va & 0x00FF_FFFF_FFFF_FFFF;
        }
        va
    }
}
