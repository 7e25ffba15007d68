// The physical address with stage 1 off.
ghost use Rattle.std.specs.Prelude.{◌≡◌};
ghost use Rattle.walk.specs.Walk.{flat_by};
ghost use Rattle.walk.specs.Regime.{untagged};

use crate::range::PA_BITS;
use crate::regime::Bank;
use sysreg::regs::Regime;

/// The physical address of an untagged address with stage 1 off. `None` is an address size fault of level 0
/// (DDI 0487, AArch64.TranslateAddressS1Off).
pub fn flat_of(untagged: u64) -> Option<u64>
    ensures { result ≡ flat_by untagged }
{
    (untagged >> PA_BITS == 0).then_some(untagged)
}

impl Bank {
    /// The physical address of `va`, tag and all, with stage 1 off.
    #[inline(always)]
    pub fn flat(&self, regime: Regime, va: u64) -> Option<u64>
        ensures { result ≡ flat_by (untagged self.now.tcr regime va) }
    {
        flat_of(self.untag(regime, va))
    }
}
