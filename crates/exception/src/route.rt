// Where a synchronous exception is taken to, as what, and the address that it returns to.
ghost use Rattle.std.specs.Prelude.{◌≡◌};
ghost use Rattle.exception.specs.Route.{is_secure, default_target, hvc_undefined, smc_undefined, smc_trapped};
ghost use Rattle.exception.specs.Route.{routed_to};

use crate::kind::Exception;
use sysreg::regs::{HCR_TGE, HCR_TSC, Regime, SCR_HCE, SCR_NS, SCR_SMD};

/// Where an exception was raised: what routing reads.
#[derive(Clone, Copy)]
pub struct Origin {
    pub level: u8,
    pub scr_el3: u64,
    pub hcr_el2: u64,
    pub pc: u64,
}

/// The exception that is taken, its target level, and the preferred return address.
#[derive(Clone, Copy)]
pub struct Routed {
    pub exception: Exception,
    pub target: Regime,
    pub ret: u64,
}

#[tactic(auto, using(word::proofs::RamLaws::mask_bit))]
impl Origin {
    fn is_secure(self) -> bool
        ensures { result ≡ is_secure self }
    {
        self.level == 3 || self.scr_el3 & SCR_NS == 0
    }

    // The level itself, EL1 for EL0; HCR_EL2.TGE takes the exceptions of Non-secure EL0 to EL2.
    fn default_target(self) -> Regime
        ensures { result ≡ default_target self }
    {
        let tge = self.hcr_el2 & HCR_TGE != 0;
        match self.level {
            0 if tge && !self.is_secure() => Regime::El2,
            2 => Regime::El2,
            3 => Regime::El3,
            _ => Regime::El1,
        }
    }

    // HVC is UNDEFINED without SCR_EL3.HCE, and at Secure EL1.
    fn hvc_undefined(self) -> bool
        ensures { result ≡ hvc_undefined self }
    {
        self.scr_el3 & SCR_HCE == 0 || (self.level == 1 && self.is_secure())
    }

    fn smc_undefined(self) -> bool
        ensures { result ≡ smc_undefined self }
    {
        self.scr_el3 & SCR_SMD != 0
    }

    // HCR_EL2.TSC traps SMC of Non-secure EL1.
    fn smc_trapped(self) -> bool
        ensures { result ≡ smc_trapped self }
    {
        self.level == 1 && !self.is_secure() && self.hcr_el2 & HCR_TSC != 0
    }

    /// Routes a synchronous exception (DDI 0487, D1.10.3). HVC and SMC are UNDEFINED where `SCR_EL3` disables them; a
    /// call returns past itself, the others to their instruction.
    #[inline(always)]
    #[tactic(auto, unfolding(crate::specs::Route::routed_to))]
    pub fn route(self, e: Exception) -> Routed
        ensures { result ≡ routed_to self e }
    {
        let pc = self.pc;
        let next = pc.wrapping_add(4);
        let default = self.default_target();
        let undefined = (Exception::Undefined, default, pc);
        let (exception, target, ret) = match e {
            Exception::Svc(_) => (e, default, next),
            Exception::Hvc(_) if self.hvc_undefined() => undefined,
            Exception::Hvc(_) if self.level == 3 => (e, Regime::El3, next),
            Exception::Hvc(_) => (e, Regime::El2, next),
            Exception::Smc(_) if self.smc_undefined() => undefined,
            Exception::Smc(_) if self.smc_trapped() => (e, Regime::El2, pc),
            Exception::Smc(_) => (e, Regime::El3, next),
            _ => (e, default, pc),
        };
        Routed {
            exception,
            target,
            ret,
        }
    }
}
