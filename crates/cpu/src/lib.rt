#![tactic(auto)]
// The core, as one machine: its memory, its system operations, its registers, and each call, checked in the order of
// docs/SCOPE.md and then done.
ghost use Rattle.std.specs.Prelude.{◌≡◌};
ghost use Rattle.sysreg.specs.Regs.{regime_of};

use exception::flags::Flags;
use sysreg::regs::{Control, Regime, SysRegs};
use tlb::Tlb;
use tlb::access::Privilege;
use walk::regime::Bank;

pub mod bytes;
pub mod call;
pub mod check;
pub mod inspect;
mod memory;
pub mod place;
mod registers;
pub mod reply;
mod step;
mod sys;
pub mod theorems;

#[derive(Clone, Copy)]
pub struct Core {
    pub privilege: Privilege,
    pub flags: Flags,
    pub pc: u64,
    pub x: [u64; 31],
    /// all registers that translation reads, and the others
    pub control: Control,
    pub sys: SysRegs,
    pub tlb: Tlb,
    /// the physical address of the last load, and that of the last external abort
    pub last_pa: u64,
    pub abort_pa: u64,
}

#[tactic(auto, unfolding(crate::specs::Core::fresh_core, crate::specs::Bare::zeros, crate::specs::Core::reg_of, crate::specs::Core::set_reg))]
impl Core {
    ghost use Rattle.cpu.specs.Core.{fresh_core, reg_of, set_reg, bank_now};

    /// After reset.
    pub fn new() -> Self
        ensures { result ≡ fresh_core }
    {
        Core {
            privilege: Privilege {
                level: 3,
                unprivileged: false,
            },
            flags: Flags::new(),
            pc: 0,
            x: [0; 31],
            control: Control::new(),
            sys: SysRegs::new(),
            tlb: Tlb::new(),
            last_pa: 0,
            abort_pa: 0,
        }
    }

    /// A general register. Register 31 reads as zero.
    pub fn reg(&self, n: u64) -> u64
        ensures { result ≡ reg_of self.now n }
    {
        if n < 31 { self.x[n as usize] } else { 0 }
    }

    /// Register 31 drops what is written.
    pub fn set_reg(&mut self, n: u64, value: u64)
        ensures { self.new ≡ set_reg self.old n value }
    {
        if n < 31 {
            self.x[n as usize] = value;
        }
    }

    /// The regime of its level, EL1 at EL0.
    pub fn regime(&self) -> Regime
        ensures { result ≡ regime_of self.now.privilege.level }
    {
        Regime::of_level(self.privilege.level)
    }

    /// The registers of its regime.
    pub fn bank(&self) -> Bank
        ensures { result ≡ bank_now self.now }
    {
        Bank::new(&self.control, self.regime())
    }
}
