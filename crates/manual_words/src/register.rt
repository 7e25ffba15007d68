//! System registers by the manual's names.
ghost use Rattle.std.specs.Prelude.{◌≡◌};
ghost use Rattle.sysreg.specs.Encoding.{key_of};

use crate::nearest::Nearest;
use sysreg::regs::{Regime, Register};

/// The registers kept.
pub const REGISTERS: [Register; 33] = [
    Register::Sctlr(Regime::El1),
    Register::Sctlr(Regime::El2),
    Register::Sctlr(Regime::El3),
    Register::Tcr(Regime::El1),
    Register::Tcr(Regime::El2),
    Register::Tcr(Regime::El3),
    Register::Ttbr0(Regime::El1),
    Register::Ttbr0(Regime::El2),
    Register::Ttbr0(Regime::El3),
    Register::Mair(Regime::El1),
    Register::Mair(Regime::El2),
    Register::Mair(Regime::El3),
    Register::Vbar(Regime::El1),
    Register::Vbar(Regime::El2),
    Register::Vbar(Regime::El3),
    Register::Elr(Regime::El1),
    Register::Elr(Regime::El2),
    Register::Elr(Regime::El3),
    Register::Spsr(Regime::El1),
    Register::Spsr(Regime::El2),
    Register::Spsr(Regime::El3),
    Register::Esr(Regime::El1),
    Register::Esr(Regime::El2),
    Register::Esr(Regime::El3),
    Register::Far(Regime::El1),
    Register::Far(Regime::El2),
    Register::Far(Regime::El3),
    Register::Ttbr1,
    Register::Hcr,
    Register::Scr,
    Register::Vpidr,
    Register::Vmpidr,
    Register::Par,
];

/// Its encoding, `op0:op1:CRn:CRm:op2` as in bits 20 to 5 of `MRS` and `MSR`.
pub fn key(register: Register) -> u32
    ensures { result ≡ key_of register }
{
    match register {
        Register::Sctlr(Regime::El1) => 0xC080,
        Register::Sctlr(Regime::El2) => 0xE080,
        Register::Sctlr(Regime::El3) => 0xF080,
        Register::Tcr(Regime::El1) => 0xC102,
        Register::Tcr(Regime::El2) => 0xE102,
        Register::Tcr(Regime::El3) => 0xF102,
        Register::Ttbr0(Regime::El1) => 0xC100,
        Register::Ttbr0(Regime::El2) => 0xE100,
        Register::Ttbr0(Regime::El3) => 0xF100,
        Register::Mair(Regime::El1) => 0xC510,
        Register::Mair(Regime::El2) => 0xE510,
        Register::Mair(Regime::El3) => 0xF510,
        Register::Vbar(Regime::El1) => 0xC600,
        Register::Vbar(Regime::El2) => 0xE600,
        Register::Vbar(Regime::El3) => 0xF600,
        Register::Elr(Regime::El1) => 0xC201,
        Register::Elr(Regime::El2) => 0xE201,
        Register::Elr(Regime::El3) => 0xF201,
        Register::Spsr(Regime::El1) => 0xC200,
        Register::Spsr(Regime::El2) => 0xE200,
        Register::Spsr(Regime::El3) => 0xF200,
        Register::Esr(Regime::El1) => 0xC290,
        Register::Esr(Regime::El2) => 0xE290,
        Register::Esr(Regime::El3) => 0xF290,
        Register::Far(Regime::El1) => 0xC300,
        Register::Far(Regime::El2) => 0xE300,
        Register::Far(Regime::El3) => 0xF300,
        Register::Ttbr1 => 0xC101,
        Register::Hcr => 0xE088,
        Register::Scr => 0xF088,
        Register::Vpidr => 0xE000,
        Register::Vmpidr => 0xE005,
        Register::Par => 0xC3A0,
    }
}

/// Its name, as an assembler takes it.
pub fn name(register: Register) -> &'static str {
    match register {
        Register::Sctlr(Regime::El1) => "SCTLR_EL1",
        Register::Sctlr(Regime::El2) => "SCTLR_EL2",
        Register::Sctlr(Regime::El3) => "SCTLR_EL3",
        Register::Tcr(Regime::El1) => "TCR_EL1",
        Register::Tcr(Regime::El2) => "TCR_EL2",
        Register::Tcr(Regime::El3) => "TCR_EL3",
        Register::Ttbr0(Regime::El1) => "TTBR0_EL1",
        Register::Ttbr0(Regime::El2) => "TTBR0_EL2",
        Register::Ttbr0(Regime::El3) => "TTBR0_EL3",
        Register::Mair(Regime::El1) => "MAIR_EL1",
        Register::Mair(Regime::El2) => "MAIR_EL2",
        Register::Mair(Regime::El3) => "MAIR_EL3",
        Register::Vbar(Regime::El1) => "VBAR_EL1",
        Register::Vbar(Regime::El2) => "VBAR_EL2",
        Register::Vbar(Regime::El3) => "VBAR_EL3",
        Register::Elr(Regime::El1) => "ELR_EL1",
        Register::Elr(Regime::El2) => "ELR_EL2",
        Register::Elr(Regime::El3) => "ELR_EL3",
        Register::Spsr(Regime::El1) => "SPSR_EL1",
        Register::Spsr(Regime::El2) => "SPSR_EL2",
        Register::Spsr(Regime::El3) => "SPSR_EL3",
        Register::Esr(Regime::El1) => "ESR_EL1",
        Register::Esr(Regime::El2) => "ESR_EL2",
        Register::Esr(Regime::El3) => "ESR_EL3",
        Register::Far(Regime::El1) => "FAR_EL1",
        Register::Far(Regime::El2) => "FAR_EL2",
        Register::Far(Regime::El3) => "FAR_EL3",
        Register::Ttbr1 => "TTBR1_EL1",
        Register::Hcr => "HCR_EL2",
        Register::Scr => "SCR_EL3",
        Register::Vpidr => "VPIDR_EL2",
        Register::Vmpidr => "VMPIDR_EL2",
        Register::Par => "PAR_EL1",
    }
}

/// The register that a word names, in capitals or not.
pub fn named(word: &[u8]) -> Option<Register> {
    for register in REGISTERS {
        if word.eq_ignore_ascii_case(name(register).as_bytes()) {
            return Some(register);
        }
    }
    None
}

/// The name that is nearest to a word.
pub fn nearest(word: &[u8]) -> &'static str {
    let mut nearest = Nearest::new(word);
    for register in REGISTERS {
        nearest.offer(name(register));
    }
    nearest.name
}
