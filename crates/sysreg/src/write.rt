// MSR to the registers kept.
ghost use Rattle.std.specs.Prelude.{◌≡◌, Err};
ghost use Rattle.sysreg.specs.Write.{write_reg, reply_of, reply_to};

use crate::encoding::named;
use crate::regs::{Control, Register, SysRegs};

/// What keeps a register from being written.
#[derive(Clone, Copy)]
pub enum WriteError {
    /// EL0 may write none.
    Undefined,
    /// The key names no register kept.
    NoRegister,
}

/// `MSR`: a key that names no register kept is refused; else EL0 may write none; else the register is written, of
/// VBAR, SPSR, ESR and VPIDR_EL2 the bits that are not RES0. A write that is refused changes nothing.
#[inline(always)]
#[tactic(auto, using(crate::proofs::WriteLaws::four, crate::proofs::Masks::masks), unfolding(crate::specs::Write::write_reg, crate::specs::Write::control_with, crate::specs::Write::sys_with))]
pub fn write_reg(
    control: &mut Control,
    sys: &mut SysRegs,
    level: u8,
    k: u32,
    value: u64,
) -> Result<(), WriteError>
    ensures answer { result ≡ (write_reg control.old sys.old level k value).answer }
    ensures control_after { control.new ≡ (write_reg control.old sys.old level k value).control }
    ensures sys_after { sys.new ≡ (write_reg control.old sys.old level k value).sys }
    ensures answer_value { reply_of result ≡ reply_to level k }
    ensures unchanged { (e : WriteError) → result ≡ Err e → (control.new ≡ control.old) × (sys.new ≡ sys.old) }
{
    let register = named(k).ok_or(WriteError::NoRegister)?;
    if level == 0 {
        return Err(WriteError::Undefined);
    }
    match register {
        Register::Sctlr(r) => control.sctlr[r.index()] = value,
        Register::Tcr(r) => control.tcr[r.index()] = value,
        Register::Ttbr0(r) => control.ttbr0[r.index()] = value,
        Register::Ttbr1 => control.ttbr1_el1 = value,
        Register::Scr => control.scr_el3 = value,
        Register::Hcr => control.hcr_el2 = value,
        Register::Mair(r) => sys.mair[r.index()] = value,
        Register::Vbar(r) => sys.vbar[r.index()] = value & !0x7FF,
        Register::Elr(r) => sys.elr[r.index()] = value,
        Register::Spsr(r) => sys.spsr[r.index()] = value & 0xF03F_03DF,
        Register::Esr(r) => sys.esr[r.index()] = value & 0xFFFF_FFFF,
        Register::Far(r) => sys.far[r.index()] = value,
        Register::Vpidr => sys.vpidr_el2 = value & 0xFFFF_FFFF,
        Register::Vmpidr => sys.vmpidr_el2 = value,
        Register::Par => sys.par_el1 = value,
    }
    Ok(())
}
