// What an exception reports.
ghost use Rattle.std.specs.Prelude.{◌≡◌};
ghost use Rattle.exception.specs.Syndrome.{esr_of, syndrome_of};

use crate::kind::Exception;

/// `ESR_ELx` exception classes (DDI 0487, D17.2.37).
pub const EC_UNKNOWN: u8 = 0x00;

pub const EC_SVC64: u8 = 0x15;

pub const EC_HVC64: u8 = 0x16;

pub const EC_SMC64: u8 = 0x17;

pub const EC_BRK64: u8 = 0x3C;

/// `ESR_ELx.IL`: the instruction has 32 bits.
pub const ESR_IL: u64 = 1 << 25;

// `ESR_ELx`: the class in bits 31 to 26, IL, and the syndrome.
#[tactic(auto, using(crate::proofs::FieldLaws::esr_joined))]
fn esr(class: u8, iss: u16) -> u64
    ensures { result ≡ esr_of class iss }
{
    (class as u64) << 26 | ESR_IL | iss as u64
}

impl Exception {
    /// `ESR_ELx` and any `FAR_ELx` for this exception (DDI 0487, D17.2.37), taken from one level to another.
    #[inline(always)]
    #[tactic(auto, unfolding(crate::specs::Syndrome::syndrome_of), using(crate::proofs::FieldLaws::status_word))]
    pub fn syndrome(self, from: u8, to: u8, pc: u64) -> (u64, Option<u64>)
        ensures { result ≡ syndrome_of self from to pc }
    {
        let lower = from < to;
        match self {
            Exception::Undefined => (esr(EC_UNKNOWN, 0), None),
            Exception::Svc(imm) => (esr(EC_SVC64, imm), None),
            Exception::Hvc(imm) => (esr(EC_HVC64, imm), None),
            Exception::Smc(imm) => (esr(EC_SMC64, imm), None),
            Exception::Brk(imm) => (esr(EC_BRK64, imm), None),
            Exception::InsnAbort(a) => {
                let class = if lower { 0x20 } else { 0x21 };
                (esr(class, a.fault.fsc as u16), Some(a.addr))
            }
            Exception::DataAbort(a) => {
                let class = if lower { 0x24 } else { 0x25 };
                let wnr = (a.write as u16) << 6;
                (esr(class, wnr | a.fault.fsc as u16), Some(a.addr))
            }
            Exception::PcAlignment => (esr(0x22, 0), Some(pc)),
        }
    }
}
