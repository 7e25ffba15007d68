//! ESR_ELx in words (DDI 0487, D17.2.37).
ghost use Rattle.std.specs.Prelude.{◌≡◌};
ghost use Rattle.manual_words.specs.Syndrome.{class_at, class_in, far_told, immediate_in, status_in, write_in};

use crate::status::Status;
use std::fmt;

/// The exception class, EC in bits 31 to 26.
#[derive(Clone, Copy)]
pub enum Class {
    Unknown,
    Svc,
    Hvc,
    Smc,
    Brk,
    PcAlignment,
    InsnAbortFromLower,
    InsnAbort,
    DataAbortFromLower,
    DataAbort,
    Other(u8),
}

/// What ESR_ELx says of an exception.
#[derive(Clone, Copy)]
pub struct Syndrome(pub u64);

impl Class {
    /// The class that EC names.
    pub fn new(ec: u8) -> Class
        ensures { result ≡ class_at ec }
    {
        match ec {
            0x00 => Class::Unknown,
            0x15 => Class::Svc,
            0x16 => Class::Hvc,
            0x17 => Class::Smc,
            0x20 => Class::InsnAbortFromLower,
            0x21 => Class::InsnAbort,
            0x22 => Class::PcAlignment,
            0x24 => Class::DataAbortFromLower,
            0x25 => Class::DataAbort,
            0x3C => Class::Brk,
            _ => Class::Other(ec),
        }
    }

    /// Whether its exceptions write FAR_ELx: of those that this core takes, aborts and PC alignment.
    pub fn writes_far(self) -> bool
        ensures { result ≡ far_told self }
    {
        matches!(
            self,
            Class::PcAlignment
                | Class::InsnAbortFromLower
                | Class::InsnAbort
                | Class::DataAbortFromLower
                | Class::DataAbort
        )
    }
}

impl Syndrome {
    pub fn class(self) -> Class
        ensures { result ≡ class_in self.0 }
    {
        Class::new((self.0 / 0x400_0000 % 64) as u8)
    }

    /// The status of an abort: DFSC and IFSC in bits 5 to 0.
    pub fn status(self) -> u8
        ensures { result ≡ status_in self.0 }
    {
        (self.0 % 64) as u8
    }

    /// WnR, bit 6: the data abort is a write's.
    pub fn is_write(self) -> bool
        ensures { result ≡ write_in self.0 }
    {
        self.0 / 64 % 2 == 1
    }

    /// The immediate of SVC, HVC, SMC and BRK, bits 15 to 0.
    pub fn immediate(self) -> u16
        ensures { result ≡ immediate_in self.0 }
    {
        (self.0 % 0x1_0000) as u16
    }
}

impl fmt::Display for Class {
    fn fmt<W: fmt::Write>(&self, f: &mut fmt::Formatter<W>) -> fmt::Result {
        f.write_str(match *self {
            Class::Unknown => "Unknown reason",
            Class::Svc => "SVC instruction execution in AArch64 state",
            Class::Hvc => "HVC instruction execution in AArch64 state",
            Class::Smc => "SMC instruction execution in AArch64 state",
            Class::Brk => "BRK instruction execution in AArch64 state",
            Class::PcAlignment => "PC alignment fault exception",
            Class::InsnAbortFromLower => "Instruction Abort from a lower Exception level",
            Class::InsnAbort => { "Instruction Abort taken without a change in Exception level" }
            Class::DataAbortFromLower => "Data Abort from a lower Exception level",
            Class::DataAbort => "Data Abort taken without a change in Exception level",
            Class::Other(ec) => return write!(f, "exception class {ec:02x}"),
        })
    }
}

impl fmt::Display for Syndrome {
    fn fmt<W: fmt::Write>(&self, f: &mut fmt::Formatter<W>) -> fmt::Result {
        let class = self.class();
        write!(f, "{class}")?;
        match class {
            Class::Svc | Class::Hvc | Class::Smc | Class::Brk => {
                write!(f, ", immediate {:x}", self.immediate())
            }
            Class::InsnAbort | Class::InsnAbortFromLower => {
                write!(f, ", {}", Status(self.status()))
            }
            Class::DataAbort | Class::DataAbortFromLower => {
                let access = if self.is_write() { "write" } else { "read" };
                write!(f, ", {access}, {}", Status(self.status()))
            }
            Class::Unknown | Class::PcAlignment | Class::Other(_) => Ok(()),
        }
    }
}
