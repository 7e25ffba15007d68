//! PAR_EL1 in words (DDI 0487, D17.2, PAR_EL1).
ghost use Rattle.std.specs.Prelude.{◌≡◌};
ghost use Rattle.manual_words.specs.Par.{par_of};

use crate::memory::{Memory, Shareability};
use crate::status::Status;
use std::fmt;

/// What PAR_EL1 says after an AT.
#[derive(Clone, Copy)]
pub enum Par {
    /// FST<6:1>, where F<0> is set
    Fault(u8),
    Address {
        /// ATTR<63:56>
        attribute: u8,
        /// PA<47:12>, as an address
        pa: u64,
        /// NS<9>
        nonsecure: bool,
        /// SH<8:7>
        shareability: u8,
    },
}

impl Par {
    pub fn new(par: u64) -> Par
        ensures { result ≡ par_of par }
    {
        if par % 2 == 1 {
            Par::Fault((par / 2 % 64) as u8)
        } else {
            Par::Address {
                attribute: (par / 0x100_0000_0000_0000) as u8,
                pa: par / 0x1000 % 0x10_0000_0000 * 0x1000,
                nonsecure: par / 0x200 % 2 == 1,
                shareability: (par / 0x80 % 4) as u8,
            }
        }
    }
}

impl fmt::Display for Par {
    fn fmt<W: fmt::Write>(&self, f: &mut fmt::Formatter<W>) -> fmt::Result {
        match *self {
            Par::Fault(fst) => write!(f, "fault, {}", Status(fst)),
            Par::Address {
                attribute,
                pa,
                nonsecure,
                shareability,
            } => {
                let space = if nonsecure { "Non-secure" } else { "Secure" };
                write!(f, "page {pa:x}, {space}, {}", Memory::new(attribute))?;
                write!(f, ", {}", Shareability::new(shareability))
            }
        }
    }
}
