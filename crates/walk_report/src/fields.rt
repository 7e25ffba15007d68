// Bits, rights and faults, as numbers, letters and words.
ghost use Rattle.std.specs.Prelude.{◌≡◌};
ghost use Rattle.walk_report.specs.Bits.{kind_bit};

use json_text::{Hex, Shown};
use manual_words::status::Status;
use serde::{Described, Serialize, Serializer};
use std::fmt;
use sysreg::regs::Regime;

/// A bit of a word.
pub fn bit(word: u64, n: u64) -> u64 {
    word >> (n % 64) & 1
}

// One level's rights, by three bits of a permission byte: to read, to write, to execute.
const LETTERS: [&str; 8] = ["---", "r--", "-w-", "rw-", "--x", "r-x", "-wx", "rwx"];

fn letters(perms: u8) -> &'static str {
    LETTERS[(perms % 8) as usize]
}

/// The rights of each level of a regime.
#[derive(Clone, Copy)]
pub struct Rights {
    pub regime: Regime,
    pub perms: u8,
}

impl fmt::Display for Rights {
    fn fmt<W: fmt::Write>(&self, f: &mut fmt::Formatter<W>) -> fmt::Result {
        let own = letters(self.perms / 8);
        match self.regime {
            Regime::El1 => write!(f, "EL0 {}  EL1 {own}", letters(self.perms)),
            Regime::El2 => write!(f, "EL2 {own}"),
            Regime::El3 => write!(f, "EL3 {own}"),
        }
    }
}

impl Described for Rights {}

// The rights by level, as letters.
impl Serialize for Rights {
    fn serialize<S: Serializer>(&self, out: &mut S) -> Result<(), S::Error> {
        out.begin_map(None)?;
        if !self.regime.is_single() {
            out.key("el0")?;
            out.str(letters(self.perms))?;
        }
        out.key(match self.regime {
            Regime::El1 => "el1",
            Regime::El2 => "el2",
            Regime::El3 => "el3",
        })?;
        out.str(letters(self.perms / 8))?;
        out.end_map()
    }
}

/// A bit of a descriptor that says what the descriptor is.
#[derive(Clone, Copy, PartialEq, Eq)]
pub enum KindBit {
    Valid,
    TableOrPage,
}

impl KindBit {
    /// By its number, of the two that there are.
    pub fn at(bit: u8) -> Option<Self>
        ensures { result ≡ kind_bit bit }
    {
        match bit {
            0 => Some(KindBit::Valid),
            1 => Some(KindBit::TableOrPage),
            _ => None,
        }
    }
}

impl fmt::Display for KindBit {
    fn fmt<W: fmt::Write>(&self, f: &mut fmt::Formatter<W>) -> fmt::Result {
        f.write_str(match self {
            KindBit::Valid => "valid",
            KindBit::TableOrPage => "table or page",
        })
    }
}

impl Described for KindBit {}

impl Serialize for KindBit {
    fn serialize<S: Serializer>(&self, out: &mut S) -> Result<(), S::Error> {
        out.collect_str(self)
    }
}

/// A fault's status, and what it says.
#[derive(Clone, Copy, Serialize)]
pub struct Faulted {
    status: Hex,
    fault: Shown<Status>,
}

impl Faulted {
    pub fn new(status: u8) -> Self {
        Faulted {
            status: Hex(u64::from(status)),
            fault: Shown::new(Status(status)),
        }
    }
}

impl fmt::Display for Faulted {
    fn fmt<W: fmt::Write>(&self, f: &mut fmt::Formatter<W>) -> fmt::Result {
        write!(f, "{}", self.fault.value)
    }
}
