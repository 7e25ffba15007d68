// How the tables translate an address now: the registers, the range, each level's descriptor, and what the leaf says of
// memory.
ghost use Rattle.std.specs.Prelude.{◌≡◌};
ghost use Rattle.word.specs.Ram.{word_at};
ghost use Rattle.walk_report.specs.Told.{end_shown, walk_end};

use crate::levels::Steps;
use crate::registers::Registers;
use crate::{explain, levels};
use cpu::Core;
use json_text::{Hex, Shown};
use manual_words::memory;
use manual_words::memory::{Memory, Shareability};
use serde::Serialize;
use std::fmt;
use sysreg::regs::Regime;
use tlb::access;
use walk::level::Leaf;

// What stage 1 makes of an address while it is off, by whether it fits and whether it had no tag to drop.
fn flat_meaning(fits: bool, whole: bool) -> &'static str {
    if !fits {
        "address size fault, level 0 (bits from 44 up are not zero)"
    } else if whole {
        "the address is the physical address"
    } else {
        "the address without its tag is the physical address"
    }
}

// What the leaf's attribute says, by the regime's MAIR, and its SH.
#[derive(Clone, Copy, Serialize)]
struct Attribute {
    mair_el: u64,
    attr: u8,
    value: Hex,
    memory: Shown<Memory>,
    sharing: Shown<Shareability>,
}

impl Attribute {
    fn new(core: &Core, regime: Regime, leaf: &Leaf) -> Self {
        let desc = leaf.desc;
        let attr = (desc >> 2 & 7) as u8;
        let value = memory::attribute(core.sys.mair[regime.index()], attr);
        Attribute {
            mair_el: u64::from(regime),
            attr,
            value: Hex(u64::from(value)),
            memory: Shown::new(Memory::new(value)),
            sharing: Shown::new(Shareability::new((desc >> 8 & 3) as u8)),
        }
    }
}

impl fmt::Display for Attribute {
    fn fmt<W: fmt::Write>(&self, f: &mut fmt::Formatter<W>) -> fmt::Result {
        let Attribute {
            mair_el,
            attr,
            value,
            memory,
            sharing,
        } = self;
        write!(
            f,
            "memory     MAIR_EL{mair_el}.Attr{attr} is {:02x}: ",
            value.0
        )?;
        writeln!(f, "{}, {}", memory.value, sharing.value)
    }
}

/// A walk of an address in the regime of a core's level. Shown, it is the regime and its registers, and then the walk.
#[derive(Clone, Copy, Serialize)]
pub struct Walkthrough {
    regime: &'static str,
    registers: Registers,
    #[serde(skip)]
    tagged: bool,
    untagged: Hex,
    // with stage 1 off, what that makes of the address; with stage 1 on, the walk
    #[serde(skip_serializing_if = Option::is_none)]
    stage1_off: Option<&'static str>,
    #[serde(skip_serializing_if = Option::is_none)]
    pub walk: Option<Steps>,
    #[serde(skip_serializing_if = Option::is_none)]
    memory: Option<Attribute>,
}

impl Walkthrough {
    /// The walk of `va` over the RAM that starts at `base`; none with stage 1 off.
    pub fn new(core: &Core, va: u64, base: u64, ram: &[u8]) -> Self
        ensures walk { end_shown result.walk ≡ walk_end core.now va (word_at base ram.now 8) }
    {
        let (bank, regime) = (core.bank(), core.regime());
        let untagged = bank.untag(regime, va);
        let on = bank.stage1_on(regime);
        let fits = access::flat(&bank, regime, va).is_ok();
        let walk = if on {
            Some(levels::walk(bank, regime, untagged, base, ram))
        } else {
            None
        };
        let memory = match walk.map(|steps| steps.answer) {
            Some(Ok(leaf)) => Some(Attribute::new(core, regime, &leaf)),
            _ => None,
        };
        Walkthrough {
            regime: explain::regime_name(regime),
            registers: Registers::new(bank, regime),
            tagged: untagged != va,
            untagged: Hex(untagged),
            stage1_off: (!on).then_some(flat_meaning(fits, untagged == va)),
            walk,
            memory,
        }
    }
}

impl fmt::Display for Walkthrough {
    fn fmt<W: fmt::Write>(&self, f: &mut fmt::Formatter<W>) -> fmt::Result {
        write!(f, "the regime is {}\n{}", self.regime, self.registers)?;
        if self.tagged {
            writeln!(f, "untagged   {:016x}", self.untagged.0)?;
        }
        if let Some(meaning) = self.stage1_off {
            writeln!(f, "stage 1 is off: {meaning}")?;
        }
        if let Some(walk) = &self.walk {
            write!(f, "{walk}")?;
        }
        if let Some(memory) = &self.memory {
            write!(f, "{memory}")?;
        }
        Ok(())
    }
}
