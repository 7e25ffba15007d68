#![tactic(auto)]
//! The cache shown whole, as a debugger shows a TLB: its live entries and its hints.
ghost use Rattle.std.specs.Prelude.{◌≡◌, not, ◌==◌, ◌-◌, ◌^◌};
ghost use Rattle.digest.specs.Count.{set};
ghost use Rattle.digest.specs.Parts.{live};

use cpu::Core;
use digest::parts;
use json_text::{Count, Hex};
use serde::Serialize;
use std::alloc::{AllocError, Global};
use std::fmt;
use sysreg::regs::Regime;
use tlb::entry::Entry;
use tlb::hint::{DATA_HINTS, Hint};
use walk_report::explain;
use walk_report::fields::Rights;

// What an entry maps.
#[derive(Clone, Copy, Serialize)]
struct Mapped {
    va: Hex,
    pa: Hex,
    regime: &'static str,
    rights: Rights,
    level: u8,
    // none where it answers for every ASID
    asid: Option<Hex>,
}

// An entry: it maps nothing where its tag names no regime.
#[derive(Clone, Copy, Serialize)]
struct LiveEntry {
    slot: usize,
    mapped: Option<Mapped>,
}

// A hint; that of fetches has no slot.
#[derive(Clone, Copy, Serialize)]
struct SetHint {
    slot: Option<usize>,
    va: Hex,
    pa: Hex,
    access: &'static str,
    el: Count,
}

/// The entries that are live, by their places, and the hints.
#[derive(Drop, Serialize)]
pub struct Cache {
    live: Count,
    entries: Vec<LiveEntry>,
    set: Count,
    hints: Vec<SetHint>,
}

// An entry answers where it has a tag and is of the present generation.
fn is_live(entry: &Entry, generation: u32) -> bool
    ensures { result ≡ live entry.now generation }
{
    entry.tag != 0 && entry.generation == generation
}

// A hint whose key is all ones is none.
fn is_set(hint: &Hint) -> bool
    ensures { result ≡ set hint.now }
{
    hint.key != u64::MAX
}

impl Mapped {
    fn new(entry: &Entry) -> Option<Self> {
        let regime = Regime::try_from(entry.tag & 3).ok()?;
        let perms = entry.perms;
        Some(Mapped {
            va: Hex(entry.tag >> 2 << 12),
            pa: Hex(entry.pa),
            regime: explain::regime_name(regime),
            rights: Rights { regime, perms },
            level: entry.level,
            asid: (!entry.global).then_some(Hex(u64::from(entry.asid))),
        })
    }
}

impl SetHint {
    fn new(slot: usize, hint: &Hint) -> Self {
        SetHint {
            slot: Some(slot),
            va: Hex(hint.key & !0xFFF),
            pa: Hex(hint.pa),
            access: if slot < DATA_HINTS { "read" } else { "write" },
            el: Count(hint.key & 0xFFF),
        }
    }
}

impl Cache {
    pub fn new(alloc: Global, core: &Core) -> Result<Self, AllocError> {
        let tlb = &core.tlb;
        let mut cache = Cache {
            live: Count(parts::entries(core).count),
            entries: Vec::new(alloc),
            set: Count(parts::hints(core).count),
            hints: Vec::new(alloc),
        };
        for (slot, entry) in tlb.entries.iter().enumerate() {
            if is_live(entry, tlb.generation) {
                let mapped = Mapped::new(entry);
                cache.entries.push(LiveEntry { slot, mapped })?;
            }
        }
        for (slot, hint) in tlb.hints.iter().enumerate() {
            if is_set(hint) {
                cache.hints.push(SetHint::new(slot, hint))?;
            }
        }
        if let Some(hint) = &tlb.fetch {
            cache.hints.push(SetHint {
                slot: None,
                va: Hex(hint.page),
                pa: Hex(hint.pa),
                access: "fetch",
                el: Count(u64::from(hint.level)),
            })?;
        }
        Ok(cache)
    }
}

impl fmt::Display for Mapped {
    fn fmt<W: fmt::Write>(&self, f: &mut fmt::Formatter<W>) -> fmt::Result {
        let Mapped {
            va,
            pa,
            regime,
            rights,
            level,
            asid,
        } = self;
        write!(
            f,
            "{:016x}  {:016x}  {regime}, {rights}, level {level}",
            va.0, pa.0
        )?;
        match asid {
            None => write!(f, ", every ASID"),
            Some(asid) => write!(f, ", ASID {:x}", asid.0),
        }
    }
}

impl fmt::Display for LiveEntry {
    fn fmt<W: fmt::Write>(&self, f: &mut fmt::Formatter<W>) -> fmt::Result {
        let slot = self.slot;
        match &self.mapped {
            Some(mapped) => writeln!(f, "  {slot:>4x}  {mapped}"),
            None => writeln!(f, "  {slot:>4x}  of no regime"),
        }
    }
}

impl fmt::Display for SetHint {
    fn fmt<W: fmt::Write>(&self, f: &mut fmt::Formatter<W>) -> fmt::Result {
        match self.slot {
            Some(slot) => write!(f, "  {slot:>4x}")?,
            None => write!(f, "      ")?,
        }
        let SetHint {
            va,
            pa,
            access,
            el,
            ..
        } = self;
        let plural = if *access == "fetch" { "es" } else { "s" };
        writeln!(
            f,
            "  {:016x}  {:016x}  {access}{plural} at EL{}",
            va.0, pa.0, el.0
        )
    }
}

impl fmt::Display for Cache {
    fn fmt<W: fmt::Write>(&self, f: &mut fmt::Formatter<W>) -> fmt::Result {
        writeln!(f, "entries of the cache: {} of 1024 are live", self.live.0)?;
        if self.live.0 != 0 {
            writeln!(f, "  slot  page              output")?;
        }
        for entry in &self.entries {
            write!(f, "{entry}")?;
        }
        writeln!(f, "hints: {} of 513 are set", self.set.0)?;
        if self.set.0 != 0 {
            writeln!(f, "  slot  page              output")?;
        }
        for hint in &self.hints {
            write!(f, "{hint}")?;
        }
        Ok(())
    }
}
