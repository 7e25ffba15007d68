// A translation explained: what a walk made now gives, beside what the core answers.
ghost use Rattle.std.specs.Prelude.{◌≡◌};
ghost use Rattle.word.specs.Ram.{word_at};
ghost use Rattle.walk_report.specs.Told.{agree, core_told, walk_told};

use crate::answer::{Source, Told};
use crate::walkthrough::Walkthrough;
use cpu::Core;
use json_text::{Count, Hex};
use serde::Serialize;
use std::fmt;
use sysreg::regs::Regime;
use tlb::access::Kind;
use tlb::count::Tally;
use tlb::work::Work;
use tlb::{access, count};

/// An access's name.
pub fn kind_name(kind: Kind) -> &'static str {
    match kind {
        Kind::Read => "read",
        Kind::Write => "write",
        Kind::Fetch => "fetch",
    }
}

/// A regime's name.
pub fn regime_name(regime: Regime) -> &'static str {
    match regime {
        Regime::El1 => "EL1&0",
        Regime::El2 => "EL2",
        Regime::El3 => "EL3",
    }
}

// The counters of the core's own level. A core whose level is above 3 counts nothing.
fn counters(core: &Core) -> Tally {
    core.tlb.levels[count::level_place(core.privilege.level)]
}

// A stale cache is seen here.
fn verdict(now: Told, core: Told) -> &'static str {
    if now == core {
        return "the two agree";
    }
    match core {
        Told::Nothing(_) => {
            "the core refuses the call: its level is above 3, or its window passes 2^64"
        }
        _ => "THEY DIFFER: the cache holds a translation that the tables no longer make",
    }
}

/// One translation on a core and its window: what is asked, the registers, a walk made now, and what the core answers.
#[derive(Clone, Copy, Serialize)]
pub struct Explained {
    access: &'static str,
    va: Hex,
    el: u8,
    unprivileged: bool,
    #[serde(flatten)]
    walkthrough: Walkthrough,
    walk_now: Told,
    core: Told,
    by: Source,
    verdict: &'static str,
    reads: u8,
    core_reads: Count,
    /// whether the core answers as the walk does, or not at all
    pub agree: bool,
}

/// Explains a translation on a core and its window, which starts at `base`.
pub fn explain(core: &mut Core, base: u64, ram: &mut [u8], kind: Kind, va: u64) -> Explained
    ensures agree { result.agree
        ≡ agree (walk_told core.old (word_at base ram.old 8) kind va) (core_told core.old base ram.old kind va) }
{
    let privilege = core.privilege;
    let regime = Regime::of_level(privilege.level);
    let bank = core.bank();
    let walkthrough = Walkthrough::new(core, va, base, ram);
    let walk = walkthrough.walk;
    let walk_now = match &walk {
        Some(steps) => Told::of_walk(core, steps.answer, kind, va),
        None => Told::from(access::flat(&bank, regime, va)),
    };
    let before = counters(core);
    let mut work = Work::none();
    let told = Told::of_core(core, base, ram, kind, va, &mut work);
    Explained {
        access: kind_name(kind),
        va: Hex(va),
        el: privilege.level,
        unprivileged: privilege.unprivileged,
        walkthrough,
        walk_now,
        core: told,
        by: Source::new(bank.stage1_on(regime), before, counters(core)),
        verdict: verdict(walk_now, told),
        reads: walk.map_or(0, |steps| steps.reads),
        core_reads: Count(work.reads),
        agree: walk_now.agrees(told),
    }
}

impl fmt::Display for Explained {
    fn fmt<W: fmt::Write>(&self, f: &mut fmt::Formatter<W>) -> fmt::Result {
        write!(f, "{} of {:016x} at EL{}", self.access, self.va.0, self.el)?;
        if self.unprivileged {
            write!(f, ", unprivileged")?;
        }
        write!(f, ": {}", self.walkthrough)?;
        writeln!(f, "walk now   {}", self.walk_now)?;
        writeln!(f, "the core   {}, {}", self.core, self.by)?;
        writeln!(f, "{}", self.verdict)?;
        writeln!(f, "descriptors read: {}", self.reads)?;
        writeln!(f, "by the core: {}, {}", self.core_reads.0, self.by)
    }
}
