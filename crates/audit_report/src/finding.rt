//! An answer that a walk made now would not give, and where it comes from.
ghost use Rattle.std.specs.Prelude.{◌≡◌, ◌==◌, ◌||◌};

use crate::auditor::Auditor;
use crate::kept::{Cause, Kept};
use audit::answers::Answered;
use audit::judged::Counts;
use json_text::{Count, Hex, Shown};
use serde::{Described, Serialize, Serializer};
use std::fmt;
use trace_text::aside::Aside;
use trace_text::line::Line;
use walk_report::answer::{Source, Told};
use walk_report::explain;
use walk_report::fields::Rights;

// A line as a trace has it, and the name that its numbers stand for.
#[derive(Clone, Copy)]
struct Text(Line);

#[derive(Clone, Copy, Serialize)]
struct Numbered {
    line: Count,
    #[serde(skip_serializing_if = Option::is_none)]
    core_number: Option<Count>,
    text: Shown<Text>,
}

impl fmt::Display for Text {
    fn fmt<W: fmt::Write>(&self, f: &mut fmt::Formatter<W>) -> fmt::Result {
        write!(f, "{}{}", self.0, Aside(&self.0))
    }
}

impl fmt::Display for Cause {
    fn fmt<W: fmt::Write>(&self, f: &mut fmt::Formatter<W>) -> fmt::Result {
        write!(f, "line {}", self.number)?;
        if let Some(core) = self.core {
            write!(f, ", core {core:x}")?;
        }
        write!(f, ": {}", Text(self.line))
    }
}

impl Described for Cause {}

impl Serialize for Cause {
    fn serialize<S: Serializer>(&self, out: &mut S) -> Result<(), S::Error> {
        Numbered {
            line: Count(self.number),
            core_number: self.core.map(Count),
            text: Shown::new(Text(self.line)),
        }
        .serialize(out)
    }
}

// The walk that the cache keeps: the line that filled it, what that walk found, and what was invalidated since.
#[derive(Clone, Copy, Serialize)]
struct Filled {
    by: Cause,
    va: Hex,
    regime: &'static str,
    pa: Hex,
    rights: Rights,
    level: u8,
    // none where it answers for every ASID
    asid: Option<Hex>,
    changed: Option<Cause>,
    // how many invalidations came since the walk
    invalidations: Count,
    // the last of them that covers it
    covering: Option<Cause>,
    // of several cores, the last that would cover it and is of another core alone
    #[serde(skip_serializing_if = Option::is_none)]
    unheard: Option<Cause>,
}

/// What was invalidated since a walk.
#[derive(Clone, Copy, Default)]
pub struct Since {
    /// how many invalidations the cache heard of
    pub heard: u64,
    /// the last of them that covers the walk
    pub covering: Option<Cause>,
    /// the last TLBI of another core that covers it, since a walk ends otherwise, and that the cache did not hear of
    pub unheard: Option<Cause>,
}

/// A stale answer: the line that got it, the walk that was kept, and what was invalidated since that walk.
#[derive(Clone, Copy, Serialize)]
pub struct Finding {
    at: Cause,
    va: Hex,
    core: Told,
    by: Source,
    walk_now: Told,
    // none where no access filled it
    filled: Option<Filled>,
}

/// What an audit found. What was found is shown as it is, and then how much there was.
#[derive(Drop, Serialize)]
pub struct Audit {
    accesses: Count,
    stale: Count,
    /// false where the trace was left at the first stale answer
    whole: bool,
    findings: Vec<Finding>,
}

impl Audit {
    /// Of a trace that was carried out to its end, or to its first stale answer.
    pub fn new(auditor: Auditor, all: bool) -> Self
        ensures accesses { result.accesses.0 ≡ auditor.counts.accesses }
        ensures stale { result.stale.0 ≡ auditor.counts.stale }
        ensures whole { result.whole ≡ (all || auditor.counts.stale == 0) }
        ensures found { result.findings.items ≡ auditor.found.items }
    {
        let Auditor {
            counts: Counts { accesses, stale },
            found,
            ..
        } = auditor;
        Audit {
            accesses: Count(accesses),
            stale: Count(stale),
            whole: all || stale == 0,
            findings: found,
        }
    }

    /// Whether no stale answer was counted.
    pub fn is_clean(&self) -> bool
        ensures { result ≡ (self.now.stale.0 == 0) }
    {
        self.stale.0 == 0
    }
}

impl fmt::Display for Audit {
    fn fmt<W: fmt::Write>(&self, f: &mut fmt::Formatter<W>) -> fmt::Result {
        for finding in &self.findings {
            write!(f, "{finding}")?;
        }
        let (stale, accesses) = (self.stale.0, self.accesses.0);
        match stale {
            0 => writeln!(f, "no stale answer in {accesses} accesses"),
            _ if self.whole => writeln!(f, "{stale} stale in {accesses} accesses"),
            _ => writeln!(
                f,
                "stale at access {accesses}; what comes after it was not carried out (--all: each)"
            ),
        }
    }
}

impl Filled {
    fn new(kept: &Kept, since: Since) -> Self {
        let (regime, leaf) = (kept.regime, kept.leaf);
        let perms = leaf.perms;
        Filled {
            by: kept.by,
            va: Hex(kept.page << 12),
            regime: explain::regime_name(regime),
            pa: Hex(leaf.oa >> 12 << 12),
            rights: Rights { regime, perms },
            level: leaf.level,
            asid: (!leaf.global).then_some(Hex(u64::from(kept.asid))),
            changed: kept.changed,
            invalidations: Count(since.heard),
            covering: since.covering,
            unheard: since.unheard,
        }
    }
}

impl Finding {
    /// Of a line's answer, the walk that was kept, and what was invalidated since.
    pub fn new(at: Cause, answered: Answered, kept: Option<Kept>, since: Since) -> Self {
        Finding {
            at,
            va: Hex(answered.ask.address()),
            core: Told::from(answered.core),
            by: answered.source,
            walk_now: Told::from(answered.fresh),
            filled: kept.map(|kept| Filled::new(&kept, since)),
        }
    }
}

impl fmt::Display for Filled {
    fn fmt<W: fmt::Write>(&self, f: &mut fmt::Formatter<W>) -> fmt::Result {
        let Filled {
            va,
            pa,
            regime,
            rights,
            level,
            ..
        } = self;
        writeln!(f, "  filled     {}", self.by)?;
        write!(
            f,
            "             page {:x} of {regime} to {:x}",
            va.0 >> 12,
            pa.0 >> 12
        )?;
        write!(f, ", {rights}, level {level}")?;
        match self.asid {
            None => writeln!(f, ", every ASID")?,
            Some(asid) => writeln!(f, ", ASID {:x}", asid.0)?,
        }
        match self.changed {
            Some(line) => writeln!(f, "  changed    {line}")?,
            None => writeln!(f, "  changed    by no line since")?,
        }
        write!(f, "  TLBI       ")?;
        match (self.invalidations.0, self.covering) {
            (_, Some(line)) => writeln!(f, "COVERED, AND KEPT, AT {line}"),
            (0, None) => writeln!(f, "none since"),
            (1, None) => writeln!(f, "1 since, which does not cover it"),
            (n, None) => writeln!(f, "{n} since, none of which covers it"),
        }?;
        match self.unheard {
            Some(line) => writeln!(f, "  unheard    {line}"),
            None => Ok(()),
        }
    }
}

impl fmt::Display for Finding {
    fn fmt<W: fmt::Write>(&self, f: &mut fmt::Formatter<W>) -> fmt::Result {
        writeln!(f, "STALE at {}", self.at)?;
        writeln!(f, "  address    {:016x}", self.va.0)?;
        writeln!(f, "  the core   {}, {}", self.core, self.by)?;
        writeln!(f, "  walk now   {}", self.walk_now)?;
        match &self.filled {
            Some(filled) => write!(f, "{filled}"),
            None => writeln!(f, "  filled     by no access: a line w-.. or p-.. wrote it"),
        }
    }
}
