// What an access gets: from a walk made now, and from the core, cache and all.
ghost use Rattle.std.specs.Prelude.{◌≡◌};
ghost use Rattle.walk_report.specs.Told.{agree, core_told, told_by_walk, told_of};

use crate::fields::Faulted;
use cpu::Core;
use cpu::call::{Call, Reply};
use fault::Fault;
use json_text::Hex;
use serde::{Described, Serialize, Serializer};
use std::fmt;
use sysreg::regs::Regime;
use tlb::access::Kind;
use tlb::count::Tally;
use tlb::entry::Entry;
use tlb::work::Work;
use walk::level::Walked;

/// What an access is told.
#[derive(Clone, Copy, PartialEq, Eq)]
pub enum Told {
    Address(u64),
    /// A fault, by its status.
    Fault(u8),
    /// No answer, by the number of the check that the call misses.
    Nothing(u8),
}

impl fmt::Display for Told {
    fn fmt<W: fmt::Write>(&self, f: &mut fmt::Formatter<W>) -> fmt::Result {
        match *self {
            Told::Address(pa) => write!(f, "address {pa:x}"),
            Told::Fault(fsc) => {
                let fault = Faulted::new(fsc);
                write!(f, "fault 0x{fsc:02x}, {fault}")
            }
            Told::Nothing(check) => write!(f, "no answer, check {check}"),
        }
    }
}

#[derive(Clone, Copy, Serialize)]
struct ToldAddress {
    pa: Hex,
}

#[derive(Clone, Copy, Serialize)]
struct ToldNothing {
    check: u8,
}

impl Described for Told {}

impl Serialize for Told {
    fn serialize<S: Serializer>(&self, out: &mut S) -> Result<(), S::Error> {
        match *self {
            Told::Address(pa) => ToldAddress { pa: Hex(pa) }.serialize(out),
            Told::Fault(fsc) => Faulted::new(fsc).serialize(out),
            Told::Nothing(check) => ToldNothing { check }.serialize(out),
        }
    }
}

/// Where the core's answer came from.
#[derive(Clone, Copy, PartialEq, Eq, Serialize)]
#[serde(rename_all = "lowercase")]
pub enum Source {
    /// stage 1 is off
    Flat,
    Hint,
    Entry,
    Walk,
}

impl Source {
    /// By the counters of the core's own level before and after: they tell a walk and an entry.
    pub fn new(on: bool, before: Tally, after: Tally) -> Source {
        if !on {
            Source::Flat
        } else if before.walks != after.walks {
            Source::Walk
        } else if before.hits != after.hits {
            Source::Entry
        } else {
            Source::Hint
        }
    }
}

impl fmt::Display for Source {
    fn fmt<W: fmt::Write>(&self, f: &mut fmt::Formatter<W>) -> fmt::Result {
        f.write_str(match self {
            Source::Flat => "with stage 1 off",
            Source::Walk => "by a walk",
            Source::Entry => "by an entry of the cache",
            Source::Hint => "by a hint",
        })
    }
}

impl From<Result<u64, Fault>> for Told {
    ghost from_gives = { λ answer told. told ≡ told_of answer };

    fn from(answer: Result<u64, Fault>) -> Self {
        match answer {
            Ok(pa) => Told::Address(pa),
            Err(fault) => Told::Fault(fault.fsc),
        }
    }
}

impl Told {
    /// Whether the core is told as the walk is, or not at all.
    pub fn agrees(self, core: Told) -> bool
        ensures { result ≡ agree self core }
    {
        match (self, core) {
            (_, Told::Nothing(_)) => true,
            (Told::Address(pa), Told::Address(other)) => pa == other,
            (Told::Fault(status), Told::Fault(other)) => status == other,
            _ => false,
        }
    }

    /// The end of a walk of the level's own regime, judged for the access.
    pub fn of_walk(core: &Core, walked: Walked, kind: Kind, va: u64) -> Self
        ensures { result ≡ told_by_walk core.now kind va walked }
    {
        match walked {
            Ok(leaf) => {
                let entry = Entry::new(leaf, core.tlb.asid, 0);
                let regime = Regime::of_level(core.privilege.level);
                let user = core.privilege.is_user(regime, kind);
                Told::from(entry.judge(user, kind, va))
            }
            Err(status) => Told::Fault(status),
        }
    }

    /// The core's own answer to the translation.
    pub fn of_core(
        core: &mut Core,
        base: u64,
        ram: &mut [u8],
        kind: Kind,
        va: u64,
        work: &mut Work,
    ) -> Self
        ensures { result ≡ core_told core.old base ram.old kind va }
    {
        match core.step(base, ram, Call::Translate(kind, va), work) {
            Reply::Value(pa) => Told::Address(pa),
            Reply::Fault { fault, .. } => Told::Fault(fault.fsc),
            Reply::Refused(check) => Told::Nothing(check),
            // no answer of a translation
            Reply::Done | Reply::Faults | Reply::Stopped(_) => Told::Nothing(0),
        }
    }
}
