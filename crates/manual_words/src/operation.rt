//! AT, DC, IC and TLBI by the manual's names.

use crate::nearest::Nearest;
use std::fmt;

/// An address translation.
#[derive(Clone, Copy, PartialEq, Eq)]
pub enum At {
    S1e1r,
    S1e1w,
    S1e0r,
    S1e0w,
    S1e2r,
    S1e2w,
    S12e1r,
    S12e1w,
    S12e0r,
    S12e0w,
    S1e3r,
    S1e3w,
}

/// Maintenance of a data or an instruction cache, and the zeroing of a block.
#[derive(Clone, Copy, PartialEq, Eq)]
pub enum Cache {
    Zva,
    Cvac,
    Cvau,
    Civac,
    Ivac,
    Isw,
    Csw,
    Cisw,
    Ivau,
    Iallu,
    Ialluis,
}

/// A TLB invalidation; those that end in `is` reach the Inner Shareable domain.
#[derive(Clone, Copy, PartialEq, Eq)]
pub enum Tlbi {
    Vmalle1,
    Vmalle1is,
    Vae1,
    Vae1is,
    Aside1,
    Aside1is,
    Vaae1,
    Vaae1is,
    Vale1,
    Vale1is,
    Vaale1,
    Vaale1is,
    Alle2,
    Alle2is,
    Vae2,
    Vae2is,
    Alle1,
    Alle1is,
    Vale2,
    Vale2is,
    Vmalls12e1,
    Vmalls12e1is,
    Alle3,
    Alle3is,
    Vae3,
    Vae3is,
    Vale3,
    Vale3is,
    Ipas2e1,
    Ipas2e1is,
    Ipas2le1,
    Ipas2le1is,
}

/// A system operation that has a name.
#[derive(Clone, Copy, PartialEq, Eq)]
pub enum Operation {
    At(At),
    Cache(Cache),
    Tlbi(Tlbi),
}

/// The instructions whose operands these are.
#[derive(Clone, Copy, PartialEq, Eq)]
pub enum Group {
    At,
    Dc,
    Ic,
    Tlbi,
}

/// The operations that have a name.
pub const OPERATIONS: [Operation; 55] = [
    Operation::At(At::S1e1r),
    Operation::At(At::S1e1w),
    Operation::At(At::S1e0r),
    Operation::At(At::S1e0w),
    Operation::At(At::S1e2r),
    Operation::At(At::S1e2w),
    Operation::At(At::S12e1r),
    Operation::At(At::S12e1w),
    Operation::At(At::S12e0r),
    Operation::At(At::S12e0w),
    Operation::At(At::S1e3r),
    Operation::At(At::S1e3w),
    Operation::Cache(Cache::Zva),
    Operation::Cache(Cache::Cvac),
    Operation::Cache(Cache::Cvau),
    Operation::Cache(Cache::Civac),
    Operation::Cache(Cache::Ivac),
    Operation::Cache(Cache::Isw),
    Operation::Cache(Cache::Csw),
    Operation::Cache(Cache::Cisw),
    Operation::Cache(Cache::Ivau),
    Operation::Cache(Cache::Iallu),
    Operation::Cache(Cache::Ialluis),
    Operation::Tlbi(Tlbi::Vmalle1),
    Operation::Tlbi(Tlbi::Vmalle1is),
    Operation::Tlbi(Tlbi::Vae1),
    Operation::Tlbi(Tlbi::Vae1is),
    Operation::Tlbi(Tlbi::Aside1),
    Operation::Tlbi(Tlbi::Aside1is),
    Operation::Tlbi(Tlbi::Vaae1),
    Operation::Tlbi(Tlbi::Vaae1is),
    Operation::Tlbi(Tlbi::Vale1),
    Operation::Tlbi(Tlbi::Vale1is),
    Operation::Tlbi(Tlbi::Vaale1),
    Operation::Tlbi(Tlbi::Vaale1is),
    Operation::Tlbi(Tlbi::Alle2),
    Operation::Tlbi(Tlbi::Alle2is),
    Operation::Tlbi(Tlbi::Vae2),
    Operation::Tlbi(Tlbi::Vae2is),
    Operation::Tlbi(Tlbi::Alle1),
    Operation::Tlbi(Tlbi::Alle1is),
    Operation::Tlbi(Tlbi::Vale2),
    Operation::Tlbi(Tlbi::Vale2is),
    Operation::Tlbi(Tlbi::Vmalls12e1),
    Operation::Tlbi(Tlbi::Vmalls12e1is),
    Operation::Tlbi(Tlbi::Alle3),
    Operation::Tlbi(Tlbi::Alle3is),
    Operation::Tlbi(Tlbi::Vae3),
    Operation::Tlbi(Tlbi::Vae3is),
    Operation::Tlbi(Tlbi::Vale3),
    Operation::Tlbi(Tlbi::Vale3is),
    Operation::Tlbi(Tlbi::Ipas2e1),
    Operation::Tlbi(Tlbi::Ipas2e1is),
    Operation::Tlbi(Tlbi::Ipas2le1),
    Operation::Tlbi(Tlbi::Ipas2le1is),
];

impl At {
    fn name(self) -> &'static str {
        match self {
            At::S1e1r => "s1e1r",
            At::S1e1w => "s1e1w",
            At::S1e0r => "s1e0r",
            At::S1e0w => "s1e0w",
            At::S1e2r => "s1e2r",
            At::S1e2w => "s1e2w",
            At::S12e1r => "s12e1r",
            At::S12e1w => "s12e1w",
            At::S12e0r => "s12e0r",
            At::S12e0w => "s12e0w",
            At::S1e3r => "s1e3r",
            At::S1e3w => "s1e3w",
        }
    }
}

impl Cache {
    fn name(self) -> &'static str {
        match self {
            Cache::Zva => "zva",
            Cache::Cvac => "cvac",
            Cache::Cvau => "cvau",
            Cache::Civac => "civac",
            Cache::Ivac => "ivac",
            Cache::Isw => "isw",
            Cache::Csw => "csw",
            Cache::Cisw => "cisw",
            Cache::Ivau => "ivau",
            Cache::Iallu => "iallu",
            Cache::Ialluis => "ialluis",
        }
    }
}

impl Tlbi {
    fn name(self) -> &'static str {
        match self {
            Tlbi::Vmalle1 => "vmalle1",
            Tlbi::Vmalle1is => "vmalle1is",
            Tlbi::Vae1 => "vae1",
            Tlbi::Vae1is => "vae1is",
            Tlbi::Aside1 => "aside1",
            Tlbi::Aside1is => "aside1is",
            Tlbi::Vaae1 => "vaae1",
            Tlbi::Vaae1is => "vaae1is",
            Tlbi::Vale1 => "vale1",
            Tlbi::Vale1is => "vale1is",
            Tlbi::Vaale1 => "vaale1",
            Tlbi::Vaale1is => "vaale1is",
            Tlbi::Alle2 => "alle2",
            Tlbi::Alle2is => "alle2is",
            Tlbi::Vae2 => "vae2",
            Tlbi::Vae2is => "vae2is",
            Tlbi::Alle1 => "alle1",
            Tlbi::Alle1is => "alle1is",
            Tlbi::Vale2 => "vale2",
            Tlbi::Vale2is => "vale2is",
            Tlbi::Vmalls12e1 => "vmalls12e1",
            Tlbi::Vmalls12e1is => "vmalls12e1is",
            Tlbi::Alle3 => "alle3",
            Tlbi::Alle3is => "alle3is",
            Tlbi::Vae3 => "vae3",
            Tlbi::Vae3is => "vae3is",
            Tlbi::Vale3 => "vale3",
            Tlbi::Vale3is => "vale3is",
            Tlbi::Ipas2e1 => "ipas2e1",
            Tlbi::Ipas2e1is => "ipas2e1is",
            Tlbi::Ipas2le1 => "ipas2le1",
            Tlbi::Ipas2le1is => "ipas2le1is",
        }
    }
}

impl Group {
    /// The group that a word names, in capitals or not.
    pub fn named(word: &[u8]) -> Option<Group> {
        let groups = [Group::At, Group::Dc, Group::Ic, Group::Tlbi];
        groups
            .iter()
            .copied()
            .find(|group| word.eq_ignore_ascii_case(group.name().as_bytes()))
    }

    fn name(self) -> &'static str {
        match self {
            Group::At => "at",
            Group::Dc => "dc",
            Group::Ic => "ic",
            Group::Tlbi => "tlbi",
        }
    }

    /// The operation of the group that a word names, in capitals or not.
    pub fn operation(self, word: &[u8]) -> Option<Operation> {
        for operation in OPERATIONS {
            if operation.group() == self && word.eq_ignore_ascii_case(operation.name().as_bytes()) {
                return Some(operation);
            }
        }
        None
    }

    /// The name of one that is nearest to a word.
    pub fn nearest(self, word: &[u8]) -> &'static str {
        let mut nearest = Nearest::new(word);
        for operation in OPERATIONS {
            if operation.group() == self {
                nearest.offer(operation.name());
            }
        }
        nearest.name
    }
}

impl Operation {
    fn group(self) -> Group {
        match self {
            Operation::At(_) => Group::At,
            Operation::Cache(Cache::Ivau | Cache::Iallu | Cache::Ialluis) => Group::Ic,
            Operation::Cache(_) => Group::Dc,
            Operation::Tlbi(_) => Group::Tlbi,
        }
    }

    fn name(self) -> &'static str {
        match self {
            Operation::At(at) => at.name(),
            Operation::Cache(cache) => cache.name(),
            Operation::Tlbi(tlbi) => tlbi.name(),
        }
    }
}

impl fmt::Display for Operation {
    fn fmt<W: fmt::Write>(&self, f: &mut fmt::Formatter<W>) -> fmt::Result {
        write!(f, "{} {}", self.group().name(), self.name())
    }
}
