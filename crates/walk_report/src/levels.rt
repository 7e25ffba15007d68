// A walk that can be shown step by step: the tables that the walk reads, and its answer.
ghost use Rattle.std.specs.Prelude.{◌≡◌, length};
ghost use Rattle.word.specs.Ram.{word_at};
ghost use Rattle.walk.specs.Walk.{fetches_of, walk_of};
ghost use Rattle.walk_report.specs.Levels.{level_at, level_of};

use crate::fields::{Faulted, Rights, bit};
use json_text::{Count, Hex};
use serde::Serialize;
use std::{array, fmt};
use sysreg::regs::Regime;
use walk::level::{Leaf, Step, Walked};
use walk::regime::Bank;
use walk::table::Visit;
use word::ram;
use word::ram::Width;

// The size of a leaf's page or block, by the lowest bit of the address that it leaves alone.
fn size(lsb: u64) -> &'static str {
    match lsb {
        12 => "page of 4 KiB",
        16 => "page of 64 KiB",
        21 => "block of 2 MiB",
        29 => "block of 512 MiB",
        _ => "block of 1 GiB",
    }
}

// What a table descriptor says of all below it. EL2 and EL3 have one right to execute.
#[derive(Clone, Copy, Serialize)]
struct Table {
    at: Hex,
    aptable: u64,
    #[serde(skip_serializing_if = Option::is_none)]
    xntable: Option<u64>,
    #[serde(skip_serializing_if = Option::is_none)]
    uxntable: Option<u64>,
    #[serde(skip_serializing_if = Option::is_none)]
    pxntable: Option<u64>,
    nstable: u64,
}

// A block or a page, and the attributes of its descriptor.
#[derive(Clone, Copy, Serialize)]
struct Mapped {
    size: &'static str,
    pa: Hex,
    outside_ram: bool,
    attrindx: u64,
    ns: u64,
    ap: u64,
    sh: u64,
    af: u64,
    ng: u64,
    #[serde(skip_serializing_if = Option::is_none)]
    xn: Option<u64>,
    #[serde(skip_serializing_if = Option::is_none)]
    pxn: Option<u64>,
    #[serde(skip_serializing_if = Option::is_none)]
    uxn: Option<u64>,
}

// What a descriptor leads to.
#[derive(Clone, Copy, Serialize)]
#[serde(rename_all = "lowercase")]
enum Leads {
    Table(Table),
    Leaf(Mapped),
    Fault(Faulted),
}

// One level: the table, the index, the descriptor's address and value, and what it leads to.
#[derive(Clone, Copy, Serialize)]
struct Level {
    level: u64,
    table: Hex,
    index: Count,
    at: Hex,
    // none where it lies outside RAM
    descriptor: Option<Hex>,
    to: Leads,
}

// The range that an address lies in.
#[derive(Clone, Copy, Serialize)]
struct Range {
    half: &'static str,
    ttbr: u8,
    base: Hex,
    txsz: u64,
    granule_kib: u64,
    output_bits: u64,
    walks_disabled: bool,
}

// The rights of the leaf, and for whom it is.
#[derive(Clone, Copy, Serialize)]
struct Allowed {
    rights: Rights,
    every_asid: bool,
}

// Why a walk reads no table.
#[derive(Clone, Copy, Serialize)]
struct NotBegun {
    #[serde(flatten)]
    fault: Faulted,
    why: &'static str,
}

/// A walk and its answer. Shown, it is the range and the tables that the walk reads, each a line; then the rights, or
/// where it reads no table, why.
#[derive(Clone, Copy, Serialize)]
pub struct Steps {
    range: Range,
    #[serde(serialize_with = json_text::present)]
    levels: [Option<Level>; 4],
    #[serde(skip_serializing_if = Option::is_none)]
    allowed: Option<Allowed>,
    #[serde(skip_serializing_if = Option::is_none)]
    not_begun: Option<NotBegun>,
    #[serde(skip)]
    pub answer: Walked,
    /// how many descriptors the walk reads
    pub reads: u8,
}

impl Table {
    fn new(at: u64, desc: u64, regime: Regime) -> Self {
        let (single, xn) = (regime.is_single(), bit(desc, 60));
        Table {
            at: Hex(at),
            aptable: desc >> 61 & 3,
            xntable: single.then_some(xn),
            uxntable: (!single).then_some(xn),
            pxntable: (!single).then_some(bit(desc, 59)),
            nstable: bit(desc, 63),
        }
    }
}

impl Mapped {
    fn new(lsb: u64, leaf: Leaf, inside: bool, regime: Regime) -> Self {
        let (desc, single) = (leaf.desc, regime.is_single());
        Mapped {
            size: size(lsb),
            pa: Hex(leaf.oa),
            outside_ram: !inside,
            attrindx: desc >> 2 & 7,
            ns: bit(desc, 5),
            ap: desc >> 6 & 3,
            sh: desc >> 8 & 3,
            af: bit(desc, 10),
            ng: bit(desc, 11),
            xn: single.then_some(bit(desc, 54)),
            pxn: (!single).then_some(bit(desc, 53)),
            uxn: (!single).then_some(bit(desc, 54)),
        }
    }
}

impl Level {
    fn new(visit: Visit, regime: Regime, base: u64, ram: &[u8]) -> Self {
        let Visit { state, at, step } = visit;
        let read = ram::read(base, ram, Width::Double, at);
        let to = match step {
            Step::Next(next) => Leads::Table(Table::new(next.table, read.unwrap_or(0), regime)),
            Step::Leaf(leaf) => {
                let inside = ram::inside(base, ram.len() as u64, 1, leaf.oa);
                Leads::Leaf(Mapped::new(state.lsb, leaf, inside, regime))
            }
            Step::Fault(status) => Leads::Fault(Faulted::new(status)),
        };
        Level {
            level: u64::from(state.level),
            table: Hex(state.table),
            index: Count(at.wrapping_sub(state.table) / 8),
            at: Hex(at),
            descriptor: read.map(Hex),
            to,
        }
    }
}

// The level of a row whose descriptor lies at an address; else what the rows after it have.
fn level_of(at: u64, row: Option<Level>, after: Option<u64>) -> Option<u64>
    ensures { result ≡ level_of at row after }
{
    match row {
        Some(row) if row.at.0 == at => Some(row.level),
        _ => after,
    }
}

impl Steps {
    /// The level of the first descriptor that lies at an address, of those that the walk reads.
    pub fn level_at(&self, at: u64) -> Option<u64>
        ensures { result ≡ level_at at self.now.levels }
    {
        let rows = self.levels;
        let last = level_of(at, rows[2], level_of(at, rows[3], None));
        level_of(at, rows[0], level_of(at, rows[1], last))
    }
}

// The levels that a walk visits.
fn levels(bank: Bank, regime: Regime, va: u64, base: u64, ram: &[u8]) -> [Option<Level>; 4] {
    array::from_fn(|n| {
        let visit = bank.visit(regime, va, base, ram, (n % 4) as u8)?;
        Some(Level::new(visit, regime, base, ram))
    })
}

impl Range {
    fn new(bank: Bank, regime: Regime, va: u64) -> Self {
        let range = bank.range(regime, va);
        Range {
            half: if range.upper { "upper" } else { "lower" },
            ttbr: u8::from(range.upper),
            base: Hex(range.baseregister),
            txsz: u64::from(range.txsz),
            granule_kib: if range.largegrain { 64 } else { 4 },
            output_bits: u64::from(bank.params(regime, range).outputsize),
            walks_disabled: range.disabled,
        }
    }
}

impl NotBegun {
    fn new(status: u8, disabled: bool) -> Self {
        NotBegun {
            fault: Faulted::new(status),
            why: match status {
                4 if disabled => "walks of this range are disabled (EPD)",
                4 => "the address is out of range",
                _ => "the table lies beyond the output size",
            },
        }
    }
}

// Bits that some regimes have, each with its name.
fn bits<W: fmt::Write>(
    f: &mut fmt::Formatter<W>,
    bits: [(&str, Option<u64>); 3],
    of: &str,
) -> fmt::Result {
    for (name, bit) in bits {
        if let Some(bit) = bit {
            write!(f, " {name}{of}={bit}")?;
        }
    }
    Ok(())
}

impl fmt::Display for Table {
    fn fmt<W: fmt::Write>(&self, f: &mut fmt::Formatter<W>) -> fmt::Result {
        write!(f, "table at {:x}  APTable={}", self.at.0, self.aptable)?;
        let each = [
            ("XN", self.xntable),
            ("UXN", self.uxntable),
            ("PXN", self.pxntable),
        ];
        bits(f, each, "Table")?;
        writeln!(f, " NSTable={}", self.nstable)
    }
}

impl Mapped {
    // What is said where the output lies outside RAM.
    fn place(&self) -> &'static str {
        if self.outside_ram { " outside RAM" } else { "" }
    }
}

impl fmt::Display for Mapped {
    fn fmt<W: fmt::Write>(&self, f: &mut fmt::Formatter<W>) -> fmt::Result {
        let Mapped {
            size,
            attrindx,
            ns,
            ap,
            sh,
            af,
            ng,
            ..
        } = *self;
        writeln!(f, "{size}, output {:x}{}", self.pa.0, self.place())?;
        write!(
            f,
            "           AttrIndx={attrindx} NS={ns} AP={ap} SH={sh} AF={af} nG={ng}"
        )?;
        bits(
            f,
            [("XN", self.xn), ("PXN", self.pxn), ("UXN", self.uxn)],
            "",
        )?;
        writeln!(f)
    }
}

impl fmt::Display for Level {
    fn fmt<W: fmt::Write>(&self, f: &mut fmt::Formatter<W>) -> fmt::Result {
        let (table, index) = (self.table.0, self.index.0);
        write!(
            f,
            "level {}    table {table:x}[{index:x}]  at {:x}  ",
            self.level, self.at.0
        )?;
        match self.descriptor {
            Some(desc) => write!(f, "{:016x}  ", desc.0)?,
            None => f.write_str("outside RAM  ")?,
        }
        match &self.to {
            Leads::Table(table) => write!(f, "{table}"),
            Leads::Leaf(leaf) => write!(f, "{leaf}"),
            Leads::Fault(fault) => writeln!(f, "{fault}"),
        }
    }
}

impl fmt::Display for Range {
    fn fmt<W: fmt::Write>(&self, f: &mut fmt::Formatter<W>) -> fmt::Result {
        let Range {
            half,
            ttbr,
            base,
            ..
        } = *self;
        write!(
            f,
            "range      {half} (TTBR{ttbr}) {:016x}, TxSZ {}",
            base.0, self.txsz
        )?;
        write!(f, ", granule {} KiB", self.granule_kib)?;
        write!(f, ", output of {} bits", self.output_bits)?;
        if self.walks_disabled {
            write!(f, ", walks disabled (EPD)")?;
        }
        writeln!(f)
    }
}

impl fmt::Display for Allowed {
    fn fmt<W: fmt::Write>(&self, f: &mut fmt::Formatter<W>) -> fmt::Result {
        let whom = if self.every_asid {
            "every ASID"
        } else {
            "its ASID alone"
        };
        writeln!(f, "rights     {}  for {whom}", self.rights)
    }
}

impl fmt::Display for Steps {
    fn fmt<W: fmt::Write>(&self, f: &mut fmt::Formatter<W>) -> fmt::Result {
        write!(f, "{}", self.range)?;
        for level in self.levels.iter().flatten() {
            write!(f, "{level}")?;
        }
        if let Some(allowed) = &self.allowed {
            write!(f, "{allowed}")?;
        }
        if let Some(NotBegun { fault, why }) = &self.not_begun {
            writeln!(f, "start      {fault}: {why}")?;
        }
        Ok(())
    }
}

/// The walk of `va`, which is untagged, with its steps. It is the walk that translations make.
pub fn walk(bank: Bank, regime: Regime, va: u64, base: u64, ram: &[u8]) -> Steps
    ensures answer { result.answer ≡ walk_of bank regime va (word_at base ram.now 8) }
    ensures reads { result.reads ≡ length (fetches_of bank regime va (word_at base ram.now 8)) }
{
    let walked = bank.walk(regime, va, base, ram);
    let range = Range::new(bank, regime, va);
    let levels = levels(bank, regime, va, base, ram);
    let (allowed, not_begun) = match walked.end {
        Ok(Leaf { perms, global, .. }) => (
            Some(Allowed {
                rights: Rights { regime, perms },
                every_asid: global,
            }),
            None,
        ),
        Err(status) if levels[0].is_none() => {
            (None, Some(NotBegun::new(status, range.walks_disabled)))
        }
        Err(_) => (None, None),
    };
    Steps {
        range,
        levels,
        allowed,
        not_begun,
        answer: walked.end,
        reads: walked.reads,
    }
}
