// The ranges of a core's address space, shown.
use crate::collect;
use crate::map::Mapped;
use cpu::Core;
use json_text::{Count, Hex, Shown};
use manual_words::memory;
use manual_words::memory::Memory;
use serde::Serialize;
use std::alloc::{AllocError, Global};
use std::fmt;
use sysreg::regs::Regime;
use walk_report::explain;
use walk_report::fields::Rights;

// So many bytes, as the largest unit that leaves no rest.
#[derive(Clone, Copy)]
struct Size(u64);

// Where the physical addresses of a range lie.
#[derive(Clone, Copy, Serialize)]
#[serde(rename_all = "lowercase")]
enum Outside {
    No,
    Partly,
    Wholly,
}

// A range: its ends, where it is mapped to, and how.
#[derive(Clone, Copy, Serialize)]
struct Row {
    va: Hex,
    last: Hex,
    pa: Hex,
    bytes: Count,
    rights: Rights,
    level: u8,
    attrindx: u8,
    sh: u8,
    ns: bool,
    every_asid: bool,
    outside_ram: Outside,
}

// A memory type that ranges name.
#[derive(Clone, Copy, Serialize)]
struct Attribute {
    attrindx: u8,
    value: Hex,
    memory: Shown<Memory>,
}

/// What the tables map at the core's level, of the untagged addresses from one to another. Shown, it is a row for each
/// range, the sum, and the memory types.
#[derive(Drop, Serialize)]
pub struct Ranges {
    va: Hex,
    last: Hex,
    el: u8,
    regime: &'static str,
    stage1: bool,
    ranges: Vec<Row>,
    pages: Count,
    memory: Vec<Attribute>,
    // the first address that was not looked at, if not all were
    next: Option<Hex>,
}

impl Outside {
    // Whether the physical addresses of a range lie in the window of so many bytes from `base` on.
    fn new(range: &Mapped, base: u64, len: u64) -> Self {
        let size = range.size();
        let last = range.pa.wrapping_add(size).wrapping_sub(1);
        let inside = |pa: u64| pa.wrapping_sub(base) < len;
        match (inside(range.pa), inside(last)) {
            (true, true) => Outside::No,
            (false, false) if base.wrapping_sub(range.pa) >= size => Outside::Wholly,
            _ => Outside::Partly,
        }
    }
}

impl Mapped {
    fn size(&self) -> u64 {
        self.last.wrapping_sub(self.first).wrapping_add(1)
    }
}

impl Row {
    fn new(range: &Mapped, regime: Regime, base: u64, len: u64) -> Self {
        let attributes = range.attributes;
        let perms = attributes.perms;
        Row {
            va: Hex(range.first),
            last: Hex(range.last),
            pa: Hex(range.pa),
            bytes: Count(range.size()),
            rights: Rights { regime, perms },
            level: attributes.level,
            attrindx: attributes.index,
            sh: attributes.sharing,
            ns: attributes.ns,
            every_asid: attributes.global,
            outside_ram: Outside::new(range, base, len),
        }
    }
}

// The memory types that the ranges name.
fn legend(alloc: Global, ranges: &[Row], mair: u64) -> Result<Vec<Attribute>, AllocError> {
    let mut types: Vec<Attribute> = Vec::new(alloc);
    for attrindx in 0..8u8 {
        if ranges.iter().any(|range| range.attrindx == attrindx) {
            let byte = memory::attribute(mair, attrindx);
            types.push(Attribute {
                attrindx,
                value: Hex(u64::from(byte)),
                memory: Shown::new(Memory::new(byte)),
            })?;
        }
    }
    Ok(types)
}

impl Ranges {
    /// Of the addresses from `from` to `to`, on a core and its window, which starts at `base`.
    pub fn new(
        alloc: Global,
        core: &Core,
        base: u64,
        ram: &[u8],
        from: u64,
        to: u64,
    ) -> Result<Self, AllocError> {
        let el = core.privilege.level;
        let regime = Regime::of_level(el);
        let mut all = Ranges {
            va: Hex(from),
            last: Hex(to),
            el,
            regime: explain::regime_name(regime),
            stage1: core.bank().stage1_on(regime),
            ranges: Vec::new(alloc),
            pages: Count(0),
            memory: Vec::new(alloc),
            next: None,
        };
        if !all.stage1 {
            return Ok(all);
        }
        let found = collect::collect(alloc, core.bank(), regime, base, ram, from, to)?;
        let mut bytes = 0u64;
        for range in &found.ranges {
            all.ranges
                .push(Row::new(range, regime, base, ram.len() as u64))?;
            bytes = bytes.wrapping_add(range.size());
        }
        all.pages = Count(bytes >> 12);
        let mair = core.sys.mair[regime.index()];
        all.memory = legend(alloc, all.ranges.as_slice(), mair)?;
        all.next = (found.last < to).then_some(Hex(found.last.wrapping_add(1)));
        Ok(all)
    }

    /// Whether all of the addresses were looked at.
    pub fn is_all(&self) -> bool {
        self.next.is_none()
    }
}

impl fmt::Display for Size {
    fn fmt<W: fmt::Write>(&self, f: &mut fmt::Formatter<W>) -> fmt::Result {
        let (shift, unit) = match self.0.trailing_zeros() {
            30.. => (30, "GiB"),
            20..30 => (20, "MiB"),
            _ => (10, "KiB"),
        };
        write!(f, "{:>5} {unit}", self.0 >> shift)
    }
}

impl fmt::Display for Row {
    fn fmt<W: fmt::Write>(&self, f: &mut fmt::Formatter<W>) -> fmt::Result {
        write!(f, "  {:016x}-{:016x}", self.va.0, self.last.0)?;
        write!(f, "  {:016x} {}", self.pa.0, Size(self.bytes.0))?;
        write!(f, "  {}  level {}", self.rights, self.level)?;
        write!(f, "  Attr{} SH={}", self.attrindx, self.sh)?;
        if self.ns {
            write!(f, " NS=1")?;
        }
        if !self.every_asid {
            write!(f, "  its ASID alone")?;
        }
        f.write_str(match self.outside_ram {
            Outside::No => "\n",
            Outside::Partly => "  partly outside RAM\n",
            Outside::Wholly => "  outside RAM\n",
        })
    }
}

impl fmt::Display for Ranges {
    fn fmt<W: fmt::Write>(&self, f: &mut fmt::Formatter<W>) -> fmt::Result {
        write!(f, "ranges from {:016x} to {:016x}", self.va.0, self.last.0)?;
        writeln!(f, " at EL{}: the regime is {}", self.el, self.regime)?;
        if !self.stage1 {
            write!(f, "stage 1 is off: below 2^44 an address")?;
            return writeln!(f, " without its tag is the physical address");
        }
        for range in &self.ranges {
            write!(f, "{range}")?;
        }
        let count = self.ranges.len();
        let word = if count == 1 { "range" } else { "ranges" };
        writeln!(f, "{count} {word}, {} pages of 4 KiB", self.pages.0)?;
        for kind in &self.memory {
            let Attribute {
                attrindx,
                value,
                memory,
            } = kind;
            writeln!(f, "  Attr{attrindx} is {:02x}: {}", value.0, memory.value)?;
        }
        match self.next {
            None => Ok(()),
            Some(next) => writeln!(
                f,
                "stopped after {:x} walks: from {:016x} on nothing was looked at",
                collect::WALKS,
                next.0
            ),
        }
    }
}
