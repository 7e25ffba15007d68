// The registers that a translation reads, each with its fields.
use crate::fields::bit;
use json_text::Hex;
use serde::Serialize;
use std::fmt;
use sysreg::regs::Regime;
use walk::regime::Bank;

// SCTLR_ELx.
#[derive(Clone, Copy, Serialize)]
pub(crate) struct Sctlr {
    value: Hex,
    m: u64,
    wxn: u64,
}

// What TCR_EL1 says of one range: size, granule, EPD and top byte ignore.
#[derive(Clone, Copy, Serialize)]
pub(crate) struct Half {
    tsz: u64,
    tg: &'static str,
    epd: u64,
    tbi: u64,
}

// TCR_EL1: two ranges; output size, the ASID's place and width.
#[derive(Clone, Copy, Serialize)]
pub(crate) struct Tcr {
    value: Hex,
    lower: Half,
    upper: Half,
    ips: u64,
    a1: u64,
    #[serde(rename = "as")]
    wide: u64,
}

// TCR_EL2 or TCR_EL3: one range.
#[derive(Clone, Copy, Serialize)]
pub(crate) struct SingleTcr {
    value: Hex,
    t0sz: u64,
    tg0: &'static str,
    tbi: u64,
    ps: u64,
}

// TTBR0 or TTBR1.
#[derive(Clone, Copy, Serialize)]
pub(crate) struct Ttbr {
    value: Hex,
    asid: Hex,
    base: Hex,
}

// The registers of EL1&0.
#[derive(Clone, Copy, Serialize)]
pub(crate) struct Shared {
    sctlr: Sctlr,
    tcr: Tcr,
    ttbr0: Ttbr,
    ttbr1: Ttbr,
    scr_ns: u64,
    hcr_tge: u64,
    hcr_dc: u64,
}

// The registers of EL2 or EL3.
#[derive(Clone, Copy, Serialize)]
pub(crate) struct Single {
    sctlr: Sctlr,
    tcr: SingleTcr,
    ttbr0: Ttbr,
}

/// The registers of a regime. Shown, each is a line.
#[derive(Clone, Copy, Serialize)]
#[serde(untagged)]
pub(crate) enum Registers {
    Shared(Shared),
    Single(Single),
}

fn granule(large: bool) -> &'static str {
    if large { "64K" } else { "4K" }
}

impl Sctlr {
    fn new(value: u64) -> Self {
        Sctlr {
            value: Hex(value),
            m: bit(value, 0),
            wxn: bit(value, 19),
        }
    }
}

impl Half {
    // Of range n, whose granule is large by this TG.
    fn new(tcr: u64, n: u64, large: u64) -> Self {
        let half = tcr >> (n % 2 * 16);
        Half {
            tsz: half & 63,
            tg: granule(half >> 14 & 3 == large),
            epd: bit(half, 7),
            tbi: bit(tcr, 37 + n % 2),
        }
    }
}

impl Tcr {
    fn new(value: u64) -> Self {
        Tcr {
            value: Hex(value),
            lower: Half::new(value, 0, 1),
            upper: Half::new(value, 1, 3),
            ips: value >> 32 & 7,
            a1: bit(value, 22),
            wide: bit(value, 36),
        }
    }
}

impl SingleTcr {
    fn new(value: u64) -> Self {
        SingleTcr {
            value: Hex(value),
            t0sz: value & 63,
            tg0: granule(value >> 14 & 3 == 1),
            tbi: bit(value, 20),
            ps: value >> 16 & 7,
        }
    }
}

impl Ttbr {
    fn new(value: u64) -> Self {
        Ttbr {
            value: Hex(value),
            asid: Hex(value >> 48),
            base: Hex(value & 0xFFFF_FFFF_FFFF),
        }
    }
}

impl Registers {
    pub(crate) fn new(bank: Bank, regime: Regime) -> Self {
        let (sctlr, ttbr0) = (Sctlr::new(bank.sctlr), Ttbr::new(bank.ttbr0));
        if regime.is_single() {
            let tcr = SingleTcr::new(bank.tcr);
            return Registers::Single(Single { sctlr, tcr, ttbr0 });
        }
        Registers::Shared(Shared {
            sctlr,
            tcr: Tcr::new(bank.tcr),
            ttbr0,
            ttbr1: Ttbr::new(bank.ttbr1_el1),
            scr_ns: bit(bank.scr_el3, 0),
            hcr_tge: bit(bank.hcr_el2, 27),
            hcr_dc: bit(bank.hcr_el2, 12),
        })
    }
}

impl fmt::Display for Sctlr {
    fn fmt<W: fmt::Write>(&self, f: &mut fmt::Formatter<W>) -> fmt::Result {
        let Sctlr { value, m, wxn } = *self;
        writeln!(f, "SCTLR      {:016x}  M={m} WXN={wxn}", value.0)
    }
}

impl fmt::Display for Tcr {
    fn fmt<W: fmt::Write>(&self, f: &mut fmt::Formatter<W>) -> fmt::Result {
        write!(f, "TCR        {:016x}  ", self.value.0)?;
        for (n, half) in [(0, self.lower), (1, self.upper)] {
            let Half { tsz, tg, epd, tbi } = half;
            write!(f, "T{n}SZ={tsz} TG{n}={tg} EPD{n}={epd} TBI{n}={tbi} | ")?;
        }
        writeln!(f, "IPS={} A1={} AS={}", self.ips, self.a1, self.wide)
    }
}

impl fmt::Display for SingleTcr {
    fn fmt<W: fmt::Write>(&self, f: &mut fmt::Formatter<W>) -> fmt::Result {
        let SingleTcr {
            t0sz,
            tg0,
            tbi,
            ps,
            ..
        } = *self;
        write!(f, "TCR        {:016x}  ", self.value.0)?;
        writeln!(f, "T0SZ={t0sz} TG0={tg0} TBI={tbi} PS={ps}")
    }
}

impl fmt::Display for Ttbr {
    fn fmt<W: fmt::Write>(&self, f: &mut fmt::Formatter<W>) -> fmt::Result {
        let Ttbr { value, asid, base } = *self;
        writeln!(f, "{:016x}  ASID={:x} base={:x}", value.0, asid.0, base.0)
    }
}

impl fmt::Display for Registers {
    fn fmt<W: fmt::Write>(&self, f: &mut fmt::Formatter<W>) -> fmt::Result {
        match self {
            Registers::Shared(all) => {
                let (ns, tge, dc) = (all.scr_ns, all.hcr_tge, all.hcr_dc);
                write!(f, "{}{}TTBR0      {}", all.sctlr, all.tcr, all.ttbr0)?;
                writeln!(
                    f,
                    "TTBR1      {}SCR.NS={ns} HCR.TGE={tge} HCR.DC={dc}",
                    all.ttbr1
                )
            }
            Registers::Single(all) => {
                write!(f, "{}{}TTBR0      {}", all.sctlr, all.tcr, all.ttbr0)
            }
        }
    }
}
