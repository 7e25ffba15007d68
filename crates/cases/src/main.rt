#![tactic(auto)]
// The worked cases of docs/SCOPE.md on the proved walk: a table of one word at 0x1008, SCTLR_EL1.M set, TCR_EL1 =
// 25, other registers zero.
use std::{fmt, io};
use sysreg::regs::Regime;
use walk::regime::Bank;

// What a row gives: the word at 0x1008, TTBR0_EL1, the window's base, the address, and the permission bit that the
// access needs. Shown, it is how the translation ends with an empty cache, and the descriptors read.
#[derive(Clone, Copy)]
struct Row {
    word: u64,
    ttbr0: u64,
    base: u64,
    va: u64,
    need: u8,
}

// SCTLR_EL1.M set, TCR_EL1 and TTBR0_EL1 as given, other registers zero.
fn registers(tcr: u64, ttbr0: u64) -> Bank {
    Bank {
        sctlr: 1,
        tcr,
        ttbr0,
        ttbr1_el1: 0,
        scr_el3: 0,
        hcr_el2: 0,
    }
}

impl fmt::Display for Row {
    fn fmt<W: fmt::Write>(&self, f: &mut fmt::Formatter<W>) -> fmt::Result {
        let bank = registers(25, self.ttbr0);
        let va = bank.untag(Regime::El1, self.va);
        let walked = bank.walk(Regime::El1, va, self.base, &self.word.to_le_bytes());
        match walked.end {
            Ok(leaf) if leaf.perms >> (self.need % 8) & 1 == 1 => {
                write!(f, "0x{:x}", leaf.oa & !0xFFF | self.va & 0xFFF)?;
            }
            Ok(leaf) => write!(f, "fault 0x{:02x}", 12 | leaf.level % 4)?,
            Err(status) => write!(f, "fault 0x{status:02x}")?,
        }
        write!(f, "  rd={}", walked.reads)
    }
}

fn main(rt: HostRuntime) -> io::Result<()> {
    let first = Row {
        word: 0x8000_0401,
        ttbr0: 0x1000,
        base: 0x1008,
        va: 0x4000_1234,
        need: 3,
    };
    let mut row = first;
    println!(rt; "1  0x80000401, EL1 read     {row}")?;
    row.need = 0;
    println!(rt; "2  same, EL0 read           {row}")?;
    row.need = 2;
    println!(rt; "3  same, EL0 fetch          {row}")?;
    row = first;
    row.word = 0x8000_0001;
    println!(rt; "4  0x80000001               {row}")?;
    row.word = 0;
    println!(rt; "5  0                        {row}")?;
    row.word = 0x1_0000_0001;
    println!(rt; "6  0x100000001              {row}")?;
    row = first;
    row.va = 0x80_0000_0000;
    println!(rt; "7  address 0x8000000000     {row}")?;
    row = first;
    row.ttbr0 = 0x1_0000_0000;
    println!(rt; "8  TTBR0 0x100000000        {row}")?;
    row = first;
    row.base = 0x1010;
    println!(rt; "9  word outside RAM         {row}")?;
    let plain = registers(0x40_0000_0000, 0).untag(Regime::El1, 0x12FF_FFFF_FFFF_F000);
    println!(rt; "12 untag 12fffffffffff000   0x{plain:x}")
}
