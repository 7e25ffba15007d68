// The small parts of a core, read among its words.
ghost use Rattle.std.specs.Prelude.{◌≡◌, ◌+◌, ◌<◌};
ghost use Rattle.sysreg.specs.Regs.{levels};
ghost use Rattle.saved.specs.CoreOf.{word, level_in, control_in, sys_in, flags_in, privilege_in, tally_in, tallies_in};
ghost use Rattle.saved.specs.CoreOf.{pending_of, fetch_in, hint_in, entry_in};
ghost use Rattle.saved.specs.Places.{PENDING, PENDING-VALUE};

use crate::place;
use crate::place::Saved;
use exception::flags::Flags;
use sysreg::regs::{Control, SysRegs};
use tlb::Inval;
use tlb::access::Privilege;
use tlb::count::Tally;
use tlb::entry::Entry;
use tlb::hint::{FetchHint, Hint};

pub fn control_at(words: &Saved) -> Control
    ensures { result ≡ control_in (word words.now) }
{
    Control {
        sctlr: levels_at(words, place::SCTLR),
        tcr: levels_at(words, place::TCR),
        ttbr0: levels_at(words, place::TTBR0),
        ttbr1_el1: words[place::TTBR1_EL1],
        scr_el3: words[place::SCR_EL3],
        hcr_el2: words[place::HCR_EL2],
    }
}

pub fn sys_at(words: &Saved) -> SysRegs
    ensures { result ≡ sys_in (word words.now) }
{
    SysRegs {
        mair: levels_at(words, place::MAIR),
        vbar: levels_at(words, place::VBAR),
        elr: levels_at(words, place::ELR),
        spsr: levels_at(words, place::SPSR),
        esr: levels_at(words, place::ESR),
        far: levels_at(words, place::FAR),
        vpidr_el2: words[place::VPIDR_EL2],
        vmpidr_el2: words[place::VMPIDR_EL2],
        par_el1: words[place::PAR_EL1],
    }
}

// The registers of EL1, EL2 and EL3, three words from a place on.
fn levels_at(words: &Saved, place: usize) -> [u64; 4]
    requires { place < 5211 }
    ensures { result ≡ levels (word words.now place) (word words.now (place + 1)) (word words.now (place + 2)) }
{
    [0, words[place], words[place + 1], words[place + 2]]
}

pub fn flags_at(words: &Saved) -> Flags
    ensures { result ≡ flags_in (word words.now) }
{
    Flags {
        nzcv: (words[place::NZCV] % 0x1_0000_0000) as u32,
        daif: (words[place::DAIF] % 0x1_0000_0000) as u32,
        spsel: words[place::SPSEL] == 1,
    }
}

// A level that no byte holds is 255, which check 1 refuses like every level above 3.
fn level_of(word: u64) -> u8
    ensures { result ≡ level_in word }
{
    if word < 256 { word as u8 } else { 255 }
}

pub fn privilege_at(words: &Saved) -> Privilege
    ensures { result ≡ privilege_in (word words.now) }
{
    Privilege {
        level: level_of(words[place::LEVEL]),
        unprivileged: words[place::UNPRIVILEGED] == 1,
    }
}

fn tally_at(words: &Saved, level: usize) -> Tally
    requires { level < 4 }
    ensures { result ≡ tally_in (word words.now) level }
{
    Tally {
        hits: words[place::LEVEL_HITS + level],
        walks: words[place::LEVEL_WALKS + level],
    }
}

pub fn tallies_at(words: &Saved) -> [Tally; 4]
    ensures { result ≡ tallies_in (word words.now) }
{
    [
        tally_at(words, 0),
        tally_at(words, 1),
        tally_at(words, 2),
        tally_at(words, 3),
    ]
}

pub fn pending_at(words: &Saved) -> Option<Inval>
    ensures { result ≡ pending_of (word words.now PENDING) (word words.now PENDING-VALUE) }
{
    let value = words[place::PENDING_VALUE];
    match words[place::PENDING] {
        1 => Some(Inval::All),
        2 => Some(Inval::Page(value)),
        3 => Some(Inval::Asid((value % 0x1_0000) as u16)),
        _ => None,
    }
}

pub fn fetch_at(words: &Saved) -> Option<FetchHint>
    ensures { result ≡ fetch_in (word words.now) }
{
    (words[place::FETCH] == 1).then_some(FetchHint {
        page: words[place::FETCH_PAGE],
        level: (words[place::FETCH_LEVEL] % 256) as u8,
        pa: words[place::FETCH_PA],
    })
}

pub(crate) fn hint_at(words: &Saved, i: usize) -> Hint
    requires { i < 512 }
    ensures { result ≡ hint_in (word words.now) i }
{
    Hint {
        key: words[place::HINTS + i * 2],
        pa: words[place::HINT_PA + i * 2],
    }
}

pub(crate) fn entry_at(words: &Saved, j: usize) -> Entry
    requires { j < 1024 }
    ensures { result ≡ entry_in (word words.now) j }
{
    let attributes = words[place::ENTRY_ATTRIBUTES + j * 4];
    Entry {
        tag: words[place::ENTRIES + j * 4],
        generation: (words[place::ENTRY_GENERATION + j * 4] % 0x1_0000_0000) as u32,
        perms: (attributes % 256) as u8,
        level: (attributes / 256 % 256) as u8,
        global: attributes / 65536 % 2 == 1,
        asid: (attributes / 0x1_0000_0000 % 0x1_0000) as u16,
        pa: words[place::ENTRY_PA + j * 4],
    }
}
