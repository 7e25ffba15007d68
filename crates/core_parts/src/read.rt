// Readers. None changes the core.
ghost use Rattle.std.specs.Prelude.{◌≡◌};
ghost use Rattle.word.specs.Bits.{flag};
ghost use Rattle.sysreg.specs.Regs.{reg_at};
ghost use Rattle.exception.specs.Pstate.{spsr_of};
ghost use Rattle.tlb.specs.Tlb.{entry_at, hint_at, tally_at};
ghost use Rattle.cpu.specs.Core.{reg_of};
ghost use Rattle.core_parts.specs.Read.{held_by, register_of, number_found, value_found, pending_words, entry_words};
ghost use Rattle.core_parts.specs.Read.{hint_words, fetch_words};

use cpu::Core;
use sysreg::encoding;
use sysreg::regs::{Control, Register, SysRegs};
use tlb::Inval;
use tlb::count::Tally;
use tlb::entry::Entry;
use tlb::hint::{Hint, NO_HINT};
use word::bits;

// What a register holds.
fn reg_at(control: &Control, sys: &SysRegs, register: Register) -> u64
    ensures { result ≡ reg_at control.now sys.now register }
{
    match register {
        Register::Sctlr(r) => control.sctlr[r.index()],
        Register::Tcr(r) => control.tcr[r.index()],
        Register::Ttbr0(r) => control.ttbr0[r.index()],
        Register::Ttbr1 => control.ttbr1_el1,
        Register::Scr => control.scr_el3,
        Register::Hcr => control.hcr_el2,
        Register::Mair(r) => sys.mair[r.index()],
        Register::Vbar(r) => sys.vbar[r.index()],
        Register::Elr(r) => sys.elr[r.index()],
        Register::Spsr(r) => sys.spsr[r.index()],
        Register::Esr(r) => sys.esr[r.index()],
        Register::Far(r) => sys.far[r.index()],
        Register::Vpidr => sys.vpidr_el2,
        Register::Vmpidr => sys.vmpidr_el2,
        Register::Par => sys.par_el1,
    }
}

/// The register that a key names, if it names one.
#[tactic(auto, unfolding(crate::specs::Read::register_of))]
pub fn register_of(core: &Core, key: u64) -> Option<u64>
    ensures { result ≡ register_of core.now key }
{
    if key < 0x1_0000_0000 {
        match encoding::named(key as u32) {
            Some(register) => Some(reg_at(&core.control, &core.sys, register)),
            None => None,
        }
    } else {
        None
    }
}

/// The same by a number: 0, and the value in `ans`; 6 where the key names none, and `ans` stays.
pub fn register(core: &Core, key: u64, ans: &mut u64) -> u64
    ensures number { result ≡ number_found (register_of core.now key) }
    ensures value { ans.new ≡ value_found (register_of core.now key) ans.old }
{
    match register_of(core, key) {
        Some(value) => {
            *ans = value;
            0
        }
        None => 6,
    }
}

/// The present level.
pub fn level(core: &Core) -> u64
    ensures { result ≡ core.now.privilege.level }
{
    let privilege = core.privilege;
    privilege.level as u64
}

/// 1 where accesses are marked unprivileged, or 0.
pub fn mark(core: &Core) -> u64
    ensures { result ≡ flag core.now.privilege.unprivileged 1 }
{
    bits::flag_word(core.privilege.unprivileged)
}

/// PSTATE as an SPSR holds it: NZCV, DAIF, the level and SP.
pub fn pstate(core: &Core) -> u64
    ensures { result ≡ spsr_of core.now.privilege.level core.now.flags }
{
    core.flags.pstate(core.privilege.level)
}

/// A general register, X0 to X30; all others are zero.
pub fn general(core: &Core, number: u64) -> u64
    ensures { result ≡ reg_of core.now number }
{
    core.reg(number)
}

/// The PC.
pub fn pc(core: &Core) -> u64
    ensures { result ≡ core.now.pc }
{
    core.pc
}

/// The physical address of the last load that was translated.
pub fn last_pa(core: &Core) -> u64
    ensures { result ≡ core.now.last_pa }
{
    core.last_pa
}

/// The physical address of the last external abort.
pub fn abort_pa(core: &Core) -> u64
    ensures { result ≡ core.now.abort_pa }
{
    core.abort_pa
}

// What was counted at a level, 0 past the last.
#[tactic(auto, using(crate::proofs::Ends::past_last))]
fn tally(core: &Core, level: u64) -> Tally
    ensures { result ≡ tally_at core.now.tlb level }
{
    let levels: &[Tally] = &core.tlb.levels;
    let at = level as usize;
    if at < levels.len() {
        levels[at]
    } else {
        Tally { hits: 0, walks: 0 }
    }
}

/// Translations made at a level that an entry of the cache answered; 0 for a level above 3.
pub fn hits(core: &Core, level: u64) -> u64
    ensures { result ≡ (tally_at core.now.tlb level).hits }
{
    tally(core, level).hits
}

/// Walks made at a level, however they ended; 0 for a level above 3.
pub fn walks(core: &Core, level: u64) -> u64
    ensures { result ≡ (tally_at core.now.tlb level).walks }
{
    tally(core, level).walks
}

/// Flushes of the whole cache.
pub fn flushes(core: &Core) -> u64
    ensures { result ≡ core.now.tlb.flushes }
{
    core.tlb.flushes
}

/// Invalidations of a page.
pub fn drops(core: &Core) -> u64
    ensures { result ≡ core.now.tlb.drops }
{
    core.tlb.drops
}

/// Moves whenever a translation that was looked up may no longer hold.
pub fn epoch(core: &Core) -> u64
    ensures { result ≡ core.now.tlb.epoch }
{
    core.tlb.epoch
}

/// The cache's generation: a flush moves it, and entries of another are dead.
pub fn generation(core: &Core) -> u64
    ensures { result ≡ core.now.tlb.generation }
{
    core.tlb.generation as u64
}

/// The ASID in force.
pub fn asid(core: &Core) -> u64
    ensures { result ≡ core.now.tlb.asid }
{
    core.tlb.asid as u64
}

// What is pending, in two words.
fn pending_words(pending: Option<Inval>) -> [u64; 2]
    ensures { result ≡ pending_words pending }
{
    match pending {
        None => [0, 0],
        Some(Inval::All) => [1, 0],
        Some(Inval::Page(page)) => [2, page],
        Some(Inval::Asid(asid)) => [3, asid as u64],
    }
}

/// What the other cores are to drop, in two words: 0 nothing, 1 all, 2 a page, 3 an ASID; and the page or the ASID.
pub fn pending(core: &Core, out: &mut [u64; 2])
    ensures { out.new ≡ pending_words core.now.tlb.broadcast }
{
    *out = pending_words(core.tlb.broadcast);
}

fn entry_words(entry: Entry) -> [u64; 7]
    ensures { result ≡ entry_words entry }
{
    [
        entry.tag,
        entry.generation as u64,
        entry.perms as u64,
        entry.level as u64,
        bits::flag_word(entry.global),
        entry.asid as u64,
        entry.pa,
    ]
}

// The entry in a slot, blank past the last.
#[tactic(auto, using(crate::proofs::Ends::past_last))]
fn entry_in(core: &Core, slot: u64) -> Entry
    ensures { result ≡ entry_at core.now.tlb slot }
{
    let entries: &[Entry] = &core.tlb.entries;
    let at = slot as usize;
    if at < entries.len() {
        entries[at]
    } else {
        Entry::default()
    }
}

/// The entry in a slot, in seven words: tag, generation, permissions, level, 1 where it is for every ASID, ASID,
/// physical page. Past the last a blank one.
pub fn entry(core: &Core, slot: u64, out: &mut [u64; 7])
    ensures { out.new ≡ entry_words (entry_at core.now.tlb slot) }
{
    *out = entry_words(entry_in(core, slot));
}

// The data hint in a slot, none past the last.
#[tactic(auto, using(crate::proofs::Ends::past_last))]
fn hint_in(core: &Core, slot: u64) -> Hint
    ensures { result ≡ hint_at core.now.tlb slot }
{
    let hints: &[Hint] = &core.tlb.hints;
    let at = slot as usize;
    if at < hints.len() { hints[at] } else { NO_HINT }
}

/// The data hint in a slot, in two words: key and physical page. Past the last none.
pub fn hint(core: &Core, slot: u64, out: &mut [u64; 2])
    ensures { out.new ≡ hint_words (hint_at core.now.tlb slot) }
{
    let hint = hint_in(core, slot);
    *out = [hint.key, hint.pa];
}

/// The fetch hint, in four words: 1 where there is one, page, level, physical page; zeros where there is none.
pub fn fetch_hint(core: &Core, out: &mut [u64; 4])
    ensures { out.new ≡ fetch_words core.now.tlb.fetch }
{
    *out = match core.tlb.fetch {
        None => [0, 0, 0, 0],
        Some(hint) => [1, hint.page, hint.level as u64, hint.pa],
    };
}
