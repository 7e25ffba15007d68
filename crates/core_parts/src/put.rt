// What an emulator sets beside the calls: each changes its part and nothing else.
ghost use Rattle.std.specs.Prelude.{◌≡◌, map};
ghost use Rattle.core_parts.specs.Read.{pending_words};
ghost use Rattle.core_parts.specs.Put.{moved, number_restamped, restamped, with_pc, flags_in, with_flags};
ghost use Rattle.core_parts.specs.Put.{without_pending, inval_named, received, number_received};

use crate::read;
use cpu::Core;
use exception::flags::Flags;
use tlb::Inval;
use tlb::entry::Entry;

/// The PC: an exception that is taken saves it.
pub fn pc(core: &mut Core, pc: u64)
    ensures { core.new ≡ with_pc core.old pc }
{
    core.pc = pc;
}

// NZCV, DAIF and SP of an SPSR's word.
fn flags_in(psr: u64) -> Flags
    ensures { result ≡ flags_in psr }
{
    Flags {
        nzcv: (psr & 0xF000_0000) as u32,
        daif: (psr & 0x3C0) as u32,
        spsel: psr % 2 == 1,
    }
}

/// PSTATE by an SPSR's word: NZCV, DAIF and SP are set by it, the level is not.
pub fn pstate(core: &mut Core, psr: u64)
    ensures { core.new ≡ with_flags core.old psr }
{
    core.flags = flags_in(psr);
}

/// What the other cores are to drop, as [`read::pending`] gives it; afterwards nothing is pending.
pub fn take_pending(core: &mut Core, out: &mut [u64; 2])
    ensures words { out.new ≡ pending_words core.old.tlb.broadcast }
    ensures core { core.new ≡ without_pending core.old }
{
    read::pending(core, out);
    core.tlb.broadcast = None;
}

fn inval_named(kind: u64, value: u64) -> Option<Inval>
    ensures { result ≡ inval_named kind value }
{
    match kind {
        1 => Some(Inval::All),
        2 => Some(Inval::Page(value)),
        3 => {
            if value < 0x1_0000 {
                Some(Inval::Asid(value as u16))
            } else {
                None
            }
        }
        _ => None,
    }
}

/// Another core's broadcast, in its two words: this core drops the same. 0; or 64 where they name nothing, and
/// nothing changes.
pub fn receive(core: &mut Core, kind: u64, value: u64) -> u64
    ensures number { result ≡ number_received (inval_named kind value) }
    ensures core { core.new ≡ received core.old (inval_named kind value) }
{
    match inval_named(kind, value) {
        Some(what) => {
            core.tlb.invalidate(what);
            0
        }
        None => 64,
    }
}

// An entry when the cache takes another generation: one that is live stays live, any other goes.
fn moved(entry: Entry, from: u32, to: u32) -> Entry
    ensures { result ≡ moved from to entry }
{
    if entry.generation == from {
        Entry {
            generation: to,
            ..entry
        }
    } else {
        Entry::default()
    }
}

#[tactic(auto, using(tlb::proofs::Cells::sweep))]
fn move_entries(entries: &mut [Entry; 1024], from: u32, to: u32)
    ensures { entries.new ≡ map (moved from to) entries.old }
{
    for e in entries.iter_mut() {
        *e = moved(*e, from, to);
    }
}

/// The cache's generation: the entries that are live stay live, the others go, and the hints stay. 0; or 64 where
/// no 32 bits hold it, and nothing changes.
pub fn generation(core: &mut Core, generation: u64) -> u64
    ensures number { result ≡ number_restamped generation }
    ensures core { core.new ≡ restamped core.old generation }
{
    if generation < 0x1_0000_0000 {
        let from = core.tlb.generation;
        let to = generation as u32;
        move_entries(&mut core.tlb.entries, from, to);
        core.tlb.generation = to;
        0
    } else {
        64
    }
}
