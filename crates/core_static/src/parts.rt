// The parts of a core by name.
ghost use Rattle.std.specs.Prelude.{◌≡◌};
ghost use Rattle.word.specs.Bits.{flag};
ghost use Rattle.exception.specs.Pstate.{spsr_of};
ghost use Rattle.tlb.specs.Tlb.{entry_at, hint_at, tally_at};
ghost use Rattle.cpu.specs.Core.{reg_of};
ghost use Rattle.core_parts.specs.Read.{register_of, number_found, value_found, pending_words, entry_words, hint_words};
ghost use Rattle.core_parts.specs.Read.{fetch_words};
ghost use Rattle.core_parts.specs.Put.{number_restamped, restamped, with_pc, with_flags, without_pending, inval_named};
ghost use Rattle.core_parts.specs.Put.{received, number_received};

use core_parts::{put, read};
use handle::Handle;

/// A register by its key: 0, and its value in `ans`; 6 where the key names none, and `ans` stays.
#[unsafe(no_mangle)]
pub extern "C" fn a72_get_register(handle: &mut Handle, key: u64, ans: &mut u64) -> u64
    ensures number { result ≡ number_found (register_of handle.old.core key) }
    ensures value { ans.new ≡ value_found (register_of handle.old.core key) ans.old }
    ensures unchanged { handle.new.core ≡ handle.old.core }
{
    read::register(handle.core(), key, ans)
}

/// The present level.
#[unsafe(no_mangle)]
pub extern "C" fn a72_get_level(handle: &mut Handle) -> u64
    ensures value { result ≡ handle.old.core.privilege.level }
    ensures unchanged { handle.new.core ≡ handle.old.core }
{
    read::level(handle.core())
}

/// 1 where accesses are marked unprivileged, or 0.
#[unsafe(no_mangle)]
pub extern "C" fn a72_get_unprivileged(handle: &mut Handle) -> u64
    ensures value { result ≡ flag handle.old.core.privilege.unprivileged 1 }
    ensures unchanged { handle.new.core ≡ handle.old.core }
{
    read::mark(handle.core())
}

/// PSTATE as an SPSR holds it.
#[unsafe(no_mangle)]
pub extern "C" fn a72_get_pstate(handle: &mut Handle) -> u64
    ensures value { result ≡ spsr_of handle.old.core.privilege.level handle.old.core.flags }
    ensures unchanged { handle.new.core ≡ handle.old.core }
{
    read::pstate(handle.core())
}

/// A general register, X0 to X30; all others are zero.
#[unsafe(no_mangle)]
pub extern "C" fn a72_get_general(handle: &mut Handle, number: u64) -> u64
    ensures value { result ≡ reg_of handle.old.core number }
    ensures unchanged { handle.new.core ≡ handle.old.core }
{
    read::general(handle.core(), number)
}

/// The PC.
#[unsafe(no_mangle)]
pub extern "C" fn a72_get_pc(handle: &mut Handle) -> u64
    ensures value { result ≡ handle.old.core.pc }
    ensures unchanged { handle.new.core ≡ handle.old.core }
{
    read::pc(handle.core())
}

/// The physical address of the last load that was translated.
#[unsafe(no_mangle)]
pub extern "C" fn a72_get_last_pa(handle: &mut Handle) -> u64
    ensures value { result ≡ handle.old.core.last_pa }
    ensures unchanged { handle.new.core ≡ handle.old.core }
{
    read::last_pa(handle.core())
}

/// The physical address of the last external abort.
#[unsafe(no_mangle)]
pub extern "C" fn a72_get_abort_pa(handle: &mut Handle) -> u64
    ensures value { result ≡ handle.old.core.abort_pa }
    ensures unchanged { handle.new.core ≡ handle.old.core }
{
    read::abort_pa(handle.core())
}

/// Translations made at a level that an entry of the cache answered; 0 for a level above 3.
#[unsafe(no_mangle)]
pub extern "C" fn a72_get_hits(handle: &mut Handle, level: u64) -> u64
    ensures value { result ≡ (tally_at handle.old.core.tlb level).hits }
    ensures unchanged { handle.new.core ≡ handle.old.core }
{
    read::hits(handle.core(), level)
}

/// Walks made at a level; 0 for a level above 3.
#[unsafe(no_mangle)]
pub extern "C" fn a72_get_walks(handle: &mut Handle, level: u64) -> u64
    ensures value { result ≡ (tally_at handle.old.core.tlb level).walks }
    ensures unchanged { handle.new.core ≡ handle.old.core }
{
    read::walks(handle.core(), level)
}

/// Flushes of the whole cache.
#[unsafe(no_mangle)]
pub extern "C" fn a72_get_flushes(handle: &mut Handle) -> u64
    ensures value { result ≡ handle.old.core.tlb.flushes }
    ensures unchanged { handle.new.core ≡ handle.old.core }
{
    read::flushes(handle.core())
}

/// Invalidations of a page.
#[unsafe(no_mangle)]
pub extern "C" fn a72_get_drops(handle: &mut Handle) -> u64
    ensures value { result ≡ handle.old.core.tlb.drops }
    ensures unchanged { handle.new.core ≡ handle.old.core }
{
    read::drops(handle.core())
}

/// Moves whenever a translation that was looked up may no longer hold.
#[unsafe(no_mangle)]
pub extern "C" fn a72_get_epoch(handle: &mut Handle) -> u64
    ensures value { result ≡ handle.old.core.tlb.epoch }
    ensures unchanged { handle.new.core ≡ handle.old.core }
{
    read::epoch(handle.core())
}

/// The cache's generation.
#[unsafe(no_mangle)]
pub extern "C" fn a72_get_generation(handle: &mut Handle) -> u64
    ensures value { result ≡ handle.old.core.tlb.generation }
    ensures unchanged { handle.new.core ≡ handle.old.core }
{
    read::generation(handle.core())
}

/// The ASID in force.
#[unsafe(no_mangle)]
pub extern "C" fn a72_get_asid(handle: &mut Handle) -> u64
    ensures value { result ≡ handle.old.core.tlb.asid }
    ensures unchanged { handle.new.core ≡ handle.old.core }
{
    read::asid(handle.core())
}

/// What the other cores are to drop: 0 nothing, 1 all, 2 a page, 3 an ASID; and the page or the ASID.
#[unsafe(no_mangle)]
pub extern "C" fn a72_get_pending(handle: &mut Handle, out: &mut [u64; 2])
    ensures value { out.new ≡ pending_words handle.old.core.tlb.broadcast }
    ensures unchanged { handle.new.core ≡ handle.old.core }
{
    read::pending(handle.core(), out);
}

/// The entry in a slot, in seven words; past the last a blank one.
#[unsafe(no_mangle)]
pub extern "C" fn a72_get_entry(handle: &mut Handle, slot: u64, out: &mut [u64; 7])
    ensures value { out.new ≡ entry_words (entry_at handle.old.core.tlb slot) }
    ensures unchanged { handle.new.core ≡ handle.old.core }
{
    read::entry(handle.core(), slot, out);
}

/// The data hint in a slot, in two words; past the last none.
#[unsafe(no_mangle)]
pub extern "C" fn a72_get_hint(handle: &mut Handle, slot: u64, out: &mut [u64; 2])
    ensures value { out.new ≡ hint_words (hint_at handle.old.core.tlb slot) }
    ensures unchanged { handle.new.core ≡ handle.old.core }
{
    read::hint(handle.core(), slot, out);
}

/// The fetch hint, in four words; zeros where there is none.
#[unsafe(no_mangle)]
pub extern "C" fn a72_get_fetch_hint(handle: &mut Handle, out: &mut [u64; 4])
    ensures value { out.new ≡ fetch_words handle.old.core.tlb.fetch }
    ensures unchanged { handle.new.core ≡ handle.old.core }
{
    read::fetch_hint(handle.core(), out);
}

/// The PC: an exception that is taken saves it.
#[unsafe(no_mangle)]
pub extern "C" fn a72_set_pc(handle: &mut Handle, pc: u64)
    ensures { handle.new.core ≡ with_pc handle.old.core pc }
{
    put::pc(handle.core(), pc);
}

/// PSTATE by an SPSR's word: NZCV, DAIF and SP are set by it, the level is not.
#[unsafe(no_mangle)]
pub extern "C" fn a72_set_pstate(handle: &mut Handle, psr: u64)
    ensures { handle.new.core ≡ with_flags handle.old.core psr }
{
    put::pstate(handle.core(), psr);
}

/// What the other cores are to drop; afterwards nothing is pending.
#[unsafe(no_mangle)]
pub extern "C" fn a72_take_pending(handle: &mut Handle, out: &mut [u64; 2])
    ensures words { out.new ≡ pending_words handle.old.core.tlb.broadcast }
    ensures core { handle.new.core ≡ without_pending handle.old.core }
{
    put::take_pending(handle.core(), out);
}

/// Another core's broadcast, in its two words: this core drops the same. 0; or 64 where they name nothing.
#[unsafe(no_mangle)]
pub extern "C" fn a72_receive(handle: &mut Handle, kind: u64, value: u64) -> u64
    ensures number { result ≡ number_received (inval_named kind value) }
    ensures core { handle.new.core ≡ received handle.old.core (inval_named kind value) }
{
    put::receive(handle.core(), kind, value)
}

/// The cache's generation: the entries that are live stay live, the others go. 0; or 64 where no 32 bits hold it.
#[unsafe(no_mangle)]
pub extern "C" fn a72_set_generation(handle: &mut Handle, generation: u64) -> u64
    ensures number { result ≡ number_restamped generation }
    ensures core { handle.new.core ≡ restamped handle.old.core generation }
{
    put::generation(handle.core(), generation)
}
