// A core in memory that the caller gives; and its words.
ghost use Rattle.std.specs.Prelude.{◌≡◌};
ghost use Rattle.std.specs.Borrow.{full_share};
ghost use Rattle.std.specs.Ptr.{lies_at, room_at};
ghost use types.Logic.{sem};
ghost use Rattle.cpu.specs.Core.{fresh_core};
ghost use Rattle.cpu.specs.contracts.Core.{the_row as core_row};
ghost use Rattle.saved.specs.CoreOf.{core_of};
ghost use Rattle.saved.specs.WordsOf.{word_of, words_of, held};

use cpu::Core;
use handle::Handle;
use saved::place::Saved;

// What the header says of a core's memory: the handle, then the core that it names.
const _: () = prove!(size_of::<Handle>() == 8);

const _: () = prove!(size_of::<Core>() == 41736);

const _: () = prove!(align_of::<Core>() == 8);

/// Memory for a core becomes one after reset.
#[unsafe(no_mangle)]
pub unsafe extern "C" fn a72_init_at(at: *mut Core)
    requires* { sem 𝓛 (room_at core_row at) }
    ensures* { sem 𝓛 (lies_at core_row full_share at fresh_core) }
{
    *at = Core::new();
}

/// The core becomes the one that these words hold, whatever they are.
#[unsafe(no_mangle)]
pub extern "C" fn a72_restore(handle: &mut Handle, words: &Saved)
    ensures { handle.new.core ≡ core_of words.now }
{
    saved::restore::restore(handle.core(), words);
}

/// The core's words, every one written: those that `a72_restore` makes the core of again.
#[unsafe(no_mangle)]
pub extern "C" fn a72_save(handle: &mut Handle, words: &mut Saved)
    ensures words { words.new ≡ words_of handle.old.core }
    ensures core { core_of words.new ≡ held handle.old.core }
    ensures unchanged { handle.new.core ≡ handle.old.core }
{
    saved::save::save(handle.core(), words);
}

/// The core's word at a place, as `a72_save` writes it; 0 past the last.
#[unsafe(no_mangle)]
pub extern "C" fn a72_word(handle: &mut Handle, place: usize) -> u64
    ensures word { result ≡ word_of handle.old.core place }
    ensures unchanged { handle.new.core ≡ handle.old.core }
{
    saved::save::word(handle.core(), place)
}
