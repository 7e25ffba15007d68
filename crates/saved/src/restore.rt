// The core that words hold: each part read where it stands.
ghost use Rattle.std.specs.Prelude.{◌≡◌, ◌+◌};
ghost use Rattle.word.specs.Tables.{table};
ghost use Rattle.saved.specs.CoreOf.{core_of, word, hint_in, entry_in};
ghost use Rattle.saved.specs.Places.{GENERAL};

use crate::place::Saved;
use crate::{parts, place};
use cpu::Core;
use tlb::entry::Entry;
use tlb::hint::Hint;

#[tactic(auto, using(crate::proofs::Filling::filled_start, crate::proofs::Filling::filled_on, crate::proofs::Filling::filled_end))]
fn read_general(x: &mut [u64; 31], words: &Saved)
    ensures { x.new ≡ table 31 (λ n. word words.now (GENERAL + n)) }
{
    let mut i: usize = 0;
    while i < 31 {
        x[i] = words[place::GENERAL + i];
        i += 1;
    }
}

#[tactic(auto, using(crate::proofs::Filling::filled_start, crate::proofs::Filling::filled_on, crate::proofs::Filling::filled_end))]
fn read_hints(hints: &mut [Hint; 512], words: &Saved)
    ensures { hints.new ≡ table 512 (hint_in (word words.now)) }
{
    let mut i: usize = 0;
    while i < 512 {
        hints[i] = parts::hint_at(words, i);
        i += 1;
    }
}

#[tactic(auto, using(crate::proofs::Filling::filled_start, crate::proofs::Filling::filled_on, crate::proofs::Filling::filled_end))]
fn read_entries(entries: &mut [Entry; 1024], words: &Saved)
    ensures { entries.new ≡ table 1024 (entry_in (word words.now)) }
{
    let mut i: usize = 0;
    while i < 1024 {
        entries[i] = parts::entry_at(words, i);
        i += 1;
    }
}

/// The core becomes the one that the words hold, whatever they are: of a word that is too large for its part only
/// some bits count.
#[tactic(auto, unfolding(crate::specs::CoreOf::core_of, crate::specs::CoreOf::core_by, crate::specs::CoreOf::core_on))]
pub fn restore(core: &mut Core, words: &Saved)
    ensures { core.new ≡ core_of words.now }
{
    core.privilege = parts::privilege_at(words);
    core.flags = parts::flags_at(words);
    core.pc = words[place::PC];
    read_general(&mut core.x, words);
    core.control = parts::control_at(words);
    core.sys = parts::sys_at(words);
    core.tlb.generation = (words[place::GENERATION] % 0x1_0000_0000) as u32;
    core.tlb.asid = (words[place::ASID] % 0x1_0000) as u16;
    core.tlb.fetch = parts::fetch_at(words);
    read_hints(&mut core.tlb.hints, words);
    read_entries(&mut core.tlb.entries, words);
    core.tlb.levels = parts::tallies_at(words);
    core.tlb.flushes = words[place::FLUSHES];
    core.tlb.drops = words[place::DROPS];
    core.tlb.epoch = words[place::EPOCH];
    core.tlb.broadcast = parts::pending_at(words);
    core.last_pa = words[place::LAST_PA];
    core.abort_pa = words[place::ABORT_PA];
}
