// The words of a core, place by place.
ghost use Rattle.std.specs.Prelude.{◌≡◌, [], ◌∷◌};
ghost use Rattle.saved.specs.CoreOf.{core_of};
ghost use Rattle.saved.specs.WordsOf.{register_words, state_words, level_words};
ghost use Rattle.saved.specs.WordsOf.{pending_kind, pending_value, fetch_known};
ghost use Rattle.saved.specs.WordsOf.{fetch_or_zeros, held};
ghost use Rattle.saved.specs.WordsOf.{attributes, hint_word, entry_word, word_of, words_of};

use crate::place::Saved;
use crate::{place, ranges};
use cpu::Core;
use tlb::Inval;
use tlb::entry::Entry;
use tlb::hint::{FetchHint, Hint};
use word::bits;

// Words 0 to 36.
fn register_words(core: &Core) -> [u64; 37]
    ensures { result ≡ register_words core.now }
{
    let control = &core.control;
    let sys = &core.sys;
    let flags = core.flags;
    [
        control.sctlr[1],
        control.sctlr[2],
        control.sctlr[3],
        control.tcr[1],
        control.tcr[2],
        control.tcr[3],
        control.ttbr0[1],
        control.ttbr0[2],
        control.ttbr0[3],
        control.ttbr1_el1,
        sys.mair[1],
        sys.mair[2],
        sys.mair[3],
        sys.vbar[1],
        sys.vbar[2],
        sys.vbar[3],
        sys.elr[1],
        sys.elr[2],
        sys.elr[3],
        sys.spsr[1],
        sys.spsr[2],
        sys.spsr[3],
        sys.esr[1],
        sys.esr[2],
        sys.esr[3],
        sys.far[1],
        sys.far[2],
        sys.far[3],
        control.scr_el3,
        control.hcr_el2,
        sys.vpidr_el2,
        sys.vmpidr_el2,
        sys.par_el1,
        core.pc,
        flags.nzcv as u64,
        flags.daif as u64,
        bits::flag_word(flags.spsel),
    ]
}

// What is pending, in two words.
fn pending_words(pending: Option<Inval>) -> [u64; 2]
    ensures { result ≡ pending_kind pending ∷ pending_value pending ∷ [] }
{
    match pending {
        None => [0, 0],
        Some(Inval::All) => [1, 0],
        Some(Inval::Page(page)) => [2, page],
        Some(Inval::Asid(asid)) => [3, asid as u64],
    }
}

// Whether there is a fetch hint, its page, level and physical page; or zeros.
pub fn fetch_words(fetch: Option<FetchHint>) -> [u64; 4]
    ensures { result ≡ fetch_known fetch ∷ (fetch_or_zeros fetch).page ∷ (fetch_or_zeros fetch).level
        ∷ (fetch_or_zeros fetch).pa ∷ [] }
{
    match fetch {
        None => [0, 0, 0, 0],
        Some(hint) => [1, hint.page, hint.level as u64, hint.pa],
    }
}

// Words 68 to 84.
fn state_words(core: &Core) -> [u64; 17]
    ensures { result ≡ state_words core.now }
{
    let privilege = core.privilege;
    let fetch = fetch_words(core.tlb.fetch);
    let pending = pending_words(core.tlb.broadcast);
    [
        privilege.level as u64,
        bits::flag_word(privilege.unprivileged),
        0,
        0,
        core.tlb.flushes,
        core.tlb.drops,
        core.tlb.epoch,
        pending[0],
        pending[1],
        core.last_pa,
        core.abort_pa,
        core.tlb.generation as u64,
        core.tlb.asid as u64,
        fetch[0],
        fetch[1],
        fetch[2],
        fetch[3],
    ]
}

// Words 5205 to 5212.
fn level_words(core: &Core) -> [u64; 8]
    ensures { result ≡ level_words core.now }
{
    let levels = &core.tlb.levels;
    [
        levels[0].hits,
        levels[1].hits,
        levels[2].hits,
        levels[3].hits,
        levels[0].walks,
        levels[1].walks,
        levels[2].walks,
        levels[3].walks,
    ]
}

// A hint's two words.
fn hint_word(hint: Hint, at: usize) -> u64
    ensures { result ≡ hint_word hint at }
{
    if at == 0 { hint.key } else { hint.pa }
}

// Permissions, level, whether it is for every ASID, and its ASID, in one word.
#[tactic(auto, unfolding(crate::specs::WordsOf::attributes))]
fn attributes(entry: Entry) -> u64
    ensures { result ≡ attributes entry }
{
    let global = bits::flag_word(entry.global);
    entry.perms as u64
        + entry.level as u64 * 256
        + global * 65536
        + entry.asid as u64 * 0x1_0000_0000
}

// An entry's four words.
fn entry_word(entry: Entry, at: usize) -> u64
    ensures { result ≡ entry_word entry at }
{
    match at {
        0 => entry.tag,
        1 => entry.generation as u64,
        2 => attributes(entry),
        _ => entry.pa,
    }
}

/// The word of a core at a place, as [`save`] writes it; 0 past the last.
#[tactic(auto, unfolding(crate::specs::WordsOf::word_of), using(crate::proofs::Saving::past_words))]
pub fn word(core: &Core, place: usize) -> u64
    ensures { result ≡ word_of core.now place }
{
    if place < place::GENERAL {
        register_words(core)[place]
    } else if place < place::LEVEL {
        core.x[place - place::GENERAL]
    } else if place < place::HINTS {
        state_words(core)[place - place::LEVEL]
    } else if place < place::ENTRIES {
        let at = place - place::HINTS;
        hint_word(core.tlb.hints[at / 2], at % 2)
    } else if place < place::LEVEL_HITS {
        let at = place - place::ENTRIES;
        entry_word(core.tlb.entries[at / 4], at % 4)
    } else if place < place::WORDS {
        level_words(core)[place - place::LEVEL_HITS]
    } else {
        0
    }
}

/// Every word of a core, in order of their places. The core that they hold is this one, but for what no word holds:
/// place 0 of the nine arrays by level, which is 0 there.
#[tactic(auto, unfolding(crate::specs::WordsOf::words_of), using(crate::proofs::Filling::filled_start, crate::proofs::Filling::filled_on, crate::proofs::Filling::filled_end))]
pub fn save(core: &Core, words: &mut Saved)
    ensures words { words.new ≡ words_of core.now }
    ensures core { core_of words.new ≡ held core.now }
{
    ranges::fits(core);
    let mut place: usize = 0;
    while place < place::WORDS {
        words[place] = word(core, place);
        place += 1;
    }
}
