// The digests of a core's parts.
ghost use Rattle.std.specs.Prelude.{◌≡◌, ◌+◌, ◌<◌, ◌≤◌, [], ◌∷◌};
ghost use Rattle.word.specs.Bits.{wrap, flag};
ghost use Rattle.digest.specs.Fold.{digest_from, digest_of, gathered};
ghost use Rattle.digest.specs.Count.{live_at, live_entries, set, set_at, set_data_hints, how_many_fetch, set_hints};
ghost use Rattle.digest.specs.Parts.{live, register_words, record_words, entry_words, entries_words, hint_words};
ghost use Rattle.digest.specs.Parts.{fetch_words, hints_words};

use crate::fold;
use cpu::Core;
use saved::{place, save};
use tlb::Tlb;
use tlb::entry::Entry;
use tlb::hint::{FetchHint, Hint};
use word::bits;

// How many there are, and their digest.
#[derive(Clone, Copy)]
pub struct Sum {
    pub count: u64,
    pub digest: u64,
}

fn start() -> Sum
    ensures digest_value { result.digest ≡ 0x9E3779B97F4A7C15 }
    ensures count_value { result.count ≡ 0 }
{
    Sum {
        count: 0,
        digest: fold::START,
    }
}

#[tactic(auto, unfolding(crate::specs::Fold::digest_from))]
fn joined_three(h: u64, a: u64, b: u64, c: u64) -> u64
    ensures { result ≡ digest_from h (a ∷ b ∷ c ∷ []) }
{
    let with_a = fold::join(h, a);
    let with_b = fold::join(with_a, b);
    fold::join(with_b, c)
}

// One more, with another digest.
fn counted(s: Sum, digest: u64) -> Sum
    ensures digest_value { result.digest ≡ digest }
    ensures count_value { result.count ≡ wrap (s.count + 1) }
{
    Sum {
        count: bits::more(s.count),
        digest,
    }
}

// The registers, the flags and the general registers: the words before the level.
pub fn registers(core: &Core) -> u64
    ensures { result ≡ digest_of (register_words core.now) }
{
    let mut h = fold::START;
    for i in 0..place::LEVEL {
        h = fold::join(h, save::word(core, i));
    }
    h
}

// A digest with the slot of an entry, and the entry.
#[tactic(auto, unfolding(crate::specs::Fold::digest_from))]
fn with_entry(digest: u64, slot: u64, e: Entry) -> u64
    ensures { result ≡ digest_from digest (record_words slot e) }
{
    let h = joined_three(digest, slot, e.tag, e.perms as u64);
    let global = bits::flag_word(e.global);
    let k = joined_three(h, e.level as u64, global, e.asid as u64);
    fold::join(k, e.pa)
}

// An entry is live where it has a tag and is of the present generation.
fn is_live(e: Entry, generation: u32) -> bool
    ensures { result ≡ live e generation }
{
    (e.tag != 0) & (e.generation == generation)
}

// A sum with an entry, where it is live.
#[tactic(auto, unfolding(crate::specs::Fold::digest_from, crate::specs::Parts::entry_words))]
fn with_live(s: Sum, tlb: &Tlb, j: usize) -> Sum
    requires { j < 1024 }
    ensures digest_value { result.digest ≡ digest_from s.digest (entry_words tlb.now j) }
    ensures count_value { result.count ≡ wrap (s.count + flag (live_at tlb.now j) 1) }
{
    let e = tlb.entries[j];
    if is_live(e, tlb.generation) {
        let d = with_entry(s.digest, j as u64, e);
        counted(s, d)
    } else {
        s
    }
}

// The live entries by rising slot.
pub fn entries(core: &Core) -> Sum
    ensures digest_value { result.digest ≡ digest_of (entries_words core.now.tlb) }
    ensures count_value { result.count ≡ live_entries core.now.tlb }
{
    let mut s = start();
    for j in 0..1024usize {
        s = with_live(s, &core.tlb, j);
    }
    s
}

// A data hint whose key is all ones is none.
fn is_set(h: Hint) -> bool
    ensures { result ≡ set h }
{
    h.key != 0xFFFF_FFFF_FFFF_FFFF
}

#[tactic(auto, unfolding(crate::specs::Fold::digest_from, crate::specs::Parts::hint_words))]
fn with_hint(s: Sum, tlb: &Tlb, i: usize) -> Sum
    requires { i < 512 }
    ensures digest_value { result.digest ≡ digest_from s.digest (hint_words tlb.now i) }
    ensures count_value { result.count ≡ wrap (s.count + flag (set_at tlb.now i) 1) }
{
    let h = tlb.hints[i];
    if is_set(h) {
        let d = joined_three(s.digest, i as u64, h.key, h.pa);
        counted(s, d)
    } else {
        s
    }
}

#[tactic(auto, unfolding(crate::specs::Fold::digest_from, crate::specs::Parts::fetch_words))]
fn with_fetch(s: Sum, fetch: Option<FetchHint>) -> Sum
    ensures digest_value { result.digest ≡ digest_from s.digest (fetch_words fetch) }
    ensures count_value { result.count ≡ wrap (s.count + how_many_fetch fetch) }
{
    match fetch {
        Some(f) => {
            let d = joined_three(s.digest, f.page, f.level as u64, f.pa);
            counted(s, d)
        }
        None => s,
    }
}

fn data_hints(tlb: &Tlb) -> Sum
    ensures digest_value { result.digest ≡ digest_of (gathered (hint_words tlb.now) 512 0) }
    ensures count_value { result.count ≡ set_data_hints tlb.now }
    ensures upper_bound { result.count ≤ 512 }
{
    let mut s = start();
    for i in 0..512usize {
        s = with_hint(s, tlb, i);
    }
    s
}

// The data hints that are set, by rising slot, then the fetch hint.
pub fn hints(core: &Core) -> Sum
    ensures digest_value { result.digest ≡ digest_of (hints_words core.now.tlb) }
    ensures count_value { result.count ≡ set_hints core.now.tlb }
{
    let s = data_hints(&core.tlb);
    with_fetch(s, core.tlb.fetch)
}
