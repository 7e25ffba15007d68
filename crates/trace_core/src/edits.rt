//! Lines that overwrite a part of the core.
use crate::machine::Machine;
use cpu::Core;
use saved::{place, restore, save};
use tlb::Tlb;
use tlb::count::Tally;
use tlb::entry::Entry;
use tlb::hint::{FetchHint, Hint};
use trace_text::line::{Part, Poke};

// An entry when the generation is overwritten: a live one stays live; of the others those that were and are of a later
// generation stay, if they may.
fn moved(e: Entry, current: u32, to: u32, later: bool) -> Entry {
    if e.generation == current {
        Entry {
            generation: to,
            ..e
        }
    } else if later && current < e.generation && to < e.generation {
        e
    } else {
        Entry::default()
    }
}

fn move_generation(core: &mut Core, to: u32, later: bool) {
    let current = core.tlb.generation;
    for e in core.tlb.entries.iter_mut() {
        *e = moved(*e, current, to, later);
    }
    core.tlb.generation = to;
}

// Each counter at a value: by level EL0's alone, so that the sums are the value too.
fn put_counters(tlb: &mut Tlb, value: u64) {
    tlb.levels = [Tally::default(); 4];
    tlb.levels[0] = Tally {
        hits: value,
        walks: value,
    };
    tlb.flushes = value;
    tlb.drops = value;
    tlb.epoch = value;
}

// The bits of a word that a line sets.
fn fitting(place: usize, value: u64) -> u64 {
    match place {
        place::NZCV => value & 0xF000_0000,
        place::DAIF => value & 0x3C0,
        place::SPSEL | place::UNPRIVILEGED => value % 2,
        place::PENDING => value % 4,
        _ => value,
    }
}

// A word before the fetch hint, or a counter of a level.
fn put_word(core: &mut Core, place: usize, value: u64) {
    if place < place::FETCH || (place::LEVEL_HITS <= place && place < place::WORDS) {
        let mut words = [0; place::WORDS];
        save::save(core, &mut words);
        words[place] = fitting(place, value);
        restore::restore(core, &words);
    }
}

// No core holds a generation of more than 32 bits: an entry of one is blank.
fn entry_of(tag: u64, generation: u64, bits: u64, pa: u64) -> Entry {
    let Ok(generation) = u32::try_from(generation) else {
        return Entry::default();
    };
    let [perms, level, flags, _, low, high, ..] = bits.to_le_bytes();
    Entry {
        tag,
        generation,
        perms,
        level,
        global: flags & 1 != 0,
        asid: u16::from_le_bytes([low, high]),
        pa,
    }
}

/// A part of the core that is spoken to is written that no call writes alone; false where its number is above 3.
pub fn poke(machine: &mut Machine, poke: Poke) -> bool {
    let Some(core) = machine.cores.spoken_to_mut() else {
        return false;
    };
    match poke {
        Poke::Level(level) => machine.set_level(level),
        Poke::Pc(pc) => core.pc = pc,
        Poke::Spsel(on) => core.flags.spsel = on,
        Poke::Generation(to) => move_generation(core, to, false),
        Poke::Counters(value) => put_counters(&mut core.tlb, value),
        Poke::Broadcast => core.tlb.broadcast = None,
    }
    true
}

/// A word, a hint or an entry of the core that is spoken to is written; nothing where its number is above 3.
pub fn overwrite(machine: &mut Machine, part: Part) {
    let Some(core) = machine.cores.spoken_to_mut() else {
        return;
    };
    match part {
        Part::Word { place, value } => match usize::from(place) {
            place::LEVEL => machine.set_level(value % 0x1_0000_0000),
            place::GENERATION => move_generation(core, (value % 0x1_0000_0000) as u32, true),
            place => put_word(core, place, value),
        },
        Part::Hint { slot, key, pa } => {
            core.tlb.hints[usize::from(slot) % 512] = Hint { key, pa };
        }
        Part::Entry {
            slot,
            tag,
            generation,
            bits,
            pa,
        } => {
            core.tlb.entries[usize::from(slot) % 1024] = entry_of(tag, generation, bits, pa);
        }
        Part::FetchHint { page, level, pa } => {
            core.tlb.fetch = Some(FetchHint { page, level, pa });
        }
    }
}
