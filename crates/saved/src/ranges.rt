// What the type of a core says of its parts: ranges and lengths. Each function computes nothing.
ghost use Rattle.std.specs.Prelude.{◌≡◌, ◌^◌, ◌<◌, length};
ghost use Rattle.saved.specs.Fits.{EntryFits, FetchFits, PendingFits, PartsFit, Fits};

use cpu::Core;
use exception::flags::Flags;
use tlb::Inval;
use tlb::access::Privilege;
use tlb::count::Tally;
use tlb::entry::Entry;
use tlb::hint::{FetchHint, Hint};

fn privilege_fits(privilege: Privilege)
    ensures { privilege.level < 2 ^ 8 }
{}

fn flags_fit(flags: Flags)
    ensures { (flags.nzcv < 2 ^ 32) × (flags.daif < 2 ^ 32) }
{}

fn stamps_fit(generation: u32, asid: u16)
    ensures { (generation < 2 ^ 32) × (asid < 2 ^ 16) }
{}

fn fetch_fits(fetch: Option<FetchHint>)
    ensures { FetchFits fetch }
{
    match fetch {
        None => {}
        Some(_) => {}
    }
}

fn entry_fits(entry: Entry)
    ensures { EntryFits entry }
{}

fn pending_fits(pending: Option<Inval>)
    ensures { PendingFits pending }
{
    match pending {
        None => {}
        Some(Inval::All) => {}
        Some(Inval::Page(_)) => {}
        Some(Inval::Asid(_)) => {}
    }
}

fn general_long(x: &[u64; 31])
    ensures { length x.now ≡ 31 }
{
    let _all: &[u64] = x;
}

fn levels_long(levels: &[Tally; 4])
    ensures { length levels.now ≡ 4 }
{
    let _all: &[Tally] = levels;
}

fn hints_long(hints: &[Hint; 512])
    ensures { length hints.now ≡ 512 }
{
    let _all: &[Hint] = hints;
}

fn entries_long(entries: &[Entry; 1024])
    ensures { length entries.now ≡ 1024 }
{
    let _all: &[Entry] = entries;
}

fn parts_fit(core: &Core)
    ensures { PartsFit core.now }
{
    privilege_fits(core.privilege);
    flags_fit(core.flags);
    stamps_fit(core.tlb.generation, core.tlb.asid);
    fetch_fits(core.tlb.fetch);
    pending_fits(core.tlb.broadcast);
    general_long(&core.x);
    levels_long(&core.tlb.levels);
    hints_long(&core.tlb.hints);
    entries_long(&core.tlb.entries);
}

/// The numbers of a core are in the ranges of their types, and its lists as long as its arrays. A fact of every core:
/// it reads the core and changes nothing.
pub fn fits(core: &Core)
    ensures { Fits core.now }
{
    parts_fit(core);
    let mut i: usize = 0;
    while i < 1024 {
        entry_fits(core.tlb.entries[i]);
        i += 1;
    }
}
