// What looks at tables and leaves core and RAM as they were.
ghost use Rattle.std.specs.Prelude.{◌≡◌, Some};
ghost use Rattle.cpu.specs.Check.{missed_of};
ghost use Rattle.cpu.specs.declared.call.Call.TheVariants as Call;
ghost use Rattle.core_calls.specs.Promise.{CensusPromise, WindowsPromise, FlipPromise};
ghost use Rattle.core_calls.specs.Windows.{found_number, found_words};
ghost use Rattle.core_calls.specs.Flip.{flip_number, flip_words};

use call_words::op;
use census::count;
use cpu::Core;
use cpu::check::{self, Check};
use flip::FlippedBit;
use sysreg::regs::Regime;
use tlb::access::Kind;
use walk::regime::Bank;
use windows::{Pair, WindowsError};

// The number of the first check that a census misses, or 0.
fn missed_check(core: &Core, base: u64, len: u64, first: u64, pages: u64) -> u8
    ensures { result ≡ missed_of core.now.privilege.level base len (Call.Census first pages) }
{
    check::number_missed(check::census(core.privilege.level, base, len, first, pages))
}

/// How many of so many 4 KiB pages, from the page of `first` on, end at each status, at each permission byte, and
/// flat: 0 and all 129 counts, or the number of the first check that it misses, and no count is written.
pub fn census(
    core: &Core,
    first: u64,
    pages: u64,
    counts: &mut [u64; 129],
    base: u64,
    ram: &[u8],
) -> u64
    ensures { CensusPromise first pages base ram.now core.now result counts.old counts.new }
{
    let missed = missed_check(core, base, ram.len() as u64, first, pages);
    if missed != 0 {
        return missed as u64;
    }
    let regime = Regime::of_level(core.privilege.level);
    let bank = Bank::new(&core.control, regime);
    count::count(bank, regime, first, pages, base, ram, counts);
    0
}

// The number of what windows find; in `out` its words.
fn tell(found: Result<Option<Pair>, WindowsError>, out: &mut [u64; 3]) -> u64
    ensures number { result ≡ found_number found }
    ensures words { out.new ≡ found_words found out.old }
{
    match found {
        Ok(Some(pair)) => {
            *out = [1, pair.first, pair.second];
            0
        }
        Ok(None) => {
            *out = [0, 0, 0];
            0
        }
        Err(WindowsError::Page(e)) => {
            *out = [e.window, e.page, e.fault.fsc as u64];
            10
        }
        Err(error) => error.number() as u64,
    }
}

/// Which two windows of a list share a physical page: 0 and, in `out`, 1 and the first two by their numbers, or three
/// zeros where no two do; 10 and, in `out`, window, page and status of the first page that faults; or 1, 2 or 9, and no
/// word is written.
pub fn windows(core: &Core, list: &[u8], out: &mut [u64; 3], base: u64, ram: &[u8]) -> u64
    ensures { WindowsPromise list.now base ram.now core.now result out.old out.new }
{
    tell(windows::windows(core, base, ram, list), out)
}

// The number of what a flip finds; in `out` its words.
fn tell_bit(found: Result<Option<FlippedBit>, Check>, out: &mut [u64; 3]) -> u64
    ensures number { result ≡ flip_number (Some found) }
    ensures words { out.new ≡ flip_words (Some found) out.old }
{
    match found {
        Ok(Some(flipped)) => {
            *out = [1, flipped.pa, flipped.bit as u64];
            0
        }
        Ok(None) => {
            *out = [0, 0, 0];
            0
        }
        Err(check) => check.number() as u64,
    }
}

/// Which bit of a descriptor, flipped in RAM, changes how an access of a kind (1 read, 2 write, 4 fetch) ends in the
/// regime's own view (0) or EL0's (1): 0 and, in `out`, 1, the first descriptor's address and its lowest bit, or three
/// zeros where no bit of RAM does; 64 where kind or view names nothing, 1 or 2, and no word is written. RAM is changed
/// while the call runs, and as it was when it returns.
pub fn flip(
    core: &Core,
    va: u64,
    kind: u64,
    user: u64,
    out: &mut [u64; 3],
    base: u64,
    ram: &mut [u8],
) -> u64
    ensures { FlipPromise va kind user base ram.old core.now result out.old out.new ram.new }
{
    match (Kind::try_from(kind), op::view_of(user)) {
        (Ok(kind), Some(user)) => tell_bit(flip::flip(core, base, ram, va, kind, user), out),
        _ => 64,
    }
}
