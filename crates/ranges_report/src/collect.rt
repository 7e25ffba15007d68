// The ranges of an address space, from one address to another.
ghost use Rattle.std.specs.Prelude.{◌≡◌, ℕ, ◌+◌, ◌-◌, ◌/◌, ◌%◌, ◌^◌, ◌≤◌, ◌⊎◌, IfOk};
ghost use Rattle.word.specs.Ram.{word_at};
ghost use Rattle.ranges_report.specs.Place.{place_at, Maps, Ordered};

use crate::map;
use crate::map::Mapped;
use crate::stretch::Stretch;
use std::alloc::{AllocError, Global};
use sysreg::regs::Regime;
use walk::regime::Bank;

/// The ranges of an interval of addresses, in their order.
#[derive(Drop)]
pub struct Collected {
    pub ranges: Vec<Mapped>,
    /// The last address that was looked at.
    pub last: u64,
}

/// So many walks are made for one list at the most.
pub const WALKS: u64 = 0x40_0000;

// Adds what one walk finds from `at` on, to the address `to` at the most. Up to where it holds.
fn step(
    ranges: &mut Vec<Mapped>,
    bank: Bank,
    regime: Regime,
    base: u64,
    ram: &[u8],
    at: u64,
    to: u64,
) -> Result<u64, AllocError>
    requires { at ≤ to }
    ensures bounds { IfOk result (λ last. (at ≤ last) × (last ≤ to)) }
    ensures ordered { IfOk result (λ last. Ordered at ranges.old.items → Ordered (last + 1) ranges.new.items) }
    ensures page { IfOk result (λ last. (last ≡ to) ⊎ (last % 2 ^ 12 ≡ 2 ^ 12 - 1)) }
    ensures maps { IfOk result (λ last. (from : ℕ) → from ≤ at
        → Maps (place_at bank regime (word_at base ram.now 8)) from at ranges.old.items
        → Maps (place_at bank regime (word_at base ram.now 8)) from (last + 1) ranges.new.items) }
{
    let stretch = Stretch::new(bank, regime, at, base, ram);
    let last = stretch.last.min(to);
    if let Ok(leaf) = stretch.end {
        map::add(ranges, Mapped::new(at, last, leaf))?;
    }
    Ok(last)
}

/// What the tables of the regime map of the untagged addresses from `from` to `to`, over the RAM that starts at `base`.
/// After WALKS walks, which are as many pages at least, it stops.
pub fn collect(
    alloc: Global,
    bank: Bank,
    regime: Regime,
    base: u64,
    ram: &[u8],
    from: u64,
    to: u64,
) -> Result<Collected, AllocError>
    ensures maps { IfOk result (λ c. Maps (place_at bank regime (word_at base ram.now 8)) from (c.last + 1)
        c.ranges.items) }
    ensures ordered { IfOk result (λ c. Ordered (c.last + 1) c.ranges.items) }
    ensures all { IfOk result (λ c. (c.last ≡ to) ⊎ (from / 2 ^ 12 + WALKS ≤ (c.last + 1) / 2 ^ 12)) }
{
    let mut ranges = Vec::new(alloc);
    let mut at = from;
    if to < from {
        return Ok(Collected { ranges, last: to });
    }
    for walks in 0..WALKS {
        let last = step(&mut ranges, bank, regime, base, ram, at, to)?;
        if last == to {
            return Ok(Collected { ranges, last });
        }
        at = last + 1;
    }
    Ok(Collected {
        ranges,
        last: at - 1,
    })
}
