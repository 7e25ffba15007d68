// How far a walk's end holds: a leaf or a fault of a level is that of the whole block of the level.
ghost use Rattle.std.specs.Prelude.{◌≡◌, ℕ, ◌-◌, ◌/◌, ◌%◌, ◌^◌, ◌≤◌, ◌<◌, not, ◌||◌, nat_lt};
ghost use Rattle.word.specs.Ram.{word_at};
ghost use Rattle.walk.specs.Table.{addrselectbottom, in_range};
ghost use Rattle.walk.specs.Walk.{walk_of};
ghost use Rattle.ranges_report.specs.Place.{place_at, ahead};
ghost use Rattle.ranges_report.specs.Block.{level_of, Alike};

use sysreg::regs::Regime;
use walk::level::Walked;
use walk::range::Range;
use walk::regime::Bank;
use word::bits;

/// How the walk of an address ends, and the last address up to which it ends alike.
#[derive(Clone, Copy)]
pub struct Stretch {
    pub end: Walked,
    pub last: u64,
}

// The addresses that a range has, from the first to the last.
#[derive(Clone, Copy)]
struct Window {
    first: u64,
    last: u64,
}

// The lowest address bit that a table of the level looks at.
fn lowest_bit(largegrain: bool, level: u64) -> u64
    requires { level ≤ 3 }
    ensures value { result ≡ addrselectbottom largegrain level }
    ensures bounds { (12 ≤ result) × (result ≤ 55) }
{
    let granule = if largegrain { 16 } else { 12 };
    granule + (granule - 3) * (3 - level)
}

// The level at which a walk ended: a fault's is in the low two bits of its status.
fn level_of(end: Walked) -> u8
    ensures { result ≡ level_of end }
{
    match end {
        Ok(leaf) => leaf.level,
        Err(status) => status % 4,
    }
}

// The last address with the same bits from n up.
fn end_of_block(va: u64, n: u64) -> u64
    requires { n ≤ 55 }
    ensures reaches { va ≤ result }
    ensures page { 12 ≤ n → result % 2 ^ 12 ≡ 2 ^ 12 - 1 }
    ensures same { (vb : ℕ) → va ≤ vb → vb ≤ result → va / 2 ^ n ≡ vb / 2 ^ n }
{
    bits::align_down(va, n) + ((1 << n) - 1)
}

impl Window {
    fn new(range: Range) -> Self
        ensures pages { (result.first % 2 ^ 12 ≡ 0) × (result.last % 2 ^ 12 ≡ 2 ^ 12 - 1) }
        ensures ends { (va : ℕ) → va < 2 ^ 64
            → in_range range va ≡ not (nat_lt va result.first || nat_lt result.last va) }
    {
        let size = u64::MAX >> range.txsz.clamp(16, 39);
        if range.upper {
            Window {
                first: u64::MAX - size,
                last: u64::MAX,
            }
        } else {
            Window {
                first: 0,
                last: size,
            }
        }
    }
}

// The last address up to which the walk of va ends as it does there, which is at the level.
fn last_of(range: Range, va: u64, level: u64) -> u64
    requires { level ≤ 3 }
    ensures reaches { va ≤ result }
    ensures page { result % 2 ^ 12 ≡ 2 ^ 12 - 1 }
    ensures alike { (vb : ℕ) → va ≤ vb → vb ≤ result → Alike range level va vb }
{
    let Window { first, last } = Window::new(range);
    if va < first {
        end_of_block(va, 55).min(first - 1)
    } else if last < va {
        end_of_block(va, 55)
    } else {
        end_of_block(va, lowest_bit(range.largegrain, level)).min(last)
    }
}

impl Stretch {
    /// The walk of `va`, which is untagged, and how far it holds.
    pub fn new(bank: Bank, regime: Regime, va: u64, base: u64, ram: &[u8]) -> Self
        ensures end { result.end ≡ walk_of bank regime va (word_at base ram.now 8) }
        ensures reaches { va ≤ result.last }
        ensures page { result.last % 2 ^ 12 ≡ 2 ^ 12 - 1 }
        ensures holds { (vb : ℕ) → va ≤ vb → vb ≤ result.last
            → place_at bank regime (word_at base ram.now 8) vb
            ≡ ahead (place_at bank regime (word_at base ram.now 8) va) (vb - va) }
    {
        let end = bank.walk(regime, va, base, ram).end;
        let range = bank.range(regime, va);
        let last = last_of(range, va, u64::from(level_of(end)));
        Stretch { end, last }
    }
}
