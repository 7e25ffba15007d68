// The counts of a range, from the fresh answer of each page.
ghost use Rattle.std.specs.Prelude.{◌≡◌, ◌<◌};
ghost use Rattle.word.specs.Ram.{word_at};
ghost use Rattle.walk.specs.WalkBounds.{SoundFresh};
ghost use Rattle.census.specs.Count.{place_of, place_at, census_of};

use sysreg::regs::Regime;
use walk::fresh::Fresh;
use walk::regime::Bank;

// Where a page is counted: by the status of its fault, by 64 plus the permission byte of its leaf, or flat.
fn place_of(end: Fresh) -> usize
    requires { SoundFresh end }
    ensures value { result ≡ place_of end }
    ensures upper_bound { result < 129 }
{
    match end {
        Fresh::Ended(Ok(leaf)) => 64 + usize::from(leaf.perms),
        Fresh::Ended(Err(status)) => usize::from(status),
        Fresh::Flat(_) => 128,
    }
}

// Where the page is counted whose first address is va.
#[tactic(auto, using(crate::proofs::Laws::sound))]
fn place_at(s: Bank, regime: Regime, va: u64, base: u64, ram: &[u8]) -> usize
    ensures value { result ≡ place_at s regime (word_at base ram.now 8) va }
    ensures upper_bound { result < 129 }
{
    place_of(s.fresh(regime, va, base, ram))
}

// The counts of so many pages from the page of first, each by its own address: places 0 to 63 by status, 64 to 127 by
// permission byte, 128 flat. Addresses wrap at 2^64.
#[tactic(auto, using(crate::proofs::Laws::pages))]
pub fn count(
    s: Bank,
    regime: Regime,
    first: u64,
    pages: u64,
    base: u64,
    ram: &[u8],
    counts: &mut [u64; 129],
)
    ensures { counts.new ≡ census_of s regime (word_at base ram.now 8) first pages }
{
    *counts = [0; 129];
    let start = first - first % 4096;
    for i in 0..pages {
        let page = start.wrapping_add(i.wrapping_mul(4096));
        counts[place_at(s, regime, page, base, ram)] += 1;
    }
}
