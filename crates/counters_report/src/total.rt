// Sums over the levels, EL0 to EL3.
ghost use Rattle.std.specs.Prelude.{◌≡◌, ◌+◌, ◌%◌, ◌^◌, sum, sum_by};

use tlb::count::Tally;

fn of_four(a: u64, b: u64, c: u64, d: u64) -> u64
    ensures { result ≡ (a + b + c + d) % 2 ^ 64 }
{
    a.wrapping_add(b).wrapping_add(c).wrapping_add(d)
}

/// The sum of the levels' counts, wrapped at 2^64.
pub fn of_counts(counts: &[u64; 4]) -> u64
    ensures { result ≡ sum counts.now % 2 ^ 64 }
{
    let [el0, el1, el2, el3] = *counts;
    of_four(el0, el1, el2, el3)
}

/// The hits and the walks of all levels, each wrapped at 2^64 as the counters are.
pub fn of_levels(levels: &[Tally; 4]) -> Tally
    ensures hits { result.hits ≡ sum_by (λ level. level.hits) levels.now % 2 ^ 64 }
    ensures walks { result.walks ≡ sum_by (λ level. level.walks) levels.now % 2 ^ 64 }
{
    let [el0, el1, el2, el3] = *levels;
    Tally {
        hits: of_four(el0.hits, el1.hits, el2.hits, el3.hits),
        walks: of_four(el0.walks, el1.walks, el2.walks, el3.walks),
    }
}
