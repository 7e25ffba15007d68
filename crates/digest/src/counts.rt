// The digest of a census: its 129 counts, one after another.
ghost use Rattle.std.specs.Prelude.{◌≡◌, ◌+◌};
ghost use Rattle.word.specs.Bits.{wrap, flag};
ghost use Rattle.digest.specs.Count.{counts_found};
ghost use Rattle.digest.specs.Fold.{digest_of, gathered};
ghost use Rattle.digest.specs.Parts.{word_alone};

use crate::fold;
use crate::parts::Sum;
use word::bits;

fn digest(counts: &[u64; 129]) -> u64
    ensures { result ≡ digest_of (gathered (word_alone counts.now) 129 0) }
{
    let mut h = fold::START;
    let mut i: usize = 0;
    while i < 129 {
        h = fold::join(h, counts[i]);
        i += 1;
    }
    h
}

// One more where one is found.
fn with_one(n: u64, one: bool) -> u64
    ensures { result ≡ wrap (n + flag one 1) }
{
    if one { bits::more(n) } else { n }
}

// How many counts are not 0.
fn found(counts: &[u64; 129]) -> u64
    ensures { result ≡ counts_found counts.now }
{
    let mut n = 0u64;
    let mut i: usize = 0;
    while i < 129 {
        n = with_one(n, counts[i] != 0);
        i += 1;
    }
    n
}

// How many of the counts are not 0, and the digest of all.
pub fn counts(counts: &[u64; 129]) -> Sum
    ensures digest_value { result.digest ≡ digest_of (gathered (word_alone counts.now) 129 0) }
    ensures count_value { result.count ≡ counts_found counts.now }
{
    let count = found(counts);
    let d = digest(counts);
    Sum { count, digest: d }
}
