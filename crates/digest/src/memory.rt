// The digest of a window: its base, its length, and the digests of four lanes of its little-endian words. Each lane has
// every fourth word, so that they are taken side by side; past the last byte all are zero.
ghost use Rattle.std.specs.Prelude.{◌≡◌, ◌+◌, ◌*◌, ◌/◌, ◌≤◌, length, slice_index};
ghost use Rattle.word.specs.Ram.{little_endian};
ghost use Rattle.digest.specs.Fold.{digest_of, gathered};
ghost use Rattle.digest.specs.Window.{lane_word, lane, window_words};

use crate::fold;
use word::ram::Width;
use word::{bits, ram};

// A byte, 0 past the last.
fn byte_at(ram: &[u8], at: usize) -> u64
    ensures value { result ≡ slice_index ram.now at }
    ensures upper_bound { result ≤ 255 }
{
    if at < ram.len() {
        bits::wide(ram[at])
    } else {
        0
    }
}

// Two, four and eight bytes, the lowest first: each joins two of the last.
#[tactic(auto, using(crate::proofs::Wording::join2))]
fn two_at(ram: &[u8], at: usize) -> u64
    requires { at ≤ length ram.now + 30 }
    ensures value { result ≡ little_endian ram.now 2 at }
    ensures upper_bound { result ≤ 0xFFFF }
{
    byte_at(ram, at) + byte_at(ram, at + 1) * 0x100
}

#[tactic(auto, using(crate::proofs::Wording::join4))]
fn four_at(ram: &[u8], at: usize) -> u64
    requires { at ≤ length ram.now + 28 }
    ensures value { result ≡ little_endian ram.now 4 at }
    ensures upper_bound { result ≤ 0xFFFF_FFFF }
{
    two_at(ram, at) + two_at(ram, at + 2) * 0x1_0000
}

// A word that is not whole.
#[tactic(auto, using(crate::proofs::Wording::join8))]
fn rest(ram: &[u8], at: usize) -> u64
    requires { at ≤ length ram.now + 24 }
    ensures { result ≡ little_endian ram.now 8 at }
{
    four_at(ram, at) + four_at(ram, at + 4) * 0x1_0000_0000
}

// The word from at.
fn word_at(ram: &[u8], at: usize) -> u64
    requires { at ≤ length ram.now + 24 }
    ensures { result ≡ little_endian ram.now 8 at }
{
    match ram::read(0, ram, Width::Double, at as u64) {
        Some(v) => v,
        None => rest(ram, at),
    }
}

// The digests of the lanes, as far as each has a word in 32 whole bytes.
fn whole_lanes(ram: &[u8]) -> (u64, u64, u64, u64)
    ensures first { result.0 ≡ digest_of (gathered (lane_word ram.now 0) (length ram.now / 32) 0) }
    ensures second { result.1 ≡ digest_of (gathered (lane_word ram.now 1) (length ram.now / 32) 0) }
    ensures third { result.2 ≡ digest_of (gathered (lane_word ram.now 2) (length ram.now / 32) 0) }
    ensures fourth { result.3 ≡ digest_of (gathered (lane_word ram.now 3) (length ram.now / 32) 0) }
{
    let n = ram.len() / 32;
    let mut a = fold::START;
    let mut b = fold::START;
    let mut c = fold::START;
    let mut d = fold::START;
    let mut i: usize = 0;
    while i < n {
        let at = i * 32;
        let first = word_at(ram, at);
        let second = word_at(ram, at + 8);
        let third = word_at(ram, at + 16);
        let fourth = word_at(ram, at + 24);
        a = fold::join(a, first);
        b = fold::join(b, second);
        c = fold::join(c, third);
        d = fold::join(d, fourth);
        i += 1;
    }
    (a, b, c, d)
}

// The digests of the lanes.
#[tactic(auto, using(crate::proofs::Wording::all_whole, crate::proofs::Wording::and_part))]
fn lanes(ram: &[u8]) -> (u64, u64, u64, u64)
    ensures first { result.0 ≡ lane ram.now 0 }
    ensures second { result.1 ≡ lane ram.now 1 }
    ensures third { result.2 ≡ lane ram.now 2 }
    ensures fourth { result.3 ≡ lane ram.now 3 }
{
    let whole = whole_lanes(ram);
    let at = ram.len() / 32 * 32;
    if ram.len() == at {
        whole
    } else {
        let first = word_at(ram, at);
        let second = word_at(ram, at + 8);
        let third = word_at(ram, at + 16);
        let fourth = word_at(ram, at + 24);
        (
            fold::join(whole.0, first),
            fold::join(whole.1, second),
            fold::join(whole.2, third),
            fold::join(whole.3, fourth),
        )
    }
}

// The digest of a window.
#[tactic(auto, using(crate::proofs::Wording::headed))]
pub fn window(base: u64, ram: &[u8]) -> u64
    ensures { result ≡ digest_of (window_words base ram.now) }
{
    let lanes = lanes(ram);
    let mut h = fold::join(fold::START, base);
    h = fold::join(h, ram.len() as u64);
    h = fold::join(h, lanes.0);
    h = fold::join(h, lanes.1);
    h = fold::join(h, lanes.2);
    fold::join(h, lanes.3)
}
