// One walk of the tables, of registers and RAM that the caller lends: a leaf, and how many descriptors were read.
ghost use Rattle.std.specs.Prelude.{◌≡◌, ◌+◌};
ghost use Rattle.call_words.specs.Walk.{bank_at, leaf_after, walk_code, walk_words};

use cpu::check;
use sysreg::regs::Regime;
use walk::level::Leaf;
use walk::regime::Bank;
use word::bits;

// The six registers of a regime: SCTLR, TCR, TTBR0 of its own, TTBR1_EL1, SCR_EL3, HCR_EL2.
fn bank_at(words: &[u64; 6]) -> Bank
    ensures { result ≡ bank_at words.now }
{
    Bank {
        sctlr: words[0],
        tcr: words[1],
        ttbr0: words[2],
        ttbr1_el1: words[3],
        scr_el3: words[4],
        hcr_el2: words[5],
    }
}

// The leaf as five words: output address, descriptor, permission byte, level, and 1 where it holds for every ASID; and
// what was read.
fn put_leaf(out: &mut [u64; 6], leaf: Leaf, reads: u8)
    ensures { out.new ≡ leaf_after leaf reads }
{
    let global = bits::flag_word(leaf.global);
    *out = [
        leaf.oa,
        leaf.desc,
        leaf.perms as u64,
        leaf.level as u64,
        global,
        reads as u64,
    ];
}

/// One walk of an untagged address: 0 and the leaf, or 256 plus the fault's status, and in either case how many
/// descriptors it read, which is the sixth word, and of a fault the only one that is written. 64 for no regime, 2 for a
/// window that passes 2^64, and no word is written.
#[tactic(auto, unfolding(crate::specs::Walk::walk_code, crate::specs::Walk::walk_words))]
pub fn walk_words(
    words: &[u64; 6],
    number: u64,
    va: u64,
    out: &mut [u64; 6],
    base: u64,
    ram: &[u8],
) -> u64
    ensures { (result ≡ walk_code words.now number va base ram.now) ×
        (out.new ≡ walk_words words.now number va base ram.now out.old) }
{
    match Regime::try_from(number) {
        Ok(regime) => {
            let past = check::past_end(base, ram.len() as u64);
            if past {
                return 2;
            }
            let bank = bank_at(words);
            let walked = bank.walk(regime, va, base, ram);
            match walked.end {
                Ok(leaf) => {
                    put_leaf(out, leaf, walked.reads);
                    0
                }
                Err(status) => {
                    out[5] = walked.reads as u64;
                    256 + status as u64
                }
            }
        }
        Err(_) => 64,
    }
}
