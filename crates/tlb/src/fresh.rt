// The judged fresh answer: how an access ends with nothing cached.
ghost use Rattle.std.specs.Prelude.{◌≡◌};
ghost use Rattle.word.specs.Ram.{word_at};
ghost use Rattle.tlb.specs.Translate.{fresh_answer};

use crate::access::Kind;
use crate::entry::Entry;
use fault::Fault;
use sysreg::regs::Regime;
use walk::fresh::Fresh;
use walk::regime::Bank;

/// The answer to an access at `va` with nothing cached, in the regime whose registers are `s`, over the RAM that
/// starts at `base`: the physical address, or the fault of the walk or of the permission check. It is judged by EL0's
/// rights or by the regime's own, whatever the level.
#[inline(always)]
#[tactic(auto, unfolding(crate::specs::Translate::fresh_answer))]
pub fn fresh_answer(
    s: Bank,
    regime: Regime,
    user: bool,
    kind: Kind,
    va: u64,
    base: u64,
    ram: &[u8],
) -> Result<u64, Fault>
    ensures { result ≡ fresh_answer s regime user kind va (word_at base ram.now 8) }
{
    match s.fresh(regime, va, base, ram) {
        Fresh::Flat(pa) => Ok(pa),
        // as the entry that the leaf becomes: its ASID and its tag count for nothing
        Fresh::Ended(Ok(leaf)) => Entry::new(leaf, 0, 0).judge(user, kind, va),
        Fresh::Ended(Err(code)) => Err(fault::first(code)),
    }
}
