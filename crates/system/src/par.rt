// PAR_EL1 after an AT. It walks afresh: no cache stands here.
ghost use Rattle.std.specs.Prelude.{◌≡◌, ◌<◌, ◌≤◌};
ghost use Rattle.word.specs.Ram.{word_at};
ghost use Rattle.walk.specs.Walk.{fresh_reads};
ghost use Rattle.walk.specs.Regime.{bank_of};
ghost use Rattle.system.specs.Par.{success, abort, leaf_par, at_par};

use crate::decode::AtForm;
use sysreg::regs::{Control, Regime, SCR_NS};
use tlb::access::{self, Kind};
use walk::fresh::Fresh;
use walk::fsc::FSC_PERMISSION;
use walk::level::Leaf;
use walk::regime::Bank;

// PA<47:12>, and bit 11, which is RES1.
const PAR_PA: u64 = 0xFFFF_FFFF_F000;

const PAR_RES1: u64 = 1 << 11;

// A translation: ATTR<63:56>, PA<47:12>, NS<9>, SH<8:7>.
#[tactic(auto, unfolding(crate::specs::Par::success), using(crate::proofs::Words::success_word))]
fn success_par(attr: u64, pa: u64, ns: bool, sh: u64) -> u64
    requires { (attr < 256) × (sh < 4) }
    ensures { result ≡ success attr pa ns sh }
{
    attr << 56 | pa & PAR_PA | PAR_RES1 | (ns as u64) << 9 | sh << 7
}

// A fault: FST<6:1>, F<0>.
#[tactic(auto, unfolding(crate::specs::Par::abort), using(crate::proofs::Words::fault_word))]
fn fault_par(fsc: u8) -> u64
    ensures { result ≡ abort fsc }
{
    1 | (fsc as u64) << 1 | PAR_RES1
}

// A leaf: its page and attributes, or a permission fault of its level.
#[inline(always)]
#[tactic(auto, unfolding(crate::specs::Par::leaf_par), using(crate::proofs::Words::permission_status))]
fn leaf_par(mair: u64, ns: bool, form: AtForm, leaf: Leaf) -> u64
    requires { leaf.level ≤ 3 }
    ensures { result ≡ leaf_par mair ns form leaf }
{
    let kind = if form.write { Kind::Write } else { Kind::Read };
    if leaf.perms >> access::right_of(kind, form.user) & 1 == 0 {
        return fault_par(FSC_PERMISSION | leaf.level);
    }
    let attr = mair >> (8 * (leaf.desc >> 2 & 7)) & 0xFF;
    let ns = ns || leaf.desc >> 5 & 1 != 0;
    success_par(attr, leaf.oa, ns, leaf.desc >> 8 & 3)
}

/// PAR_EL1 after an AT of the form at `va`, stage 1 alone (DDI 0487, D17.2.113), and the number of descriptors that its
/// walk reads; `mair` is the regime's. It never uses or fills the cache.
#[inline(always)]
#[tactic(auto, unfolding(crate::specs::Par::at_par, crate::specs::Par::par_in), using(crate::proofs::Words::low_leaf))]
pub fn at(control: &Control, mair: u64, form: AtForm, va: u64, base: u64, ram: &[u8]) -> (u64, u8)
    ensures par { result.0 ≡ at_par control.now mair form va (word_at base ram.now 8) }
    ensures reads { result.1
        ≡ fresh_reads (bank_of control.now form.regime) form.regime va (word_at base ram.now 8) }
{
    let regime = form.regime;
    let s = Bank::new(control, regime);
    // EL3 is always Secure
    let ns = regime != Regime::El3 && s.scr_el3 & SCR_NS != 0;
    let (fresh, reads) = s.fresh_with_reads(regime, va, base, ram);
    let par = match fresh {
        Fresh::Ended(Ok(leaf)) => leaf_par(mair, ns, form, leaf),
        Fresh::Ended(Err(fsc)) => fault_par(fsc),
        Fresh::Flat(pa) => success_par(0, pa, ns, 0),
    };
    (par, reads)
}
