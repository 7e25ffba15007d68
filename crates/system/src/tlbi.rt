// What a TLBI drops.
ghost use Rattle.std.specs.Prelude.{◌≡◌};
ghost use Rattle.system.specs.Tlbi.{ranged, asid_form, what_of, tlbi_of};

use crate::decode::Encoding;
use sysreg::regs::{Control, Regime};
use tlb::Inval;
use walk::regime::Bank;

// By address: a page where the regime's pages are 4 KiB, by TG0 and in EL1&0 by TG1 too; else everything.
#[tactic(auto, unfolding(crate::specs::Tlbi::what_of))]
fn page(control: &Control, regime: Regime, x: u64) -> Inval
    ensures { result ≡ what_of control.now x (ranged regime) }
{
    let tcr = Bank::new(control, regime).tcr;
    if tcr >> 14 & 3 == 0 && (regime != Regime::El1 || tcr >> 30 & 3 == 2) {
        Inval::Page(x)
    } else {
        Inval::All
    }
}

// By ASID: 16 or 8 bits, by TCR_EL1.AS.
#[tactic(auto, unfolding(crate::specs::Tlbi::what_of))]
fn asid(control: &Control, x: u64) -> Inval
    ensures { result ≡ what_of control.now x asid_form }
{
    let wide = control.tcr[1] >> 36 & 1 != 0;
    let mask = if wide { 0xFFFF } else { 0xFF };
    Inval::Asid((x >> 48) as u16 & mask)
}

/// What TLBI op1, CRm, op2 with the operand `x` drops: one page or one ASID's entries, and everything for the rest.
#[tactic(auto, unfolding(crate::specs::Tlbi::tlbi_of, crate::specs::Tlbi::scope_of, crate::specs::Tlbi::what_of))]
pub fn tlbi(control: &Control, e: Encoding, x: u64) -> Inval
    ensures { result ≡ tlbi_of control.now e.op1 e.crm e.op2 x }
{
    match (e.op1, e.crm, e.op2) {
        (0, 3 | 7, 1 | 3 | 5 | 7) => page(control, Regime::El1, x),
        (0, 3 | 7, 2) => asid(control, x),
        (4, 3 | 7, 1 | 5) => page(control, Regime::El2, x),
        (6, 3 | 7, 1 | 5) => page(control, Regime::El3, x),
        _ => Inval::All,
    }
}
