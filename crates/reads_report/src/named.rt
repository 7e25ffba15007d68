//! The page that a call is counted at.
ghost use Rattle.std.specs.Prelude.{◌≡◌};
ghost use Rattle.reads_report.specs.Named.{named, page_of};

use crate::rows::Page;
use cpu::Core;
use cpu::call::Call;
use sysreg::regs::Regime;
use system::decode;
use system::decode::SysOp;
use walk::regime::Bank;

fn of_address(core: &Core, regime: Regime, va: u64) -> Page
    ensures { result ≡ page_of core.now regime va }
{
    Page {
        level: core.privilege.level,
        regime,
        number: Bank::new(&core.control, regime).untag(regime, va) >> 12,
    }
}

/// The page of a call's first address, in its own regime or the one that AT names; none of a call that walks no table.
#[tactic(auto, unfolding(cpu::specs::Core::reg_of))]
pub fn page(core: &Core, call: Call) -> Option<Page>
    ensures { result ≡ named core.now call }
{
    let own = core.regime();
    match call {
        Call::Translate(_, va)
        | Call::DataPa(va)
        | Call::FetchPa(va)
        | Call::Load(va, _)
        | Call::Store(va, _, _)
        | Call::Fetch(va) => Some(of_address(core, own, va)),
        Call::System(e) => match decode::decode(core.privilege.level, e) {
            SysOp::At(form) => Some(of_address(core, form.regime, core.reg(e.rt))),
            SysOp::Zva => Some(of_address(core, own, core.reg(e.rt))),
            _ => None,
        },
        _ => None,
    }
}
