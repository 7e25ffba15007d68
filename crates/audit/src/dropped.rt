//! What a call invalidates, and which walks that covers, both read from the calls and never from the cache.
ghost use Rattle.std.specs.Prelude.{◌≡◌, ◌≤◌, []};
ghost use Rattle.tlb.specs.Model.{span_bits};
ghost use Rattle.cpu.specs.Bare.{bare_of};
ghost use Rattle.history.specs.Window.{window_of};
ghost use Rattle.history.specs.World.{covers};
ghost use Rattle.cpu.specs.declared.call.Call.TheVariants.{Register};
ghost use Rattle.transparency.specs.Bare.{by_write, if_allowed, ruling_in, written_in};
ghost use Rattle.transparency.specs.Claim.{drops_of};
ghost use Rattle.cluster.specs.Shared.{shared_in};
ghost use Rattle.audit.specs.Answers.{drops_in};

use cpu::call::Call;
use cpu::{Core, check};
use sysreg::write;
use system::decode::SysOp;
use system::{decode, tlbi};
use tlb::Inval;
use walk::level::Leaf;

// The bits of a page's number: VA[55:12].
const BITS: u64 = (1 << 44) - 1;

// How many low bits of a page's number lie within a leaf of the level.
fn span(level: u8) -> u64
    ensures value { result ≡ span_bits level }
    ensures upper_bound { result ≤ 18 }
{
    match level {
        1 => 18,
        2 => 9,
        _ => 0,
    }
}

/// Whether an invalidation covers the walk of a page (an untagged address's, without its low twelve bits) that ended in
/// a leaf with an ASID in force.
#[tactic(auto, unfolding(history::specs::World::covers))]
pub fn covers(what: Inval, page: u64, leaf: &Leaf, asid: u16) -> bool
    ensures { result ≡ covers what page leaf.now asid }
{
    match what {
        Inval::All => true,
        Inval::Page(number) => {
            let span = span(leaf.level);
            (page & BITS) >> span == (number & BITS) >> span
        }
        Inval::Asid(other) => !leaf.global && asid == other,
    }
}

// A register write drops everything where it changes what shapes a translation.
fn reshaped(core: &Core, key: u32, value: u64) -> Option<Inval>
    ensures { drops_in result ≡ if_allowed (by_write (written_in (bare_of core.now) key value).answer)
        (drops_of (bare_of core.now) (Register key value)) [] }
{
    let (mut control, mut sys) = (core.control, core.sys);
    write::write_reg(&mut control, &mut sys, core.privilege.level, key, value).ok()?;
    (!core.control.same_shaping(&control)).then_some(Inval::All)
}

/// What a call is about to invalidate: nothing where it is refused.
pub fn dropped(core: &Core, base: u64, ram: &[u8], call: Call) -> Option<Inval>
    ensures { drops_in result
        ≡ if_allowed (ruling_in (bare_of core.now) (window_of base ram.now) call)
        (drops_of (bare_of core.now) call) [] }
{
    let level = core.privilege.level;
    check::missed(level, base, ram.len() as u64, call).ok()?;
    match call {
        Call::System(e) => match decode::decode(level, e) {
            SysOp::Tlbi => Some(tlbi::tlbi(&core.control, e, core.reg(e.rt))),
            _ => None,
        },
        Call::Register(key, value) => reshaped(core, key, value),
        _ => None,
    }
}

/// What a call of one of several cores is about to have the others invalidate: the Inner Shareable forms of TLBI do.
/// Nothing where it is refused.
pub fn shared(core: &Core, base: u64, ram: &[u8], call: Call) -> Option<Inval>
    ensures { result ≡ shared_in (bare_of core.now) (window_of base ram.now) call }
{
    let level = core.privilege.level;
    check::missed(level, base, ram.len() as u64, call).ok()?;
    match call {
        Call::System(e) if e.crm == 3 => match decode::decode(level, e) {
            SysOp::Tlbi => Some(tlbi::tlbi(&core.control, e, core.reg(e.rt))),
            _ => None,
        },
        _ => None,
    }
}
