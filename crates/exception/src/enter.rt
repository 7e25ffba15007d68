// Exception entry, in place on the parts of a core that it changes.
ghost use Rattle.std.specs.Prelude.{◌≡◌};
ghost use Rattle.exception.specs.Entry.{vect_offset, updated, enter_of, take_sync};

use crate::flags::{DAIF_ALL, Flags};
use crate::kind::Exception;
use crate::route::Origin;
use sysreg::regs::{Control, Regime, SysRegs};

/// The offset of synchronous exceptions within each group of four vectors (DDI 0487, D1.10.2).
pub const VECTOR_SYNC: u64 = 0x000;

/// The vector-group offset for an exception from one level to another.
pub fn vector_group(from: u8, to: u8, spsel: bool) -> u64
    ensures { result ≡ vect_offset from to spsel }
{
    match (from == to, spsel) {
        (true, false) => 0x000,
        (true, true) => 0x200,
        (false, _) => 0x400,
    }
}

// The target level's register, where a value is given.
#[inline(always)]
#[tactic(auto, using(sysreg::proofs::WriteLaws::four))]
fn update(bank: &mut [u64; 4], target: Regime, value: Option<u64>)
    ensures { bank.new ≡ updated target value bank.old }
{
    if let Some(value) = value {
        bank[target.index()] = value;
    }
}

/// Exception entry to AArch64 at `target` (DDI 0487, D1.10.2): `kind` is the vector's offset in its group, `ret` the
/// address that it returns to.
#[inline(always)]
#[tactic(auto, unfolding(crate::specs::Entry::enter_of, crate::specs::Entry::entered_sys), using(sysreg::proofs::WriteLaws::four))]
pub fn enter(
    level: &mut u8,
    flags: &mut Flags,
    pc: &mut u64,
    sys: &mut SysRegs,
    target: Regime,
    kind: u64,
    esr: Option<u64>,
    far: Option<u64>,
    ret: u64,
)
    ensures { record { level = level.new; flags = flags.new; pc = pc.new; sys = sys.new }
        ≡ enter_of level.old flags.old sys.old target kind esr far ret }
{
    let t = target.index();
    let group = vector_group(*level, t as u8, flags.spsel);
    sys.spsr[t] = flags.pstate(*level);
    sys.elr[t] = ret;
    update(&mut sys.esr, target, esr);
    update(&mut sys.far, target, far);
    *level = t as u8;
    flags.spsel = true;
    flags.daif = DAIF_ALL;
    *pc = sys.vbar[t].wrapping_add(group.wrapping_add(kind));
}

/// Routes and takes a synchronous exception at the PC (DDI 0487, D1.10.3). Of the level two bits count.
#[inline(always)]
#[tactic(auto, unfolding(crate::specs::Entry::take_sync))]
pub fn take_sync(
    level: &mut u8,
    flags: &mut Flags,
    pc: &mut u64,
    sys: &mut SysRegs,
    control: &Control,
    e: Exception,
)
    ensures { record { level = level.new; flags = flags.new; pc = pc.new; sys = sys.new }
        ≡ take_sync level.old flags.old pc.old control.now.scr_el3 control.now.hcr_el2 sys.old e }
{
    *level &= 3;
    let from = Origin {
        level: *level,
        scr_el3: control.scr_el3,
        hcr_el2: control.hcr_el2,
        pc: *pc,
    };
    let routed = from.route(e);
    let target = routed.target;
    let (esr, far) = routed.exception.syndrome(*level, target.index() as u8, *pc);
    enter(
        level,
        flags,
        pc,
        sys,
        target,
        VECTOR_SYNC,
        Some(esr),
        far,
        routed.ret,
    );
}
