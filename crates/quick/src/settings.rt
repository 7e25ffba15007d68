// What sets a register, the level, the mark or a general register of a core that is lent, and abort entry: the number.
ghost use Rattle.cpu.specs.declared.call.Call.TheVariants as Call;
ghost use Rattle.call_words.specs.declared.op.DecodedCall.TheVariants as DecodedCall;
ghost use Rattle.call_words.specs.Ops.{key_of, mark_call};
ghost use Rattle.quick.specs.Says.{Sets};

use call_words::op;
use cpu::{Core, check};
use exception::kind::Exception;
use sysreg::write::WriteError;

/// A register write, by the register's key.
#[inline(always)]
pub fn register(core: &mut Core, key: u64, value: u64) -> u64
    ensures { Sets (DecodedCall.Known (Call.Register (key_of key) value)) core.old result core.new }
{
    if 3 < core.privilege.level {
        return 1;
    }
    match core.write_reg(op::key_of(key), value) {
        Ok(()) => 0,
        Err(WriteError::Undefined) => 65,
        Err(WriteError::NoRegister) => 6,
    }
}

/// The present level, 0 to 3.
#[inline(always)]
pub fn level(core: &mut Core, level: u64) -> u64
    ensures { Sets (DecodedCall.Known (Call.Level level)) core.old result core.new }
{
    if 3 < core.privilege.level {
        return 1;
    }
    if 3 < level {
        return 1;
    }
    core.set_level(level as u8);
    0
}

/// The mark of unprivileged accesses, 0 or 1.
#[inline(always)]
pub fn mark(core: &mut Core, mark: u64) -> u64
    ensures { Sets (mark_call mark) core.old result core.new }
{
    if 1 < mark {
        return 64;
    }
    if 3 < core.privilege.level {
        return 1;
    }
    core.set_mark(mark == 1);
    0
}

/// A general register, X0 to X30; 31 takes nothing.
#[inline(always)]
pub fn general(core: &mut Core, number: u64, value: u64) -> u64
    ensures { Sets (DecodedCall.Known (Call.General number value)) core.old result core.new }
{
    if 3 < core.privilege.level {
        return 1;
    }
    if number < 31 {
        core.set_reg(number, value);
        0
    } else if number == 31 {
        0
    } else {
        5
    }
}

/// Abort entry.
#[inline(always)]
pub fn abort(core: &mut Core, e: Exception) -> u64
    ensures { Sets (DecodedCall.Known (Call.Abort e)) core.old result core.new }
{
    if 3 < core.privilege.level {
        return 1;
    }
    core.take_sync(e);
    0
}
