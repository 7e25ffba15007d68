// What sets a register, the level, the mark or a general register, and abort entry: no RAM, and no report.
ghost use Rattle.cpu.specs.declared.call.Call.TheVariants as Call;
ghost use Rattle.call_words.specs.declared.op.DecodedCall.TheVariants as DecodedCall;
ghost use Rattle.call_words.specs.Ops.{key_of, exception_at, abort_call, mark_call};
ghost use Rattle.core_calls.specs.Promise.{Setting};

use call_words::op;
use call_words::op::DecodedException;
use cpu::Core;

/// A register write, by the register's key.
#[inline(always)]
pub fn register(core: &mut Core, key: u64, value: u64) -> u64
    ensures { Setting (DecodedCall.Known (Call.Register (key_of key) value)) core.old result core.new }
{
    quick::settings::register(core, key, value)
}

/// The present level, 0 to 3.
#[inline(always)]
pub fn level(core: &mut Core, level: u64) -> u64
    ensures { Setting (DecodedCall.Known (Call.Level level)) core.old result core.new }
{
    quick::settings::level(core, level)
}

/// A general register, X0 to X30; 31 takes nothing.
#[inline(always)]
pub fn general(core: &mut Core, number: u64, value: u64) -> u64
    ensures { Setting (DecodedCall.Known (Call.General number value)) core.old result core.new }
{
    quick::settings::general(core, number, value)
}

/// The mark of unprivileged accesses, 0 or 1.
#[inline(always)]
pub fn mark(core: &mut Core, mark: u64) -> u64
    ensures { Setting (mark_call mark) core.old result core.new }
{
    quick::settings::mark(core, mark)
}

/// Abort entry, of an exception in four words.
#[inline(always)]
pub fn abort(core: &mut Core, exception: &[u64; 4]) -> u64
    ensures { Setting (abort_call (exception_at exception.now)) core.old result core.new }
{
    match op::exception_of(exception[0], exception[1], exception[2], exception[3]) {
        DecodedException::Known(known) => quick::settings::abort(core, known),
        DecodedException::Unknown => 64,
    }
}
