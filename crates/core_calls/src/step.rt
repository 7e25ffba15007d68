// System operations, and every call by its words.
ghost use Rattle.cpu.specs.declared.call.Call.TheVariants as Call;
ghost use Rattle.call_words.specs.declared.op.DecodedCall.TheVariants as DecodedCall;
ghost use Rattle.call_words.specs.Ops.{encoding_of, call_of};
ghost use Rattle.core_calls.specs.Promise.{Promise, StepPromise};

use call_words::op::DecodedCall;
use call_words::reply::Report;
use call_words::{op, reply};
use cpu::Core;
use tlb::work::Work;

/// A system operation: SYS op1, CRn, CRm, op2 with the register rt.
#[inline(always)]
pub fn system(
    core: &mut Core,
    op1: u64,
    crn: u64,
    crm: u64,
    op2: u64,
    rt: u64,
    ans: &mut Report,
    base: u64,
    ram: &mut [u8],
) -> u64
    ensures { Promise (DecodedCall.Known (Call.System (encoding_of op1 crn crm op2 rt))) base ram.old
        core.old result ans.old ans.new ram.new core.new }
{
    quick::sys::system(core, op1, crn, crm, op2, rt, ans, base, ram)
}

/// The call that eight words name: 0, and in five words its answer and the descriptors that it read; 64 where they name
/// none.
pub fn step(core: &mut Core, op: &[u64; 8], base: u64, ram: &mut [u8], ans: &mut [u64; 5]) -> u64
    ensures { StepPromise (call_of op.now) base ram.old core.old result ans.old ans.new ram.new core.new }
{
    match op::call_of(op) {
        DecodedCall::Known(call) => {
            let mut work = Work::none();
            let answer = core.step(base, ram, call, &mut work);
            *ans = reply::step_words(answer, work);
            0
        }
        DecodedCall::Unknown => 64,
    }
}
