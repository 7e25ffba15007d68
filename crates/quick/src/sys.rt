// A system operation on a core that is lent: its number, RAM, and in ans the address of a data abort and what it read.
ghost use Rattle.std.specs.Prelude.{◌≡◌, ◌+◌, ◌%◌, ◌^◌, ◌≤◌};
ghost use Rattle.word.specs.Bits.{align_down};
ghost use Rattle.tlb.specs.Translate.{no_work};
ghost use Rattle.cpu.specs.System.{tlbi_core, zero_of, zero_ram, sys_of, sys_ram};
ghost use Rattle.cpu.specs.declared.call.Call.TheVariants as Call;
ghost use Rattle.call_words.specs.Ops.{encoding_of};
ghost use Rattle.cpu.specs.Step.{step_of, ram_after, after_store};
ghost use Rattle.cpu.specs.Work.{zero_work, sys_work, step_work};
ghost use Rattle.quick.specs.Says.{Tells, Cleared};

use call_words::reply::{self, Report};
use cpu::{Core, check};
use system::decode;
use system::decode::{Encoding, SysOp};
use tlb::access::Kind;
use tlb::work::Work;
use word::ram;

// 64 zero bytes at the line va by its page's hint, where it points at a line of RAM, and whether they are written.
#[inline(always)]
fn clear(core: &Core, base: u64, ram: &mut [u8], va: u64) -> bool
    requires line { va % 64 ≡ 0 }
    requires room { va + 64 ≤ 2 ^ 64 }
    ensures { Cleared core.now base ram.old va result ram.new }
{
    match core.tlb.by_hint(core.privilege, va, Kind::Write) {
        Some(pa) => pa % 64 == 0 && ram::write_bytes(base, ram, 64, pa, 0),
        None => false,
    }
}

// DC ZVA: by one hint, or by its eight stores.
#[inline(always)]
fn zva(core: &mut Core, ans: &mut Report, base: u64, ram: &mut [u8], x: u64) -> u64
    ensures tells { Tells (after_store (zero_of 8 core.old base ram.old (align_down x 6)))
        (zero_work 8 core.old base ram.old (align_down x 6) no_work) ans.old result ans.new core.new }
    ensures ram { ram.new ≡ zero_ram 8 core.old base ram.old (align_down x 6) }
{
    if clear(core, base, ram, x - x % 64) {
        ans.reads = 0;
        return 0;
    }
    let mut work = Work::none();
    let answer = core.zva(base, ram, x, &mut work);
    reply::stored(answer, work, ans)
}

// TLBI, out of line, so that its loop over the entries has the registers to itself.
#[inline(never)]
fn tlbi(core: &mut Core, e: Encoding, x: u64)
    ensures { core.new ≡ tlbi_core core.old e.op1 e.crm e.op2 x }
{
    core.tlbi(e, x);
}

// The operation past its checks.
#[inline(always)]
#[tactic(auto, unfolding(cpu::specs::System::sys_of, cpu::specs::System::sys_ram, cpu::specs::Work::sys_work))]
fn operate(core: &mut Core, e: Encoding, ans: &mut Report, base: u64, ram: &mut [u8]) -> u64
    ensures tells { Tells (after_store (sys_of core.old base ram.old e.op1 e.crn e.crm e.op2 e.rt))
        (sys_work core.old base ram.old e.op1 e.crn e.crm e.op2 e.rt no_work) ans.old result ans.new core.new }
    ensures ram { ram.new ≡ sys_ram core.old base ram.old e.op1 e.crn e.crm e.op2 e.rt }
{
    let x = core.reg(e.rt);
    match decode::decode(core.privilege.level, e) {
        SysOp::At(form) => {
            let mut work = Work::none();
            core.at(base, ram, form, x, &mut work);
            ans.reads = work.reads;
            0
        }
        SysOp::Tlbi => {
            tlbi(core, e, x);
            ans.reads = 0;
            0
        }
        SysOp::Zva => zva(core, ans, base, ram, x),
        SysOp::Nothing => {
            ans.reads = 0;
            0
        }
        SysOp::Undefined => 65,
        SysOp::Unimplemented => 66,
    }
}

/// A system operation: SYS op1, CRn, CRm, op2 with the register rt.
#[inline(always)]
pub fn system(
    core: &mut Core,
    op1: u64,
    crn: u64,
    crm: u64,
    op2: u64,
    rt: u64,
    ans: &mut Report,
    base: u64,
    ram: &mut [u8],
) -> u64
    ensures tells { Tells (step_of core.old base ram.old (Call.System (encoding_of op1 crn crm op2 rt)))
        (step_work core.old base ram.old (Call.System (encoding_of op1 crn crm op2 rt)) no_work)
        ans.old result ans.new core.new }
    ensures ram { ram.new ≡ ram_after core.old base ram.old (Call.System (encoding_of op1 crn crm op2 rt)) }
{
    let e = Encoding {
        op1,
        crn,
        crm,
        op2,
        rt,
    };
    match check::system(core.privilege.level, base, ram.len() as u64, e) {
        Ok(()) => operate(core, e, ans, base, ram),
        Err(missed) => missed.number() as u64,
    }
}
