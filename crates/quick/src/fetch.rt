// A fetch on a core that is lent, and where one goes: the number, and in ans the instruction or the address, and what
// was read. Both are one text: INSN says whether the instruction is read.
ghost use Rattle.std.specs.Prelude.{◌≡◌, true, false, length, None};
ghost use Rattle.word.specs.Ram.{word_at};
ghost use Rattle.tlb.specs.Tlb.{fetch_found};
ghost use Rattle.tlb.specs.Translate.{no_work};
ghost use Rattle.tlb.specs.declared.access.Kind.TheVariants.{Fetch};
ghost use Rattle.cpu.specs.declared.call.Call.TheVariants as Call;
ghost use Rattle.cpu.specs.Memory.{NeedsWalkNow};
ghost use Rattle.cpu.specs.Step.{step_of, after_fetch};
ghost use Rattle.cpu.specs.Work.{fetch_work, step_work};
ghost use Rattle.quick.specs.Says.{Tells, fetched_of, hint_left, ram_checked, fetch_run, fetch_ended, fetch_served};

use crate::{hint, translation};
use call_words::reply::Report;
use cpu::{Core, bytes, check};
use fault::Fault;
use tlb::access::Kind;
use tlb::hint::FetchHint;
use tlb::work::Work;

// The end of a fetch, after its translation.
#[inline(always)]
fn read(
    core: &mut Core,
    va: u64,
    answer: Result<u64, Fault>,
    work: Work,
    ans: &mut Report,
    base: u64,
    ram: &[u8],
) -> u64
    ensures { Tells (after_fetch (fetched_of core.old answer base ram.now va)) work ans.old result ans.new core.new }
{
    ans.reads = work.reads;
    match answer {
        Ok(pa) => match bytes::insn_at(base, ram, pa) {
            Some(v) => {
                ans.value = v as u64;
                0
            }
            None => {
                core.abort_pa = pa;
                272
            }
        },
        Err(fault) => 256 + fault.fsc as u64,
    }
}

#[inline(always)]
fn ended<const INSN: bool>(
    core: &mut Core,
    va: u64,
    answer: Result<u64, Fault>,
    work: Work,
    ans: &mut Report,
    base: u64,
    ram: &[u8],
) -> u64
    ensures { Tells (fetch_ended INSN core.old answer base ram.now va) work ans.old result ans.new core.new }
{
    if INSN {
        read(core, va, answer, work, ans, base, ram)
    } else {
        translation::reached(answer, work, ans)
    }
}

// An allowed address becomes the fetch hint.
#[inline(always)]
#[tactic(auto, unfolding(cpu::specs::Core::after_access))]
fn leave(core: &mut Core, va: u64, answer: Result<u64, Fault>)
    ensures { core.new ≡ hint_left core.old va answer }
{
    if let Ok(pa) = answer {
        core.tlb.fetch = Some(FetchHint::new(va, core.privilege.level, pa));
    }
}

// By a walk.
#[inline(never)]
fn by_walk<const INSN: bool>(
    core: &mut Core,
    va: u64,
    ans: &mut Report,
    base: u64,
    ram: &[u8],
) -> u64
    requires no_hint { fetch_found core.old.tlb.fetch core.old.privilege.level va ≡ None }
    requires needs_walk { NeedsWalkNow core.old (word_at base ram.now 8) va Fetch }
    ensures { Tells (fetch_run INSN core.old base ram.now va)
        (fetch_work core.old (word_at base ram.now 8) va no_work) ans.old result ans.new core.new }
{
    let mut work = Work::none();
    let answer = core.by_walk(base, ram, va, Kind::Fetch, &mut work);
    leave(core, va, answer);
    ended::<INSN>(core, va, answer, work, ans, base, ram)
}

// What is at hand, or a walk.
#[inline(always)]
fn by_entry<const INSN: bool>(
    core: &mut Core,
    va: u64,
    ans: &mut Report,
    base: u64,
    ram: &[u8],
) -> u64
    requires no_hint { fetch_found core.old.tlb.fetch core.old.privilege.level va ≡ None }
    ensures { Tells (fetch_run INSN core.old base ram.now va)
        (fetch_work core.old (word_at base ram.now 8) va no_work) ans.old result ans.new core.new }
{
    match core.at_hand(base, ram, va, Kind::Fetch) {
        Some(answer) => {
            leave(core, va, answer);
            ended::<INSN>(core, va, answer, Work::none(), ans, base, ram)
        }
        None => by_walk::<INSN>(core, va, ans, base, ram),
    }
}

#[inline(never)]
fn past_hint<const INSN: bool>(
    core: &mut Core,
    va: u64,
    ans: &mut Report,
    base: u64,
    ram: &[u8],
) -> u64
    requires no_hint { fetch_found core.old.tlb.fetch core.old.privilege.level va ≡ None }
    ensures { Tells (fetch_run INSN core.old base ram.now va)
        (fetch_work core.old (word_at base ram.now 8) va no_work) ans.old result ans.new core.new }
{
    by_entry::<INSN>(core, va, ans, base, ram)
}

#[inline(always)]
fn by_hint<const INSN: bool>(
    core: &mut Core,
    va: u64,
    ans: &mut Report,
    base: u64,
    ram: &[u8],
) -> u64
    ensures { Tells (fetch_run INSN core.old base ram.now va)
        (fetch_work core.old (word_at base ram.now 8) va no_work) ans.old result ans.new core.new }
{
    match core.tlb.by_fetch_hint(core.privilege.level, va) {
        Some(pa) => ended::<INSN>(core, va, Ok(pa), Work::none(), ans, base, ram),
        None => past_hint::<INSN>(core, va, ans, base, ram),
    }
}

// A level above 3, or a window that ends at 2^64 or past it: the checks by name.
#[cold]
#[inline(never)]
fn checked<const INSN: bool>(
    core: &mut Core,
    va: u64,
    ans: &mut Report,
    base: u64,
    ram: &[u8],
) -> u64
    ensures { Tells (ram_checked core.old base ram.now (fetch_run INSN core.old base ram.now va))
        (fetch_work core.old (word_at base ram.now 8) va no_work) ans.old result ans.new core.new }
{
    match check::with_ram(core.privilege.level, base, ram.len() as u64) {
        Ok(()) => by_hint::<INSN>(core, va, ans, base, ram),
        Err(missed) => missed.number() as u64,
    }
}

#[inline(always)]
fn asked(core: &mut Core, va: u64, ans: &mut Report, base: u64, ram: &[u8]) -> u64
    ensures { Tells (ram_checked core.old base ram.now (fetch_run true core.old base ram.now va))
        (fetch_work core.old (word_at base ram.now 8) va no_work) ans.old result ans.new core.new }
{
    if 3 < core.privilege.level {
        checked::<true>(core, va, ans, base, ram)
    } else if u64::MAX - (ram.len() as u64) < base {
        checked::<true>(core, va, ans, base, ram)
    } else {
        by_hint::<true>(core, va, ans, base, ram)
    }
}

/// The instruction at va.
#[inline(always)]
pub fn fetch(core: &mut Core, va: u64, ans: &mut Report, base: u64, ram: &[u8]) -> u64
    ensures { Tells (step_of core.old base ram.now (Call.Fetch va))
        (step_work core.old base ram.now (Call.Fetch va) no_work) ans.old result ans.new core.new }
{
    asked(core, va, ans, base, ram)
}

// Where a fetch goes that is not served at once: the level, the window, and past the hint. Its arguments are those of
// the call in their order, so that it is jumped to.
#[inline(never)]
fn rest(core: &mut Core, va: u64, ans: &mut Report, base: u64, ram: &[u8]) -> u64
    requires not_served { fetch_served core.old base (length ram.now) va ≡ None }
    ensures { Tells (ram_checked core.old base ram.now (fetch_run false core.old base ram.now va))
        (fetch_work core.old (word_at base ram.now 8) va no_work) ans.old result ans.new core.new }
{
    if 3 < core.privilege.level {
        checked::<false>(core, va, ans, base, ram)
    } else if u64::MAX - (ram.len() as u64) < base {
        checked::<false>(core, va, ans, base, ram)
    } else {
        by_entry::<false>(core, va, ans, base, ram)
    }
}

/// Where a fetch of va goes, by the same hint, which a new page refreshes.
#[inline(always)]
pub fn fetch_pa(core: &mut Core, va: u64, ans: &mut Report, base: u64, ram: &[u8]) -> u64
    ensures { Tells (step_of core.old base ram.now (Call.FetchPa va))
        (step_work core.old base ram.now (Call.FetchPa va) no_work) ans.old result ans.new core.new }
{
    match hint::fetch_served(core, va, base, ram.len() as u64) {
        Some(pa) => ended::<false>(core, va, Ok(pa), Work::none(), ans, base, ram),
        None => rest(core, va, ans, base, ram),
    }
}
