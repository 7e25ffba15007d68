// A load on a core that is lent: its number, and in ans its value and what it read.
ghost use Rattle.std.specs.Prelude.{◌≡◌, ◌≤◌, None};
ghost use Rattle.word.specs.Ram.{word_at, bytes_in};
ghost use Rattle.tlb.specs.Translate.{hint_in, no_work};
ghost use Rattle.tlb.specs.declared.access.Kind.TheVariants.{Read};
ghost use Rattle.cpu.specs.Bytes.{in_page};
ghost use Rattle.cpu.specs.declared.call.Call.TheVariants as Call;
ghost use Rattle.cpu.specs.Memory.{NeedsWalkNow, read_of};
ghost use Rattle.cpu.specs.Step.{step_of, after_load};
ghost use Rattle.cpu.specs.Work.{read_work, step_work};
ghost use Rattle.quick.specs.Says.{Tells, ended_of};

use crate::instance::Datum;
use crate::split;
use call_words::reply::{self, Report};
use cpu::call::Reply;
use cpu::{Core, check, place};
use fault::Fault;
use tlb::access::Kind;
use tlb::work::Work;
use word::ram;
use word::ram::Width;

// The core's own load, for what is not served at once.
#[cold]
#[inline(never)]
fn own(core: &mut Core, va: u64, width: Width, ans: &mut Report, base: u64, ram: &[u8]) -> u64
    ensures { Tells (after_load (read_of core.old base ram.now va (bytes_in width)))
        (read_work core.old base ram.now va (bytes_in width) no_work) ans.old result ans.new core.new }
{
    let mut work = Work::none();
    let r = Reply::from(core.read(base, ram, va, width, &mut work));
    reply::answer(r, work, ans)
}

// Any size, and a window that ends at 2^64 or past it: the checks by name.
#[cold]
#[inline(never)]
fn checked(core: &mut Core, va: u64, size: u64, ans: &mut Report, base: u64, ram: &[u8]) -> u64
    ensures { Tells (step_of core.old base ram.now (Call.Load va size))
        (step_work core.old base ram.now (Call.Load va size) no_work) ans.old result ans.new core.new }
{
    match check::sized(core.privilege.level, base, ram.len() as u64, size) {
        Ok(width) => own(core, va, width, ans, base, ram),
        Err(missed) => missed.number() as u64,
    }
}

// The same of a width, with six words to hand on.
#[cold]
#[inline(never)]
fn checked_as<W: Datum>(core: &mut Core, va: u64, ans: &mut Report, base: u64, ram: &[u8]) -> u64
    ensures { Tells (step_of core.old base ram.now (Call.Load va (bytes_in W.WIDTH)))
        (step_work core.old base ram.now (Call.Load va (bytes_in W.WIDTH)) no_work) ans.old result ans.new core.new }
{
    checked(core, va, W::WIDTH.bytes(), ans, base, ram)
}

// Two pages: at once by both hints, or by the core's own load.
#[inline(never)]
fn pages<W: Datum>(core: &mut Core, va: u64, ans: &mut Report, base: u64, ram: &[u8]) -> u64
    ensures { Tells (step_of core.old base ram.now (Call.Load va (bytes_in W.WIDTH)))
        (step_work core.old base ram.now (Call.Load va (bytes_in W.WIDTH)) no_work) ans.old result ans.new core.new }
{
    if let Some((first, v)) = split::load(core, va, W::WIDTH, base, ram) {
        core.last_pa = first;
        *ans = Report { value: v, reads: 0 };
        return 0;
    }
    if 3 < core.privilege.level {
        checked_as::<W>(core, va, ans, base, ram)
    } else if u64::MAX - (ram.len() as u64) < base {
        checked_as::<W>(core, va, ans, base, ram)
    } else {
        own(core, va, W::WIDTH, ans, base, ram)
    }
}

// The end of a load of one page, after its translation.
#[inline(always)]
fn ended<W: Datum>(
    core: &mut Core,
    va: u64,
    answer: Result<u64, Fault>,
    work: Work,
    ans: &mut Report,
    base: u64,
    ram: &[u8],
) -> u64
    ensures { Tells (after_load (ended_of core.old answer base ram.now va (bytes_in W.WIDTH))) work
        ans.old result ans.new core.new }
{
    ans.reads = work.reads;
    match answer {
        Ok(pa) => {
            core.last_pa = pa;
            match ram::read(base, ram, W::WIDTH, pa) {
                Some(v) => {
                    ans.value = v;
                    0
                }
                None => {
                    core.abort_pa = pa;
                    ans.value = va;
                    272
                }
            }
        }
        Err(fault) => {
            ans.value = va;
            256 + fault.fsc as u64
        }
    }
}

// By a walk.
#[inline(never)]
fn by_walk<W: Datum>(core: &mut Core, va: u64, ans: &mut Report, base: u64, ram: &[u8]) -> u64
    requires near { bytes_in W.WIDTH ≤ in_page va }
    requires no_hint { hint_in core.old.privilege va Read core.old.tlb ≡ None }
    requires needs_walk { NeedsWalkNow core.old (word_at base ram.now 8) va Read }
    ensures { Tells (after_load (read_of core.old base ram.now va (bytes_in W.WIDTH)))
        (read_work core.old base ram.now va (bytes_in W.WIDTH) no_work) ans.old result ans.new core.new }
{
    let mut work = Work::none();
    let answer = core.by_walk(base, ram, va, Kind::Read, &mut work);
    ended::<W>(core, va, answer, work, ans, base, ram)
}

#[inline(never)]
fn past_hint<W: Datum>(core: &mut Core, va: u64, ans: &mut Report, base: u64, ram: &[u8]) -> u64
    requires near { bytes_in W.WIDTH ≤ in_page va }
    requires no_hint { hint_in core.old.privilege va Read core.old.tlb ≡ None }
    ensures { Tells (after_load (read_of core.old base ram.now va (bytes_in W.WIDTH)))
        (read_work core.old base ram.now va (bytes_in W.WIDTH) no_work) ans.old result ans.new core.new }
{
    match core.at_hand(base, ram, va, Kind::Read) {
        Some(answer) => ended::<W>(core, va, answer, Work::none(), ans, base, ram),
        None => by_walk::<W>(core, va, ans, base, ram),
    }
}

#[inline(always)]
fn by_hint<W: Datum>(core: &mut Core, va: u64, ans: &mut Report, base: u64, ram: &[u8]) -> u64
    requires near { bytes_in W.WIDTH ≤ in_page va }
    ensures { Tells (after_load (read_of core.old base ram.now va (bytes_in W.WIDTH)))
        (read_work core.old base ram.now va (bytes_in W.WIDTH) no_work) ans.old result ans.new core.new }
{
    match core.tlb.by_hint(core.privilege, va, Kind::Read) {
        Some(pa) => ended::<W>(core, va, Ok(pa), Work::none(), ans, base, ram),
        None => past_hint::<W>(core, va, ans, base, ram),
    }
}

#[inline(always)]
fn load_as<W: Datum>(core: &mut Core, va: u64, ans: &mut Report, base: u64, ram: &[u8]) -> u64
    ensures { Tells (step_of core.old base ram.now (Call.Load va (bytes_in W.WIDTH)))
        (step_work core.old base ram.now (Call.Load va (bytes_in W.WIDTH)) no_work) ans.old result ans.new core.new }
{
    if place::in_page(va) < W::WIDTH.bytes() {
        pages::<W>(core, va, ans, base, ram)
    } else if 3 < core.privilege.level {
        checked(core, va, W::WIDTH.bytes(), ans, base, ram)
    } else if u64::MAX - (ram.len() as u64) < base {
        checked(core, va, W::WIDTH.bytes(), ans, base, ram)
    } else {
        by_hint::<W>(core, va, ans, base, ram)
    }
}

/// A load of 1, 2, 4 or 8 bytes. The tests come in this order for the sake of the commonest size.
#[inline(always)]
pub fn load(core: &mut Core, va: u64, size: u64, ans: &mut Report, base: u64, ram: &[u8]) -> u64
    ensures { Tells (step_of core.old base ram.now (Call.Load va size))
        (step_work core.old base ram.now (Call.Load va size) no_work) ans.old result ans.new core.new }
{
    if 4 < size {
        if size == 8 {
            load_as::<u64>(core, va, ans, base, ram)
        } else {
            checked(core, va, size, ans, base, ram)
        }
    } else if size == 4 {
        load_as::<u32>(core, va, ans, base, ram)
    } else if size == 2 {
        load_as::<u16>(core, va, ans, base, ram)
    } else if size == 1 {
        load_as::<u8>(core, va, ans, base, ram)
    } else {
        checked(core, va, size, ans, base, ram)
    }
}
