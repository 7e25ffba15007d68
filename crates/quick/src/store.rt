// A store on a core that is lent: its number, RAM, and in ans the address of a data abort and what it read.
ghost use Rattle.std.specs.Prelude.{◌≡◌, ◌≤◌, None};
ghost use Rattle.word.specs.Ram.{word_at, bytes_in};
ghost use Rattle.tlb.specs.Translate.{hint_in, no_work};
ghost use Rattle.tlb.specs.declared.access.Kind.TheVariants.{Write};
ghost use Rattle.cpu.specs.Bytes.{in_page};
ghost use Rattle.cpu.specs.declared.call.Call.TheVariants as Call;
ghost use Rattle.cpu.specs.Memory.{NeedsWalkNow, write_of, ram_after_write};
ghost use Rattle.cpu.specs.Step.{step_of, ram_after, after_store};
ghost use Rattle.cpu.specs.Work.{write_work, step_work};
ghost use Rattle.quick.specs.Says.{Tells, stored_of, put_of};

use crate::instance::Datum;
use crate::split;
use call_words::reply::{self, Report};
use cpu::{Core, check, place};
use fault::Fault;
use tlb::access::Kind;
use tlb::work::Work;
use word::ram;
use word::ram::Width;

// The core's own store, for what is not served at once.
#[cold]
#[inline(never)]
fn own(
    core: &mut Core,
    va: u64,
    width: Width,
    value: u64,
    ans: &mut Report,
    base: u64,
    ram: &mut [u8],
) -> u64
    ensures tells { Tells (after_store (write_of core.old base ram.old va (bytes_in width)))
        (write_work core.old base ram.old va (bytes_in width) no_work) ans.old result ans.new core.new }
    ensures ram { ram.new ≡ ram_after_write core.old base ram.old va (bytes_in width) value }
{
    let mut work = Work::none();
    let answer = core.write(base, ram, va, width, value, &mut work);
    reply::stored(answer, work, ans)
}

// Any size, and a window that ends at 2^64 or past it: the checks by name.
#[cold]
#[inline(never)]
fn checked(
    core: &mut Core,
    va: u64,
    size: u64,
    value: u64,
    ans: &mut Report,
    base: u64,
    ram: &mut [u8],
) -> u64
    ensures tells { Tells (step_of core.old base ram.old (Call.Store va size value))
        (step_work core.old base ram.old (Call.Store va size value) no_work) ans.old result ans.new core.new }
    ensures ram { ram.new ≡ ram_after core.old base ram.old (Call.Store va size value) }
{
    match check::sized(core.privilege.level, base, ram.len() as u64, size) {
        Ok(width) => own(core, va, width, value, ans, base, ram),
        Err(missed) => missed.number() as u64,
    }
}

// The same of a width, with seven words to hand on.
#[cold]
#[inline(never)]
fn checked_as<W: Datum>(
    core: &mut Core,
    va: u64,
    value: u64,
    ans: &mut Report,
    base: u64,
    ram: &mut [u8],
) -> u64
    ensures tells { Tells (step_of core.old base ram.old (Call.Store va (bytes_in W.WIDTH) value))
        (step_work core.old base ram.old (Call.Store va (bytes_in W.WIDTH) value) no_work)
        ans.old result ans.new core.new }
    ensures ram { ram.new ≡ ram_after core.old base ram.old (Call.Store va (bytes_in W.WIDTH) value) }
{
    checked(core, va, W::WIDTH.bytes(), value, ans, base, ram)
}

// Two pages: at once by both hints, or by the core's own store.
#[inline(never)]
fn pages<W: Datum>(
    core: &mut Core,
    va: u64,
    value: u64,
    ans: &mut Report,
    base: u64,
    ram: &mut [u8],
) -> u64
    ensures tells { Tells (step_of core.old base ram.old (Call.Store va (bytes_in W.WIDTH) value))
        (step_work core.old base ram.old (Call.Store va (bytes_in W.WIDTH) value) no_work)
        ans.old result ans.new core.new }
    ensures ram { ram.new ≡ ram_after core.old base ram.old (Call.Store va (bytes_in W.WIDTH) value) }
{
    if split::store(core, va, W::WIDTH, value, base, ram) {
        ans.reads = 0;
        return 0;
    }
    if 3 < core.privilege.level {
        checked_as::<W>(core, va, value, ans, base, ram)
    } else if u64::MAX - (ram.len() as u64) < base {
        checked_as::<W>(core, va, value, ans, base, ram)
    } else {
        own(core, va, W::WIDTH, value, ans, base, ram)
    }
}

// The end of a store of one page, after its translation.
#[inline(always)]
fn ended<W: Datum>(
    core: &mut Core,
    va: u64,
    answer: Result<u64, Fault>,
    work: Work,
    value: u64,
    ans: &mut Report,
    base: u64,
    ram: &mut [u8],
) -> u64
    ensures tells { Tells (after_store (stored_of core.old answer base ram.old va (bytes_in W.WIDTH))) work
        ans.old result ans.new core.new }
    ensures ram { ram.new ≡ put_of answer base ram.old va (bytes_in W.WIDTH) value }
{
    ans.reads = work.reads;
    match answer {
        Ok(pa) => {
            if ram::write(base, ram, W::WIDTH, pa, value) {
                0
            } else {
                core.abort_pa = pa;
                ans.value = va;
                272
            }
        }
        Err(fault) => {
            ans.value = va;
            256 + fault.fsc as u64
        }
    }
}

// By a walk.
#[inline(never)]
fn by_walk<W: Datum>(
    core: &mut Core,
    va: u64,
    value: u64,
    ans: &mut Report,
    base: u64,
    ram: &mut [u8],
) -> u64
    requires near { bytes_in W.WIDTH ≤ in_page va }
    requires no_hint { hint_in core.old.privilege va Write core.old.tlb ≡ None }
    requires needs_walk { NeedsWalkNow core.old (word_at base ram.old 8) va Write }
    ensures tells { Tells (after_store (write_of core.old base ram.old va (bytes_in W.WIDTH)))
        (write_work core.old base ram.old va (bytes_in W.WIDTH) no_work) ans.old result ans.new core.new }
    ensures ram { ram.new ≡ ram_after_write core.old base ram.old va (bytes_in W.WIDTH) value }
{
    let mut work = Work::none();
    let answer = core.by_walk(base, ram, va, Kind::Write, &mut work);
    ended::<W>(core, va, answer, work, value, ans, base, ram)
}

#[inline(never)]
fn past_hint<W: Datum>(
    core: &mut Core,
    va: u64,
    value: u64,
    ans: &mut Report,
    base: u64,
    ram: &mut [u8],
) -> u64
    requires near { bytes_in W.WIDTH ≤ in_page va }
    requires no_hint { hint_in core.old.privilege va Write core.old.tlb ≡ None }
    ensures tells { Tells (after_store (write_of core.old base ram.old va (bytes_in W.WIDTH)))
        (write_work core.old base ram.old va (bytes_in W.WIDTH) no_work) ans.old result ans.new core.new }
    ensures ram { ram.new ≡ ram_after_write core.old base ram.old va (bytes_in W.WIDTH) value }
{
    match core.at_hand(base, ram, va, Kind::Write) {
        Some(answer) => ended::<W>(core, va, answer, Work::none(), value, ans, base, ram),
        None => by_walk::<W>(core, va, value, ans, base, ram),
    }
}

#[inline(always)]
fn by_hint<W: Datum>(
    core: &mut Core,
    va: u64,
    value: u64,
    ans: &mut Report,
    base: u64,
    ram: &mut [u8],
) -> u64
    requires near { bytes_in W.WIDTH ≤ in_page va }
    ensures tells { Tells (after_store (write_of core.old base ram.old va (bytes_in W.WIDTH)))
        (write_work core.old base ram.old va (bytes_in W.WIDTH) no_work) ans.old result ans.new core.new }
    ensures ram { ram.new ≡ ram_after_write core.old base ram.old va (bytes_in W.WIDTH) value }
{
    match core.tlb.by_hint(core.privilege, va, Kind::Write) {
        Some(pa) => ended::<W>(core, va, Ok(pa), Work::none(), value, ans, base, ram),
        None => past_hint::<W>(core, va, value, ans, base, ram),
    }
}

#[inline(always)]
fn store_as<W: Datum>(
    core: &mut Core,
    va: u64,
    value: u64,
    ans: &mut Report,
    base: u64,
    ram: &mut [u8],
) -> u64
    ensures tells { Tells (step_of core.old base ram.old (Call.Store va (bytes_in W.WIDTH) value))
        (step_work core.old base ram.old (Call.Store va (bytes_in W.WIDTH) value) no_work)
        ans.old result ans.new core.new }
    ensures ram { ram.new ≡ ram_after core.old base ram.old (Call.Store va (bytes_in W.WIDTH) value) }
{
    if place::in_page(va) < W::WIDTH.bytes() {
        pages::<W>(core, va, value, ans, base, ram)
    } else if 3 < core.privilege.level {
        checked(core, va, W::WIDTH.bytes(), value, ans, base, ram)
    } else if u64::MAX - (ram.len() as u64) < base {
        checked(core, va, W::WIDTH.bytes(), value, ans, base, ram)
    } else {
        by_hint::<W>(core, va, value, ans, base, ram)
    }
}

/// A store of the low 1, 2, 4 or 8 bytes of a value. The tests come in this order for the sake of the commonest size.
#[inline(always)]
pub fn store(
    core: &mut Core,
    va: u64,
    size: u64,
    value: u64,
    ans: &mut Report,
    base: u64,
    ram: &mut [u8],
) -> u64
    ensures tells { Tells (step_of core.old base ram.old (Call.Store va size value))
        (step_work core.old base ram.old (Call.Store va size value) no_work) ans.old result ans.new core.new }
    ensures ram { ram.new ≡ ram_after core.old base ram.old (Call.Store va size value) }
{
    if 4 < size {
        if size == 8 {
            store_as::<u64>(core, va, value, ans, base, ram)
        } else {
            checked(core, va, size, value, ans, base, ram)
        }
    } else if size == 4 {
        store_as::<u32>(core, va, value, ans, base, ram)
    } else if size == 2 {
        store_as::<u16>(core, va, value, ans, base, ram)
    } else if size == 1 {
        store_as::<u8>(core, va, value, ans, base, ram)
    } else {
        checked(core, va, size, value, ans, base, ram)
    }
}
