// One translation on a core that is lent, and where a data read goes: the number, and in ans the address and what was
// read. Both are one text: TELLS says whether a fault is told by its status, or as no more than that.
ghost use Rattle.std.specs.Prelude.{◌≡◌, ℕ, length, None, Ok};
ghost use Rattle.word.specs.Ram.{word_at};
ghost use Rattle.tlb.specs.Translate.{hint_in, no_work};
ghost use Rattle.cpu.specs.Bytes.{reached_by};
ghost use Rattle.cpu.specs.Check.{reaching};
ghost use Rattle.cpu.specs.declared.call.Call.TheVariants as Call;
ghost use Rattle.tlb.specs.declared.access.Kind.TheVariants.{Read};
ghost use Rattle.call_words.specs.Ops.{kind_of, translate_call};
ghost use Rattle.call_words.specs.Replies.{code_by, value_by, reads_by};
ghost use Rattle.cpu.specs.Memory.{NeedsWalkNow, translate_of};
ghost use Rattle.cpu.specs.Step.{step_of};
ghost use Rattle.cpu.specs.Work.{translate_work, step_work};
ghost use Rattle.quick.specs.Says.{Says, Tells, asked_reply, asked_run, ram_checked, served};

use crate::hint;
use crate::instance::{Fetching, Purpose, Reading, Writing};
use call_words::reply::Report;
use cpu::{Core, check};
use fault::Fault;
use tlb::work::Work;

// The answer of a translation.
#[inline(always)]
fn told<const TELLS: bool>(answer: Result<u64, Fault>, work: Work, ans: &mut Report) -> u64
    ensures { (va : ℕ) → (result ≡ code_by (asked_reply TELLS va answer))
        × (ans.new.value ≡ value_by (asked_reply TELLS va answer) ans.old.value)
        × (ans.new.reads ≡ reads_by (asked_reply TELLS va answer) work.reads ans.old.reads) }
{
    ans.reads = work.reads;
    match answer {
        Ok(pa) => {
            ans.value = pa;
            0
        }
        Err(fault) => { if TELLS { 256 + fault.fsc as u64 } else { 256 } }
    }
}

// Where an access goes, a fault told as no more than that.
#[inline(always)]
pub(crate) fn reached(answer: Result<u64, Fault>, work: Work, ans: &mut Report) -> u64
    ensures number { result ≡ code_by (reaching (reached_by answer)) }
    ensures value { ans.new.value ≡ value_by (reaching (reached_by answer)) ans.old.value }
    ensures reads { ans.new.reads ≡ reads_by (reaching (reached_by answer)) work.reads ans.old.reads }
{
    told::<false>(answer, work, ans)
}

// By a walk.
#[inline(never)]
fn by_walk<P: Purpose, const TELLS: bool>(
    core: &mut Core,
    va: u64,
    ans: &mut Report,
    base: u64,
    ram: &[u8],
) -> u64
    requires no_hint { hint_in core.old.privilege va P.KIND core.old.tlb ≡ None }
    requires needs_walk { NeedsWalkNow core.old (word_at base ram.now 8) va P.KIND }
    ensures { Tells (asked_run TELLS va (translate_of core.old (word_at base ram.now 8) va P.KIND))
        (translate_work core.old (word_at base ram.now 8) va P.KIND no_work) ans.old result ans.new core.new }
{
    let mut work = Work::none();
    let answer = core.by_walk(base, ram, va, P::KIND, &mut work);
    told::<TELLS>(answer, work, ans)
}

// With stage 1 off, by an entry, or by a walk: each out of line of what comes before it, with six words to hand on.
#[inline(never)]
fn past_hint<P: Purpose, const TELLS: bool>(
    core: &mut Core,
    va: u64,
    ans: &mut Report,
    base: u64,
    ram: &[u8],
) -> u64
    requires no_hint { hint_in core.old.privilege va P.KIND core.old.tlb ≡ None }
    ensures { Tells (asked_run TELLS va (translate_of core.old (word_at base ram.now 8) va P.KIND))
        (translate_work core.old (word_at base ram.now 8) va P.KIND no_work) ans.old result ans.new core.new }
{
    match core.at_hand(base, ram, va, P::KIND) {
        Some(answer) => told::<TELLS>(answer, Work::none(), ans),
        None => by_walk::<P, TELLS>(core, va, ans, base, ram),
    }
}

#[inline(always)]
fn by_hint<P: Purpose, const TELLS: bool>(
    core: &mut Core,
    va: u64,
    ans: &mut Report,
    base: u64,
    ram: &[u8],
) -> u64
    ensures { Tells (asked_run TELLS va (translate_of core.old (word_at base ram.now 8) va P.KIND))
        (translate_work core.old (word_at base ram.now 8) va P.KIND no_work) ans.old result ans.new core.new }
{
    match core.tlb.by_hint(core.privilege, va, P::KIND) {
        Some(pa) => told::<TELLS>(Ok(pa), Work::none(), ans),
        None => past_hint::<P, TELLS>(core, va, ans, base, ram),
    }
}

// A level above 3, or a window that ends at 2^64 or past it: the checks by name.
#[cold]
#[inline(never)]
fn checked<P: Purpose, const TELLS: bool>(
    core: &mut Core,
    va: u64,
    ans: &mut Report,
    base: u64,
    ram: &[u8],
) -> u64
    ensures { Tells (ram_checked core.old base ram.now
        (asked_run TELLS va (translate_of core.old (word_at base ram.now 8) va P.KIND)))
        (translate_work core.old (word_at base ram.now 8) va P.KIND no_work) ans.old result ans.new core.new }
{
    match check::with_ram(core.privilege.level, base, ram.len() as u64) {
        Ok(()) => by_hint::<P, TELLS>(core, va, ans, base, ram),
        Err(missed) => missed.number() as u64,
    }
}

// What is not served at once: the level, the window, and past the hint.
#[inline(always)]
fn rest<P: Purpose, const TELLS: bool>(
    core: &mut Core,
    va: u64,
    ans: &mut Report,
    base: u64,
    ram: &[u8],
) -> u64
    requires not_served { served core.old base (length ram.now) va (Ok P.KIND) ≡ None }
    ensures { Tells (ram_checked core.old base ram.now
        (asked_run TELLS va (translate_of core.old (word_at base ram.now 8) va P.KIND)))
        (translate_work core.old (word_at base ram.now 8) va P.KIND no_work) ans.old result ans.new core.new }
{
    if 3 < core.privilege.level {
        checked::<P, TELLS>(core, va, ans, base, ram)
    } else if u64::MAX - (ram.len() as u64) < base {
        checked::<P, TELLS>(core, va, ans, base, ram)
    } else {
        past_hint::<P, TELLS>(core, va, ans, base, ram)
    }
}

#[inline(never)]
fn data_rest(core: &mut Core, va: u64, ans: &mut Report, base: u64, ram: &[u8]) -> u64
    requires not_served { served core.old base (length ram.now) va (Ok Read) ≡ None }
    ensures { Tells (step_of core.old base ram.now (Call.DataPa va))
        (step_work core.old base ram.now (Call.DataPa va) no_work) ans.old result ans.new core.new }
{
    rest::<Reading, false>(core, va, ans, base, ram)
}

/// Where a data read of va goes.
#[inline(always)]
pub fn data_pa(core: &mut Core, va: u64, ans: &mut Report, base: u64, ram: &[u8]) -> u64
    ensures { Tells (step_of core.old base ram.now (Call.DataPa va))
        (step_work core.old base ram.now (Call.DataPa va) no_work) ans.old result ans.new core.new }
{
    match hint::served(core, va, 1, base, ram.len() as u64) {
        Some(pa) => {
            *ans = Report {
                value: pa,
                reads: 0,
            };
            0
        }
        None => data_rest(core, va, ans, base, ram),
    }
}

#[inline(always)]
fn address<P: Purpose>(core: &mut Core, va: u64, ans: &mut Report, base: u64, ram: &[u8]) -> u64
    requires not_served { served core.old base (length ram.now) va (Ok P.KIND) ≡ None }
    ensures { Tells (step_of core.old base ram.now (Call.Translate P.KIND va))
        (step_work core.old base ram.now (Call.Translate P.KIND va) no_work) ans.old result ans.new core.new }
{
    rest::<P, true>(core, va, ans, base, ram)
}

// By kind. Its arguments are those of the call in their order, so that it is jumped to.
#[inline(never)]
#[tactic(auto, unfolding(call_words::specs::Ops::translate_call))]
fn kind_asked(core: &mut Core, va: u64, kind: u64, ans: &mut Report, base: u64, ram: &[u8]) -> u64
    requires not_served { served core.old base (length ram.now) va (kind_of kind) ≡ None }
    ensures { Says (translate_call (kind_of kind) va) core.old base ram.now ans.old result ans.new core.new }
{
    if kind < 2 {
        if kind == 1 {
            address::<Reading>(core, va, ans, base, ram)
        } else {
            64
        }
    } else if kind == 2 {
        address::<Writing>(core, va, ans, base, ram)
    } else if kind == 4 {
        address::<Fetching>(core, va, ans, base, ram)
    } else {
        64
    }
}

/// The translation of va for an access of a kind: 1 read, 2 write, 4 fetch.
#[inline(always)]
#[tactic(auto, unfolding(call_words::specs::Ops::translate_call))]
pub fn translate(
    core: &mut Core,
    va: u64,
    kind: u64,
    ans: &mut Report,
    base: u64,
    ram: &[u8],
) -> u64
    ensures { Says (translate_call (kind_of kind) va) core.old base ram.now ans.old result ans.new core.new }
{
    match hint::served(core, va, kind, base, ram.len() as u64) {
        Some(pa) => {
            *ans = Report {
                value: pa,
                reads: 0,
            };
            0
        }
        None => kind_asked(core, va, kind, ans, base, ram),
    }
}
