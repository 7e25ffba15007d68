//! The translations of a call: the core's own answers, and beside each the answer of the core without a cache.
ghost use Rattle.std.specs.Prelude.{◌≡◌, false};
ghost use Rattle.word.specs.Ram.{bytes_in, width_of};
ghost use Rattle.tlb.specs.Asks.{answer_of, tlb_ask};
ghost use Rattle.tlb.specs.Live.{Each};
ghost use Rattle.cpu.specs.Bare.{bare_of};
ghost use Rattle.cpu.specs.Asks.{access_now};
ghost use Rattle.history.specs.Window.{window_of};
ghost use Rattle.transparency.specs.Claim.{access_in, answers_of, asked, sized_in, uncached};
ghost use Rattle.audit.specs.Counting.{differ};
ghost use Rattle.audit.specs.Answers.{ask_of, asks_in, fresh_answer, given_in, listed};

use cpu::call::Call;
use cpu::{Core, check, place};
use fault::Fault;
use sysreg::regs::Regime;
use tlb::access::{self, Kind};
use tlb::count;
use tlb::count::Tally;
use tlb::entry::Entry;
use tlb::work::Work;
use walk_report::answer::Source;
use word::ram::Width;

/// One translation: of a kind, or the one that a fetch begins with, which asks the fetch hint.
#[derive(Clone, Copy)]
pub enum Ask {
    Translates(Kind, u64),
    Fetches(u64),
}

impl Ask {
    pub fn address(self) -> u64 {
        match self {
            Ask::Translates(_, va) | Ask::Fetches(va) => va,
        }
    }
}

/// The translations that a call may make: the second only where the first does not fault.
#[derive(Clone, Copy)]
pub enum Asked {
    Nothing,
    One(Ask),
    Two(Ask, Ask),
}

/// A translation, the core's answer, and that of the core without a cache on the same registers and RAM.
#[derive(Clone, Copy)]
pub struct Answered {
    pub ask: Ask,
    pub core: Result<u64, Fault>,
    pub fresh: Result<u64, Fault>,
    /// where the core's answer came from
    pub source: Source,
}

/// The answers to a call's translations, in order until one faults.
#[derive(Clone, Copy)]
pub enum Answers {
    Nothing,
    One(Answered),
    Two(Answered, Answered),
}

impl Answered {
    /// Whether a walk made now would not give the core's answer.
    pub fn is_stale(&self) -> bool
        ensures value { result ≡ differ self.now.core self.now.fresh }
        ensures same { result ≡ false → self.now.core ≡ self.now.fresh }
        ensures apart { self.now.core ≡ self.now.fresh → result ≡ false }
    {
        match (self.core, self.fresh) {
            (Ok(pa), Ok(fresh)) => pa != fresh,
            (Err(fault), Err(fresh)) => fault.fsc != fresh.fsc,
            _ => true,
        }
    }
}

// An access of a width: its own page, and the next where it crosses with stage 1 on.
fn access(core: &Core, va: u64, width: Width, kind: Kind) -> Asked
    ensures { asks_in result ≡ access_in (bare_of core.now) va (bytes_in width) kind }
{
    let on = core
        .bank()
        .stage1_on(Regime::of_level(core.privilege.level));
    let first = Ask::Translates(kind, va);
    if place::crosses(on, va, width.bytes()) {
        Asked::Two(first, Ask::Translates(kind, place::next_page(va)))
    } else {
        Asked::One(first)
    }
}

fn sized(core: &Core, va: u64, size: u64, kind: Kind) -> Asked
    ensures { asks_in result ≡ sized_in (bare_of core.now) va (width_of size) kind }
{
    match Width::of_size(size) {
        Some(width) => access(core, va, width, kind),
        None => Asked::Nothing,
    }
}

/// The translations of a call: none where it is refused.
pub fn asks(core: &Core, base: u64, ram: &[u8], call: Call) -> Asked
    ensures { asks_in result ≡ asked (bare_of core.now) (record { ram = window_of base ram.now; call = call }) }
{
    if check::missed(core.privilege.level, base, ram.len() as u64, call).is_err() {
        return Asked::Nothing;
    }
    match call {
        Call::Translate(kind, va) => Asked::One(Ask::Translates(kind, va)),
        Call::DataPa(va) => Asked::One(Ask::Translates(Kind::Read, va)),
        Call::FetchPa(va) | Call::Fetch(va) => Asked::One(Ask::Fetches(va)),
        Call::Load(va, size) => sized(core, va, size, Kind::Read),
        Call::Store(va, size, _) => sized(core, va, size, Kind::Write),
        _ => Asked::Nothing,
    }
}

// The answer of the core without a cache.
fn fresh(core: &Core, base: u64, ram: &[u8], kind: Kind, va: u64) -> Result<u64, Fault>
    ensures { result ≡ uncached (bare_of core.now) (window_of base ram.now) kind va }
{
    let regime = Regime::of_level(core.privilege.level);
    let bank = core.bank();
    if !bank.stage1_on(regime) {
        return access::flat(&bank, regime, va);
    }
    let leaf = bank
        .walk(regime, bank.untag(regime, va), base, ram)
        .end
        .map_err(fault::first)?;
    let user = core.privilege.is_user(regime, kind);
    Entry::new(leaf, 0, 0).judge(user, kind, va)
}

// The counters of the core's own level.
fn tally(core: &Core) -> Tally {
    core.tlb.levels[count::level_place(core.privilege.level)]
}

/// One translation by the core, whose cache moves on, and by the core without one.
#[tactic(auto, unfolding(cpu::specs::Memory::translate_of, cpu::specs::Memory::stepped_now, cpu::specs::Memory::translate_fetch_of, cpu::specs::Memory::fetch_stepped_now, cpu::specs::Memory::translate_in, cpu::specs::Memory::translate_fetch_in, cpu::specs::Core::after_access))]
pub fn answer(core: &mut Core, base: u64, ram: &[u8], ask: Ask) -> Answered
    ensures ask { result.ask ≡ ask }
    ensures core { result.core ≡ answer_of (access_now core.old base ram.now) (ask_of ask) core.old.tlb }
    ensures after { core.new
        ≡ record core.old { tlb = tlb_ask (access_now core.old base ram.now) (ask_of ask) core.old.tlb } }
    ensures fresh { result.fresh ≡ fresh_answer core.old (window_of base ram.now) ask }
{
    let before = tally(core);
    let mut work = Work::none();
    let (answer, fresh) = match ask {
        Ask::Translates(kind, va) => {
            let fresh = fresh(core, base, ram, kind, va);
            (core.translate(base, ram, va, kind, &mut work), fresh)
        }
        Ask::Fetches(va) => {
            let fresh = fresh(core, base, ram, Kind::Fetch, va);
            (core.translate_fetch(base, ram, va, &mut work), fresh)
        }
    };
    let on = core.bank().stage1_on(core.regime());
    Answered {
        ask,
        core: answer,
        fresh,
        source: Source::new(on, before, tally(core)),
    }
}

/// What the core is about to answer to a call's translations, and what the core without a cache would: the claim of
/// faithfulness (crates/transparency/specs/Claim.antt) is of these answers.
pub fn answers_to(core: &Core, base: u64, ram: &[u8], call: Call) -> Answers
    ensures core { given_in result ≡ answers_of core.now (record { ram = window_of base ram.now; call = call }) }
    ensures fresh { Each (λ a. a.fresh ≡ fresh_answer core.now (window_of base ram.now) a.ask) (listed result) }
{
    let mut beside = *core;
    match asks(core, base, ram, call) {
        Asked::Nothing => Answers::Nothing,
        Asked::One(ask) => Answers::One(answer(&mut beside, base, ram, ask)),
        Asked::Two(ask, next) => {
            let first = answer(&mut beside, base, ram, ask);
            if first.core.is_err() {
                return Answers::One(first);
            }
            Answers::Two(first, answer(&mut beside, base, ram, next))
        }
    }
}
