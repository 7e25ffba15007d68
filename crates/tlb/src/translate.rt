// One translation, in place: the hint, the entry, the walk.
ghost use Rattle.std.specs.Prelude.{◌≡◌};
ghost use Rattle.word.specs.Ram.{word_at};
ghost use Rattle.tlb.specs.Translate.{asked, hint_left, hint_in, walked_in, past_hint_in, read_more, Handed};
ghost use Rattle.tlb.specs.Translate.{AfterHanded, NeedsWalk};

use crate::Tlb;
use crate::access::{self, Kind, Privilege, Request};
use crate::entry::Entry;
use crate::hint::{self, Hint};
use crate::work::Work;
use fault::Fault;
use sysreg::regs::Regime;

#[tactic(auto, unfolding(crate::specs::Translate::miss_in, crate::specs::Translate::needs_walk, crate::specs::Translate::walked_in))]
impl Tlb {
    /// Where the data hint sends an access, if one serves.
    #[inline(always)]
    pub fn by_hint(&self, privilege: Privilege, va: u64, kind: Kind) -> Option<u64>
        ensures { result ≡ hint_in privilege va kind self.now }
    {
        if privilege.may_hint(kind) {
            self.hints[hint::data_slot(va, kind)].find(privilege.level, va)
        } else {
            None
        }
    }

    // An allowed address becomes a hint, where one may serve.
    #[inline(always)]
    fn leave_hint(&mut self, a: Request, answer: Result<u64, Fault>)
        ensures { self.new ≡ hint_left a.privilege a.va a.kind answer self.old }
    {
        if a.privilege.may_hint(a.kind)
            && let Ok(pa) = answer
        {
            self.hints[hint::data_slot(a.va, a.kind)] = Hint::new(a.va, a.privilege.level, pa);
        }
    }

    /// The answer of a translation that no hint serves, where no walk is needed: with stage 1 off by the address
    /// alone, or by the entry of its page. It leaves a hint, where one may serve. RAM is read by no code here.
    #[inline(always)]
    pub fn at_hand(&mut self, a: Request, base: u64, ram: &[u8]) -> Option<Result<u64, Fault>>
        ensures answer { Handed (asked a (word_at base ram.now 8)) self.old result }
        ensures after { AfterHanded (asked a (word_at base ram.now 8)) self.old result self.new }
    {
        let regime = Regime::of_level(a.privilege.level);
        let answer = if !a.bank.stage1_on(regime) {
            // A fault leaves by its own exit, so that an entry pays nothing for it.
            match access::flat(&a.bank, regime, a.va) {
                Ok(pa) => Ok(pa),
                Err(fault) => return Some(Err(fault)),
            }
        } else {
            let va = a.bank.untag(regime, a.va);
            let e = self.get(access::tag_of(regime, va))?;
            self.count_hit(a.privilege.level);
            e.judge(a.privilege.is_user(regime, a.kind), a.kind, a.va)
        };
        self.leave_hint(a, answer);
        Some(answer)
    }

    /// A translation by a walk, whatever is at hand: where a walk is needed, the translation. A leaf becomes an entry
    /// and is judged, a fault makes none. It leaves a hint, where one may serve; what was read counts in `work`.
    #[inline(always)]
    pub fn by_walk(
        &mut self,
        a: Request,
        base: u64,
        ram: &[u8],
        work: &mut Work,
    ) -> Result<u64, Fault>
        ensures walked { result
            ≡ (walked_in (asked a (word_at base ram.now 8)).walk (asked a (word_at base ram.now 8)) self.old).answer }
        ensures answer { NeedsWalk (asked a (word_at base ram.now 8)) self.old
            → result ≡ (past_hint_in (asked a (word_at base ram.now 8)) self.old).answer }
        ensures after { NeedsWalk (asked a (word_at base ram.now 8)) self.old
            → self.new ≡ (past_hint_in (asked a (word_at base ram.now 8)) self.old).after }
        ensures work { work.new ≡ read_more (asked a (word_at base ram.now 8)).reads work.old }
    {
        let regime = Regime::of_level(a.privilege.level);
        let va = a.bank.untag(regime, a.va);
        self.count_walk(a.privilege.level);
        let bank = a.bank;
        let walked = bank.walk(regime, va, base, ram);
        work.add_reads(walked.reads);
        let leaf = walked.end.map_err(fault::first)?;
        let e = Entry::new(leaf, self.asid, access::tag_of(regime, va));
        self.put(e);
        let answer = e.judge(a.privilege.is_user(regime, a.kind), a.kind, a.va);
        self.leave_hint(a, answer);
        answer
    }
}
