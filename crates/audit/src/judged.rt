//! What an audit counts: the translations of each call, and those that are stale by the claim.
ghost use Rattle.std.specs.Prelude.{◌≡◌, ◌+◌, ◌%◌, ◌^◌, ◌≤◌, cond, count_by, length};
ghost use Rattle.tlb.specs.Live.{Each};
ghost use Rattle.history.specs.Window.{window_of};
ghost use Rattle.transparency.specs.Claim.{answers_of};
ghost use Rattle.audit.specs.Answers.{fresh_answer, given_in, listed};
ghost use Rattle.audit.specs.Counting.{differ, stale_in};

use crate::answers;
use crate::answers::{Answered, Answers};
use cpu::Core;
use cpu::call::Call;

/// So many translations, and so many of them stale, both modulo 2^64.
#[derive(Clone, Copy)]
pub struct Counts {
    /// the translations made
    pub accesses: u64,
    /// those of them whose answer the core without a cache would not give
    pub stale: u64,
}

// Whether an answer is stale, as a number.
fn stale(answered: &Answered) -> u64
    ensures value { result ≡ cond (differ answered.now.core answered.now.fresh) 1 0 }
    ensures upper_bound { result ≤ 1 }
{
    if answered.is_stale() { 1 } else { 0 }
}

impl Counts {
    pub const NONE: Counts = Counts {
        accesses: 0,
        stale: 0,
    };

    // Of a call's answers.
    fn of(answers: &Answers) -> Self
        ensures accesses { result.accesses ≡ length (listed answers.now) }
        ensures stale { result.stale ≡ count_by (λ a. differ a.core a.fresh) (listed answers.now) }
    {
        match answers {
            Answers::Nothing => Counts::NONE,
            Answers::One(answered) => Counts {
                accesses: 1,
                stale: stale(answered),
            },
            Answers::Two(answered, next) => Counts {
                accesses: 2,
                stale: stale(answered) + stale(next),
            },
        }
    }
}

/// What the core is about to answer to a call's translations, as `answers_to` has it, counted.
pub fn judge(core: &Core, base: u64, ram: &[u8], call: Call, counts: &mut Counts) -> Answers
    ensures core { given_in result ≡ answers_of core.now (record { ram = window_of base ram.now; call = call }) }
    ensures fresh { Each (λ a. a.fresh ≡ fresh_answer core.now (window_of base ram.now) a.ask) (listed result) }
    ensures accesses { counts.new.accesses ≡ (counts.old.accesses
        + length (answers_of core.now (record { ram = window_of base ram.now; call = call }))) % 2 ^ 64 }
    ensures stale { counts.new.stale ≡ (counts.old.stale
        + stale_in core.now (record { ram = window_of base ram.now; call = call })) % 2 ^ 64 }
{
    let answers = answers::answers_to(core, base, ram, call);
    let counted = Counts::of(&answers);
    counts.accesses = counts.accesses.wrapping_add(counted.accesses);
    counts.stale = counts.stale.wrapping_add(counted.stale);
    answers
}
