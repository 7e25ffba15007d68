//! A flipped bit on a core and its RAM, shown.
ghost use Rattle.std.specs.Prelude.{◌≡◌, IfErr, IfOk};
ghost use Rattle.flip.specs.Flip.{flip_of};
ghost use Rattle.flip.specs.Question.{answer_on, question_of};
ghost use Rattle.walk_report.specs.Told.{told_of};
ghost use Rattle.flip_report.specs.Found.{IsTold};

use crate::found::{Beside, Found};
use cpu::Core;
use cpu::check::Check;
use flip::Question;
use json_text::Hex;
use serde::Serialize;
use std::fmt;
use tlb::access::Kind;
use walk_report::answer::Told;
use walk_report::explain;
use walk_report::walkthrough::Walkthrough;

/// The walk of an address on a core and its RAM, how an access to it ends with nothing cached, and the first bit whose
/// flip changes that.
#[derive(Clone, Copy, Serialize)]
pub struct Report {
    access: &'static str,
    va: Hex,
    el: u8,
    view: &'static str,
    #[serde(flatten)]
    walkthrough: Walkthrough,
    answer: Told,
    found: Found,
}

fn view_name(user: bool) -> &'static str {
    if user { "user" } else { "privileged" }
}

impl Report {
    /// Of an access by EL0's rights or by the regime's own, in the regime of the core's level, over the RAM that starts
    /// at `base`; RAM stays as it was.
    pub fn new(
        core: &Core,
        base: u64,
        ram: &mut [u8],
        va: u64,
        kind: Kind,
        user: bool,
    ) -> Result<Self, Check>
        ensures answer { IfOk result (λ report. report.answer ≡ told_of (answer_on (question_of core.now.control
            core.now.privilege.level va kind user) base ram.old)) }
        ensures found { IfOk result (λ report. IsTold core.now.control core.now.privilege.level base ram.old va kind
            user report.found) }
        ensures refused { IfErr result (λ check. flip_of core.now.control core.now.privilege.level base ram.old va kind
            user ≡ Err check) }
        ensures ram { ram.new ≡ ram.old }
    {
        let flip = flip::flip(core, base, ram, va, kind, user)?;
        let question = Question::new(core, va, kind, user);
        let walkthrough = Walkthrough::new(core, va, base, ram);
        let answer = Told::from(question.answer(base, ram));
        let found = Found::new(&question, base, ram, walkthrough.walk.as_ref(), flip);
        Ok(Report {
            access: explain::kind_name(kind),
            va: Hex(va),
            el: core.privilege.level,
            view: view_name(question.user),
            walkthrough,
            answer,
            found,
        })
    }
}

impl fmt::Display for Report {
    fn fmt<W: fmt::Write>(&self, f: &mut fmt::Formatter<W>) -> fmt::Result {
        let Report {
            access,
            va,
            el,
            view,
            walkthrough,
            answer,
            found,
        } = *self;
        write!(
            f,
            "{access} of {:016x} at EL{el}, {view}: {walkthrough}",
            va.0
        )?;
        writeln!(f, "walk now   {answer}")?;
        write!(f, "{}", Beside { found, answer })
    }
}
