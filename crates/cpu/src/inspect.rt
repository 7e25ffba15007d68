// Operations that look at registers and RAM and change neither: what they find, beside the call's reply.
ghost use Rattle.std.specs.Prelude.{◌≡◌};
ghost use Rattle.cpu.specs.Step.{census_by};

use crate::call::Reply;
use crate::{Core, check};
use census::count;

/// The 129 counts of a census, all 0 where it is refused, and its reply.
#[derive(Clone, Copy)]
pub struct Censused {
    pub counts: [u64; 129],
    pub reply: Reply,
}

impl Core {
    /// The census of so many pages from the page of first, at the core's level.
    #[tactic(auto, unfolding(crate::specs::Step::census_by, crate::specs::Step::counts_after, crate::specs::Step::step_of, crate::specs::Step::run_of))]
    pub fn census(&self, base: u64, ram: &[u8], first: u64, pages: u64) -> Censused
        ensures { result ≡ census_by self.now base ram.now first pages }
    {
        let level = self.privilege.level;
        let mut counts = [0; 129];
        if let Err(check) = check::census(level, base, ram.len() as u64, first, pages) {
            let reply = Reply::from(check);
            return Censused { counts, reply };
        }
        count::count(
            self.bank(),
            self.regime(),
            first,
            pages,
            base,
            ram,
            &mut counts,
        );
        Censused {
            counts,
            reply: Reply::Done,
        }
    }
}
