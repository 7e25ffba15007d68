//! The pages of a window as runs: those that follow one another and are mapped on, or end in one fault.
ghost use Rattle.std.specs.Prelude.{◌≡◌, ◌↔◌, ◌<◌, ◌++◌, ◌∷◌, [], IsTrue, IfOk};
ghost use Rattle.windows_report.specs.Runs.{Continues, end_of, written};

use fault::Fault;
use std::alloc::{AllocError, Global};
use windows::list::MOST_PAGES;

/// So many pages, of which each is mapped where the one before it ends, or all end in one fault.
#[derive(Clone, Copy)]
pub struct Run {
    pub pages: u64,
    /// What the first of them is answered: its physical address, or the fault.
    pub first: Result<u64, Fault>,
}

impl Run {
    /// Where a run ends that begins at an address: the address past it.
    pub fn end(&self, va: u64) -> u64
        ensures { result ≡ end_of self.now va }
    {
        va.wrapping_add(self.pages.wrapping_mul(4096))
    }

    // Whether a page that is answered so goes on where the run ends. No window has more pages than 16.
    fn goes_on(&self, next: Result<u64, Fault>) -> bool
        ensures { IsTrue result ↔ (self.now.pages < MOST_PAGES) × Continues self.now next }
    {
        self.pages < MOST_PAGES as u64
            && match (self.first, next) {
                (Ok(pa), Ok(other)) => pa <= other && other - pa == self.pages * 4096,
                (Err(fault), Err(other)) => fault.fsc == other.fsc,
                _ => false,
            }
    }
}

// One page more at the end.
fn add(runs: &mut Vec<Run>, next: Result<u64, Fault>) -> Result<(), AllocError>
    ensures { IfOk result (λ done. written runs.new.items ≡ written runs.old.items ++ next ∷ []) }
{
    let one = Run {
        pages: 1,
        first: next,
    };
    let Some(before) = runs.pop() else {
        runs.push(one)?;
        return Ok(());
    };
    if before.goes_on(next) {
        let pages = before.pages + 1;
        runs.push(Run { pages, ..before })?;
        return Ok(());
    }
    runs.push(before)?;
    runs.push(one)?;
    Ok(())
}

/// What the pages of a window are answered, as runs.
pub fn runs(alloc: Global, answers: &[Result<u64, Fault>]) -> Result<Vec<Run>, AllocError>
    ensures { IfOk result (λ all. written all.items ≡ answers.now) }
{
    let mut all = Vec::new(alloc);
    for answer in answers {
        add(&mut all, *answer)?;
    }
    Ok(all)
}
