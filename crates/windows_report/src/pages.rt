//! What each page of a window is answered.
ghost use Rattle.std.specs.Prelude.{◌≡◌, ◌≤◌, ◌+◌, ◌*◌, ◌^◌, IfOk};
ghost use Rattle.word.specs.Ram.{word_at};
ghost use Rattle.windows_report.specs.Pages.{address_of, answers_of};

use cpu::Core;
use fault::Fault;
use std::alloc::{AllocError, Global};
use tlb::access::Kind;
use tlb::fresh;
use windows::list::Window;

/// The address of a page of a window that does not pass 2^64.
pub fn address(window: Window, page: u64) -> u64
    ensures { result ≡ address_of window page }
{
    window.start.wrapping_add(page.wrapping_mul(4096))
}

/// The fresh answer of each page of a window to a write, in the regime of the core's level and by its own rights.
pub fn answers(
    alloc: Global,
    core: &Core,
    base: u64,
    ram: &[u8],
    window: Window,
) -> Result<Vec<Result<u64, Fault>>, AllocError>
    ensures { IfOk result (λ all. all.items ≡ answers_of core.now (word_at base ram.now 8) window) }
{
    let (bank, regime) = (core.bank(), core.regime());
    let mut all = Vec::new(alloc);
    for page in 0..window.pages {
        let va = address(window, page);
        all.push(fresh::fresh_answer(bank, regime, false, Kind::Write, va, base, ram))?;
    }
    Ok(all)
}
