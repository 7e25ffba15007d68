//! What a list of windows is answered.
ghost use Rattle.std.specs.Prelude.{◌≡◌};
ghost use Rattle.windows.specs.Windows.{windows_of};
ghost use Rattle.trace_core.specs.Shared.{shared_told};

use cpu::Core;
use cpu::call::Reply;
use trace_text::answer::Answer;
use windows::WindowsError;

/// The first two windows of the list that share a physical page, the first page that faults, or the number of what the
/// call misses.
pub fn answer(core: &Core, base: u64, ram: &[u8], list: &[u8]) -> Answer
    ensures { result ≡ shared_told (windows_of core.now.control core.now.privilege.level base ram.now list.now) }
{
    match windows::windows(core, base, ram, list) {
        Ok(pair) => Answer::Shared(pair),
        Err(WindowsError::Page(page)) => Answer::Page(page),
        Err(error) => Answer::Reply(Reply::Refused(error.number())),
    }
}
