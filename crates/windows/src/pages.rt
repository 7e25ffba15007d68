// The physical pages of windows, with nothing cached.
ghost use Rattle.std.specs.Prelude.{◌≡◌, ◌+◌, ◌*◌, ◌^◌, ◌≤◌, take, IfOk, IfErr};
ghost use Rattle.word.specs.Ram.{word_at};
ghost use Rattle.windows.specs.Window.{first_in};
ghost use Rattle.windows.specs.Pages.{frames_in, faults_in, frames_of, faults_of, frames_at, faults_at};
ghost use Rattle.windows.specs.Rows.{EachRow};

use crate::list::{MOST_PAGES, MOST_WINDOWS, Window, WindowList};
use cpu::Core;
use fault::Fault;
use sysreg::regs::Regime;
use tlb::access::Kind;
use tlb::fresh::fresh_answer;
use walk::regime::Bank;

/// The first page that faults, by window and then by page; both numbers count from 0.
#[derive(Clone, Copy)]
pub struct PageFault {
    pub window: u64,
    pub page: u64,
    pub fault: Fault,
}

/// The physical page of each page of each window: an address divided by 4096. A row belongs to the window of its
/// number, and begins with its pages.
pub type PhysicalPages = [[u64; MOST_PAGES]; MOST_WINDOWS];

// The physical pages of one window.
#[tactic(auto, using(crate::proofs::Filling::filling))]
fn window_pages(
    s: Bank,
    regime: Regime,
    base: u64,
    ram: &[u8],
    i: u64,
    w: Window,
) -> Result<[u64; MOST_PAGES], PageFault>
    requires short { w.pages ≤ 16 }
    requires within { w.start + 4096 * w.pages ≤ 2 ^ 64 }
    ensures fault { IfErr result (λ e. first_in (faults_in s regime (word_at base ram.now 8) i w) ≡ Some e) }
    ensures none { IfOk result (λ r. first_in (faults_in s regime (word_at base ram.now 8) i w) ≡ None) }
    ensures pages { IfOk result (λ r. take w.pages r ≡ frames_in s regime (word_at base ram.now 8) w) }
{
    let mut row = [0; MOST_PAGES];
    for page in 0..w.pages {
        let va = w.start + 4096 * page;
        match fresh_answer(s, regime, false, Kind::Write, va, base, ram) {
            Ok(pa) => row[page as usize] = pa / 4096,
            Err(fault) => {
                return Err(PageFault {
                    window: i,
                    page,
                    fault,
                });
            }
        }
    }
    Ok(row)
}

impl WindowList {
    ghost use Rattle.windows.specs.Listed.{listed};

    // In a regime, under its registers.
    #[tactic(auto, using(crate::proofs::Gathering::gathering))]
    fn pages_in(
        &self,
        s: Bank,
        regime: Regime,
        base: u64,
        ram: &[u8],
    ) -> Result<PhysicalPages, PageFault>
        ensures fault { IfErr result (λ e.
            first_in (faults_of s regime (word_at base ram.now 8) (listed self.now)) ≡ Some e) }
        ensures none { IfOk result (λ rows.
            first_in (faults_of s regime (word_at base ram.now 8) (listed self.now)) ≡ None) }
        ensures pages { IfOk result (λ rows.
            EachRow (listed self.now) rows (frames_of s regime (word_at base ram.now 8) (listed self.now))) }
    {
        let mut rows = [[0; MOST_PAGES]; MOST_WINDOWS];
        for i in 0..self.count {
            rows[i] = window_pages(s, regime, base, ram, i as u64, self.windows[i])?;
        }
        Ok(rows)
    }

    /// The physical pages of every window, with nothing cached, for a privileged write in the regime of the core's
    /// level; or the first page that faults. Neither cache nor mark counts.
    pub fn physical_pages(
        &self,
        core: &Core,
        base: u64,
        ram: &[u8],
    ) -> Result<PhysicalPages, PageFault>
        ensures fault { IfErr result (λ e. first_in (faults_at core.now.control core.now.privilege.level
            (word_at base ram.now 8) (listed self.now)) ≡ Some e) }
        ensures none { IfOk result (λ rows. first_in (faults_at core.now.control core.now.privilege.level
            (word_at base ram.now 8) (listed self.now)) ≡ None) }
        ensures pages { IfOk result (λ rows. EachRow (listed self.now) rows (frames_at core.now.control
            core.now.privilege.level (word_at base ram.now 8) (listed self.now))) }
    {
        self.pages_in(core.bank(), core.regime(), base, ram)
    }
}
