// A list of windows, decoded: all little-endian, a count of two bytes, that many first addresses of eight, and then
// that many lengths in pages of two.
ghost use Rattle.std.specs.Prelude.{◌≡◌, ◌+◌, ◌*◌, ◌^◌, ◌≤◌, ◌<◌, EachIndex, IfOk, IfErr};
ghost use Rattle.windows.specs.Window.{window};
ghost use Rattle.windows.specs.List.{window_at, wrong_of, Counted, list_of};

use word::ram::{self, Width};

/// How many windows a list may have.
pub const MOST_WINDOWS: usize = 64;

/// How many pages a window may have.
pub const MOST_PAGES: usize = 16;

/// A window: pages of 4 KiB that lie side by side.
#[derive(Clone, Copy, PartialEq, Eq)]
pub struct Window {
    /// Its first address, on a page.
    pub start: u64,
    /// How many pages it has.
    pub pages: u64,
}

const NO_WINDOW: Window = Window { start: 0, pages: 0 };

/// Why a list is not right: the first reason that holds, in this order. The last three are of one window, and
/// are looked for window by window.
#[derive(Clone, Copy, PartialEq, Eq)]
pub enum Malformed {
    /// It has fewer than two bytes, or not two and ten for each window.
    Length,
    /// It counts more than 64 windows.
    Count,
    /// The window's first address is not on a page.
    Start(u64),
    /// The window has no page, or more than 16.
    Pages(u64),
    /// The window passes 2^64.
    End(u64),
}

/// A right list, decoded.
#[derive(Clone, Copy)]
pub struct WindowList {
    pub(crate) windows: [Window; MOST_WINDOWS],
    pub(crate) count: usize,
    ghost few: { count ≤ 64 },
    ghost short: { EachIndex windows (λ i. (window windows i).pages ≤ 16) },
    ghost within: { EachIndex windows (λ i. (window windows i).start + 4096 * (window windows i).pages ≤ 2 ^ 64) },
}

// Why a window is not right, if it is not.
fn wrong(i: u64, w: Window) -> Option<Malformed>
    ensures { result ≡ wrong_of i w }
{
    if w.start % 4096 != 0 {
        Some(Malformed::Start(i))
    } else if w.pages == 0 || (MOST_PAGES as u64) < w.pages {
        Some(Malformed::Pages(i))
    } else if 0x10_0000_0000_0000 - w.start / 4096 < w.pages {
        Some(Malformed::End(i))
    } else {
        None
    }
}

// How many windows a list has, where it is as long as they need.
#[tactic(auto, using(crate::proofs::Decoding::counting), unfolding(crate::specs::List::list_of))]
fn counted(list: &[u8]) -> Result<u64, Malformed>
    ensures right { IfOk result (λ count. Counted list.now count) }
    ensures wrong { IfErr result (λ why. list_of list.now ≡ Err why) }
{
    match ram::read(0, list, Width::Half, 0) {
        None => Err(Malformed::Length),
        Some(count) if (MOST_WINDOWS as u64) < count => Err(Malformed::Count),
        Some(count) if list.len() as u64 != 2 + 10 * count => Err(Malformed::Length),
        Some(count) => Ok(count),
    }
}

// A window of a list of so many. Each read lies within the list.
#[tactic(auto, using(crate::proofs::Reading::reading))]
fn window_at(list: &[u8], count: u64, i: u64) -> Window
    requires counted { Counted list.now count }
    requires one { i < count }
    ensures { result ≡ window_at list.now count i }
{
    Window {
        start: ram::read(0, list, Width::Double, 2 + 8 * i).unwrap_or(0),
        pages: ram::read(0, list, Width::Half, 2 + 8 * count + 2 * i).unwrap_or(0),
    }
}

impl WindowList {
    ghost use Rattle.windows.specs.Listed.{listed};

    /// Decodes a list, or says why it is not right.
    #[tactic(auto, using(crate::proofs::Decoding::decoding))]
    pub fn read(list: &[u8]) -> Result<WindowList, Malformed>
        ensures right { IfOk result (λ l. list_of list.now ≡ Ok (listed l)) }
        ensures wrong { IfErr result (λ why. list_of list.now ≡ Err why) }
    {
        let count = counted(list)?;
        let mut windows = [NO_WINDOW; MOST_WINDOWS];
        for i in 0..count {
            let w = window_at(list, count, i);
            if let Some(why) = wrong(i, w) {
                return Err(why);
            }
            windows[i as usize] = w;
        }
        Ok(WindowList {
            windows,
            count: count as usize,
        })
    }

    /// The windows, in order.
    pub fn windows(&self) -> &[Window]
        ensures { result.now ≡ listed self.now }
    {
        &self.windows[..self.count]
    }
}
