// Which windows share a physical page.
ghost use Rattle.std.specs.Prelude.{◌≡◌, ◌==◌};
ghost use Rattle.std.specs.List.{list_any};
ghost use Rattle.windows.specs.Rows.{row_of};
ghost use Rattle.windows.specs.Pairs.{meet, first_meeting};

use crate::Pair;
use crate::list::WindowList;
use crate::pages::PhysicalPages;

// Whether a page is among these.
fn has(pages: &[u64], page: u64) -> bool
    ensures { result ≡ list_any (λ y. page == y) pages.now }
{
    // to the end, so that several can be compared at once
    pages.iter().fold(false, |found, y| found | (page == *y))
}

// Whether two windows have a physical page in common.
fn meet(a: &[u64], b: &[u64]) -> bool
    ensures { result ≡ meet a.now b.now }
{
    a.iter().any(|x| has(b, *x))
}

/// The first two windows that share a physical page, by lower number and then by higher.
pub fn first_pair(list: &WindowList, pages: &PhysicalPages) -> Option<Pair>
    ensures { result ≡ first_meeting list.now.count (row_of list.now.windows pages.now) }
{
    for i in 0..list.count {
        let a = &pages[i][..list.windows[i].pages as usize];
        for k in i + 1..list.count {
            let b = &pages[k][..list.windows[k].pages as usize];
            if meet(a, b) {
                return Some(Pair {
                    first: i as u64,
                    second: k as u64,
                });
            }
        }
    }
    None
}
