// The range of a census, and the cells of its map: 64 rows of 64 cells.
ghost use Rattle.std.specs.Prelude.{◌≡◌, ◌*◌, ◌<◌, ◌≤◌};

use crate::letter::Letter;
use core_calls::inspect;
use cpu::Core;
use std::fmt;

/// The cells of a map; one past the range has no letter.
pub type Map = [[Option<Letter>; 64]; 64];

/// Where the range starts, its pages of 4 KiB, and the pages of a cell.
#[derive(Clone, Copy)]
pub struct Grid {
    pub start: u64,
    pub pages: u64,
    pub per: u64,
}

impl Grid {
    /// The pages from that of `first` on. A cell has one, or the least power of two with which 4,096 cells suffice.
    pub fn new(first: u64, pages: u64) -> Self
        ensures pages_value { (result.pages ≡ pages) × (0 < result.per) }
        ensures cells_bound { pages ≤ result.per * 4096 }
    {
        Grid {
            start: first - first % 4096,
            pages,
            per: pages.div_ceil(4096).next_power_of_two(),
        }
    }

    /// The bytes of a row of 64 cells.
    pub fn row_bytes(self) -> u64 {
        self.per << 18
    }

    // A cell's letter: a census of its own pages.
    fn letter(self, core: &Core, base: u64, ram: &[u8], from: u64, pages: u64) -> Option<Letter> {
        let mut counts = [0u64; 129];
        let first = self.start.wrapping_add(from << 12);
        inspect::census(core, first, pages, &mut counts, base, ram);
        Letter::of_counts(&counts)
    }

    /// Gives each cell its letter, from where the one before it ends. Where the last one ends: with the range.
    pub fn fill(self, core: &Core, base: u64, ram: &[u8], map: &mut Map) -> u64
        ensures { self.pages ≤ self.per * 4096 → result ≡ self.pages }
    {
        let mut from = 0u64;
        for cell in map.as_flattened_mut().iter_mut() {
            let pages = self.per.min(self.pages - from);
            if pages != 0 {
                *cell = self.letter(core, base, ram, from, pages);
            }
            from += pages;
        }
        from
    }
}

// So many pages, as their size.
#[derive(Clone, Copy)]
struct Size(u64);

impl fmt::Display for Size {
    fn fmt<W: fmt::Write>(&self, f: &mut fmt::Formatter<W>) -> fmt::Result {
        if self.0 % 256 == 0 && self.0 != 0 {
            write!(f, "{} MiB", self.0 / 256)
        } else {
            write!(f, "{} KiB", self.0 << 2)
        }
    }
}

// So many pages, and their size.
#[derive(Clone, Copy)]
struct Pages(u64);

impl fmt::Display for Pages {
    fn fmt<W: fmt::Write>(&self, f: &mut fmt::Formatter<W>) -> fmt::Result {
        let word = if self.0 == 1 { "page" } else { "pages" };
        write!(f, "{} {word} ({})", self.0, Size(self.0))
    }
}

impl fmt::Display for Grid {
    fn fmt<W: fmt::Write>(&self, f: &mut fmt::Formatter<W>) -> fmt::Result {
        let Grid { start, pages, .. } = *self;
        if pages == 0 {
            return write!(f, "no pages from {start:016x}");
        }
        let last = start.wrapping_add(pages << 12).wrapping_sub(1);
        write!(f, "{} from {start:016x} to {last:016x}", Pages(pages))
    }
}

/// What a cell of the map is, by its pages.
#[derive(Clone, Copy)]
pub struct Scale(pub u64);

impl fmt::Display for Scale {
    fn fmt<W: fmt::Write>(&self, f: &mut fmt::Formatter<W>) -> fmt::Result {
        let row = Size(self.0 << 6);
        write!(f, "a cell is {}, a row of 64 cells {row}", Pages(self.0))
    }
}
