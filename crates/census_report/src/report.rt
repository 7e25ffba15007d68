// A census of a core and its window, shown as a table and a map, or as a picture.
use crate::grid::{Grid, Map};
use crate::letter::{End, Letter};
use crate::text::Facts;
use crate::{picture, text};
use core_calls::inspect;
use cpu::Core;
use std::alloc::{AllocError, Global};
use std::io::Write;
use std::{fmt, io};

/// Why there is no census.
#[derive(Clone, Copy, Debug)]
pub enum Refused {
    Level,
    Window,
    Pages,
    Range,
}

impl fmt::Display for Refused {
    fn fmt<W: fmt::Write>(&self, f: &mut fmt::Formatter<W>) -> fmt::Result {
        f.write_str(match self {
            Refused::Level => "the core's level is above 3",
            Refused::Window => "the window passes 2^64",
            Refused::Pages => "PAGES: more than 65536 pages (10000 hexadecimal)",
            Refused::Range => "PAGES: the range passes 2^64",
        })
    }
}

/// How a census is shown; colour is for a terminal.
#[derive(Clone, Copy)]
pub enum Form {
    Plain,
    Coloured,
    Picture,
}

/// The counts of a range's pages by how they end, the map of its cells, and the level that it was made at.
#[derive(Clone, Copy)]
pub struct Census {
    pub(crate) counts: [u64; 129],
    pub(crate) map: Map,
    pub(crate) grid: Grid,
    pub(crate) level: u8,
}

impl Census {
    /// The census of so many pages at the core's level.
    pub fn new(
        core: &Core,
        base: u64,
        ram: &[u8],
        first: u64,
        pages: u64,
    ) -> Result<Self, Refused> {
        let mut counts = [0u64; 129];
        match inspect::census(core, first, pages, &mut counts, base, ram) {
            0 => {}
            1 => return Err(Refused::Level),
            2 => return Err(Refused::Window),
            _ if 0x1_0000 < pages => return Err(Refused::Pages),
            _ => return Err(Refused::Range),
        }
        let grid = Grid::new(first, pages);
        let mut map = [[None; 64]; 64];
        grid.fill(core, base, ram, &mut map);
        Ok(Census {
            counts,
            map,
            grid,
            level: core.privilege.level,
        })
    }

    // How many cells have a letter.
    pub(crate) fn cells(&self, letter: Letter) -> usize {
        let cells = self.map.as_flattened();
        cells.iter().filter(|cell| **cell == Some(letter)).count()
    }

    // How many pages end as a letter says.
    pub(crate) fn pages(&self, letter: Letter) -> u64 {
        self.counts
            .iter()
            .enumerate()
            .filter(|(place, _)| Letter::from(End::of_place(*place)) == letter)
            .fold(0, |sum, (_, count)| sum.wrapping_add(*count))
    }

    /// Its facts, for a document.
    pub fn facts(&self, alloc: Global) -> Result<Facts, AllocError> {
        Facts::new(alloc, self)
    }

    /// Shows it.
    pub fn show<W: Write>(&self, out: &mut W, alloc: Global, form: Form) -> io::Result<()> {
        match form {
            Form::Plain => text::show(out, alloc, self, false),
            Form::Coloured => text::show(out, alloc, self, true),
            Form::Picture => picture::show(out, self),
        }
    }
}

impl fmt::Display for Census {
    fn fmt<W: fmt::Write>(&self, f: &mut fmt::Formatter<W>) -> fmt::Result {
        write!(f, "census of {} at EL{}", self.grid, self.level)
    }
}
