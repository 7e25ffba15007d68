//! The pages of a trace by the descriptors that walks of them read.
ghost use Rattle.std.specs.Prelude.{◌≡◌, map};

use crate::rows::{Page, Ranked, Row};
use indexmap::IndexSet;
use std::alloc::{AllocError, Global};
use std::cmp::Reverse;

/// Each page that an operation read descriptors for, in a row of its own.
#[derive(Drop)]
pub struct Pages {
    rows: Vec<Row>,
    // by the page, the place of its row
    places: IndexSet<Page>,
    ghost placed: { places.keys ≡ map (λ row. row.page) rows.items },
}

impl Pages {
    ghost use Rattle.std.specs.Prelude.{IfOk, OnErr, [], ◌∷◌, is_some, length};
    ghost use Rattle.std.specs.List.{list_any, position};
    ghost use Rattle.std.specs.List.Sorted.{IsPermutation};
    ghost use Rattle.reads_report.specs.Rows.{noted, of_level, same};

    pub fn new(alloc: Global) -> Self
        ensures { length result.rows.items ≡ 0 }
    {
        Pages {
            rows: Vec::new(alloc),
            places: IndexSet::new(alloc),
        }
    }

    /// As it was when it was made.
    pub fn clear(&mut self)
        ensures { length self.new.rows.items ≡ 0 }
    {
        self.rows.clear();
        self.places.clear();
    }

    // The place of a page's row.
    fn place_of(&self, page: &Page) -> Option<usize>
        ensures place { result ≡ position (λ row. same page.now row.page) self.now.rows.items }
        ensures found { is_some result ≡ list_any (same page.now) self.now.places.keys }
    {
        self.places.get_index_of(page)
    }

    /// An operation at a page read so many descriptors. Where memory is out nothing is counted.
    pub fn note(&mut self, page: Page, reads: u64) -> Result<(), AllocError>
        ensures noted { IfOk result (λ _. self.new.rows.items ≡ noted page reads self.old.rows.items) }
        ensures kept { OnErr result (self.new.rows.items ≡ self.old.rows.items) }
    {
        match self.place_of(&page) {
            Some(place) => {
                let row = &mut self.rows[place];
                row.operations = row.operations.wrapping_add(1);
                row.descriptors = row.descriptors.wrapping_add(reads);
            }
            None => {
                self.rows.reserve(1)?;
                self.places.insert(page)?;
                self.rows.push_reserved(Row {
                    page,
                    operations: 1,
                    descriptors: reads,
                });
            }
        }
        Ok(())
    }

    // The descriptors that the operations of a level read.
    fn at_level(&self, level: u8) -> u64
        ensures { result ≡ of_level level self.now.rows.items }
    {
        let mut sum = 0u64;
        for row in &self.rows {
            if row.page.level == level {
                sum = sum.wrapping_add(row.descriptors);
            }
        }
        sum
    }

    /// The descriptors that the operations of each level read, EL0 to EL3.
    pub fn by_level(&self) -> [u64; 4]
        ensures { result ≡ map (λ level. of_level level self.now.rows.items) (0 ∷ 1 ∷ 2 ∷ 3 ∷ []) }
    {
        [
            self.at_level(0),
            self.at_level(1),
            self.at_level(2),
            self.at_level(3),
        ]
    }

    /// The rows with most descriptors first; those with as many by level, regime and page.
    pub fn ranked(&self) -> Result<Ranked, AllocError>
        ensures { IfOk result (λ ranked. IsPermutation self.now.rows.items ranked.rows.items) }
    {
        let mut rows = self.rows.clone()?;
        rows.sort_by_key(|row| {
            let Page {
                level,
                regime,
                number,
            } = row.page;
            (Reverse(row.descriptors), level, u64::from(regime), number)
        })?;
        Ok(Ranked { rows })
    }
}
