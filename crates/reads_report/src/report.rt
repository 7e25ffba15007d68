//! What `a72 reads` shows: a row for each page, with a bar, those that read most first; the others; and all.
use crate::pages::Pages;
use crate::rows::{Page, Row, Sums};
use counters_report::share::Share;
use json_text::{Count, Hex};
use serde::Serialize;
use std::alloc::{AllocError, Global};
use std::fmt;
use tlb::count::Tally;
use walk_report::explain;

// Operations, their descriptors, and the share of all descriptors.
#[derive(Clone, Copy, Serialize)]
struct Counts {
    operations: Count,
    reads: Count,
    // in parts of a thousand
    reads_per_thousand: Option<u64>,
    #[serde(skip)]
    share: Share,
}

#[derive(Clone, Copy, Serialize)]
struct OnePage {
    el: u8,
    va: Hex,
    regime: &'static str,
    #[serde(flatten)]
    counts: Counts,
}

// What several pages come to.
#[derive(Clone, Copy, Serialize)]
struct Several {
    pages: Count,
    #[serde(flatten)]
    counts: Counts,
}

/// The pages that read most descriptors, so many rows of them, what the others come to, and all.
#[derive(Drop, Serialize)]
pub struct Report {
    rows: Vec<OnePage>,
    others: Several,
    all: Several,
}

impl Counts {
    // Of so many descriptors in all.
    fn new(operations: u64, reads: u64, all: u64) -> Self {
        let share = Share(Tally {
            hits: all.wrapping_sub(reads),
            walks: reads,
        });
        Counts {
            operations: Count(operations),
            reads: Count(reads),
            reads_per_thousand: share.thousandths(),
            share,
        }
    }
}

impl OnePage {
    fn new(row: &Row, all: u64) -> Self {
        let Page {
            level,
            regime,
            number,
        } = row.page;
        OnePage {
            el: level,
            va: Hex(number << 12),
            regime: explain::regime_name(regime),
            counts: Counts::new(row.operations, row.descriptors, all),
        }
    }
}

impl Several {
    fn new(sums: Sums, all: u64) -> Self {
        Several {
            pages: Count(sums.pages),
            counts: Counts::new(sums.operations, sums.descriptors, all),
        }
    }
}

impl Report {
    pub fn new(alloc: Global, pages: &Pages, most: usize) -> Result<Self, AllocError> {
        let ranked = pages.ranked()?;
        let sums = ranked.all();
        let all = sums.descriptors;
        let mut rows = Vec::new(alloc);
        for row in ranked.first(most) {
            rows.push(OnePage::new(row, all))?;
        }
        Ok(Report {
            rows,
            others: Several::new(ranked.others(most), all),
            all: Several::new(sums, all),
        })
    }
}

// Two counts in their columns, and the share.
impl fmt::Display for Counts {
    fn fmt<W: fmt::Write>(&self, f: &mut fmt::Formatter<W>) -> fmt::Result {
        let (operations, reads) = (self.operations.0, self.reads.0);
        writeln!(f, "{operations:>12}{reads:>13}{}", self.share)
    }
}

impl fmt::Display for OnePage {
    fn fmt<W: fmt::Write>(&self, f: &mut fmt::Formatter<W>) -> fmt::Result {
        let OnePage {
            el,
            va,
            regime,
            counts,
        } = self;
        write!(f, "  EL{el}  {:016x}  {regime:<6}{counts}", va.0)
    }
}

impl Several {
    fn show<W: fmt::Write>(&self, f: &mut fmt::Formatter<W>, what: &str) -> fmt::Result {
        write!(
            f,
            "  {what:<7}{:>10} pages      {}",
            self.pages.0, self.counts
        )
    }
}

impl fmt::Display for Report {
    fn fmt<W: fmt::Write>(&self, f: &mut fmt::Formatter<W>) -> fmt::Result {
        if self.all.counts.reads.0 == 0 {
            return writeln!(f, "no descriptor was read");
        }
        writeln!(f, "pages by the descriptors that their walks read (#)")?;
        write!(f, "       page              regime")?;
        writeln!(f, "  operations  descriptors   share of descriptors")?;
        for row in &self.rows {
            write!(f, "{row}")?;
        }
        if self.others.pages.0 != 0 {
            self.others.show(f, "others")?;
        }
        self.all.show(f, "all")?;
        write!(f, "an operation over two pages counts at the first;")?;
        writeln!(f, " not counted: operations that read none")
    }
}
