// What `a72 counters` shows: a row for each level with a bar, the sums, the other counters, and who walks most.
use crate::share::Share;
use crate::total;
use json_text::Count;
use serde::Serialize;
use std::fmt;
use tlb::Tlb;
use tlb::count::Tally;

// Counters below this have at most eleven digits, and sums twelve.
const NARROW: u64 = 0x10_0000_0000;

// The sum of four counters below this is below 2^64.
const SUMS_FIT: u64 = 0x4000_0000_0000_0000;

// What was counted at a level, or at all.
#[derive(Clone, Copy, Serialize)]
struct Row {
    entries: Count,
    walks: Count,
    reads: Count,
    // of walks, in parts of a thousand; none of nothing, and where the counts may have wrapped
    walks_per_thousand: Option<u64>,
}

// The largest of four counts, and the levels that have it; none where all are 0.
#[derive(Clone, Copy, Serialize)]
struct Most {
    #[serde(serialize_with = json_text::present)]
    el: [Option<u8>; 4],
    count: Count,
}

/// A cache's counters, and the descriptors that the operations of each level read. Shown, it is a table.
#[derive(Clone, Copy, Serialize)]
pub struct Counters {
    levels: [Row; 4],
    all: Row,
    // the sums may have wrapped
    modulo_2_64: bool,
    flushes: Count,
    pages_dropped: Count,
    epoch: Count,
    walks_most: Most,
    reads_most: Most,
}

impl Row {
    fn new(tally: Tally, reads: u64, whole: bool) -> Self {
        let share = Share(tally).thousandths();
        Row {
            entries: Count(tally.hits),
            walks: Count(tally.walks),
            reads: Count(reads),
            walks_per_thousand: if whole { share } else { None },
        }
    }

    fn tally(&self) -> Tally {
        Tally {
            hits: self.entries.0,
            walks: self.walks.0,
        }
    }

    // The three counts in their columns.
    fn show<W: fmt::Write>(&self, f: &mut fmt::Formatter<W>, width: usize) -> fmt::Result {
        let Tally { hits, walks } = self.tally();
        let reads = self.reads.0;
        write!(f, "{hits:>width$}{walks:>width$}{reads:>13}")
    }
}

impl Most {
    fn new(counts: [u64; 4]) -> Self {
        let most = counts.iter().copied().max().unwrap_or(0);
        let [el0, el1, el2, el3] = counts.map(|count| count == most && count != 0);
        Most {
            el: [
                el0.then_some(0),
                el1.then_some(1),
                el2.then_some(2),
                el3.then_some(3),
            ],
            count: Count(most),
        }
    }

    // Who does something most, and how often; a sentence of its own where none does it.
    fn show<W: fmt::Write>(
        &self,
        f: &mut fmt::Formatter<W>,
        verb: &str,
        none: &str,
    ) -> fmt::Result {
        for (n, level) in self.el.iter().flatten().enumerate() {
            let before = if n == 0 { "" } else { " and " };
            write!(f, "{before}EL{level}")?;
        }
        match self.el.iter().flatten().count() {
            0 => f.write_str(none),
            1 => write!(f, " {verb}s most: {}", self.count.0),
            _ => write!(f, " {verb} most: each {}", self.count.0),
        }
    }
}

impl Counters {
    pub fn new(tlb: &Tlb, reads: &[u64; 4]) -> Self {
        let levels = &tlb.levels;
        let largest = levels.iter().map(|level| level.hits.max(level.walks)).max();
        let whole = largest.unwrap_or(0) < SUMS_FIT;
        let [el0, el1, el2, el3] = *levels;
        let [read0, read1, read2, read3] = *reads;
        Counters {
            levels: [
                Row::new(el0, read0, true),
                Row::new(el1, read1, true),
                Row::new(el2, read2, true),
                Row::new(el3, read3, true),
            ],
            all: Row::new(total::of_levels(levels), total::of_counts(reads), whole),
            modulo_2_64: !whole,
            flushes: Count(tlb.flushes),
            pages_dropped: Count(tlb.drops),
            epoch: Count(tlb.epoch),
            walks_most: Most::new(levels.map(|level| level.walks)),
            reads_most: Most::new(*reads),
        }
    }

    // A row for each level, and the sums.
    fn show_rows<W: fmt::Write>(&self, f: &mut fmt::Formatter<W>) -> fmt::Result {
        let largest = self
            .levels
            .iter()
            .map(|row| row.entries.0.max(row.walks.0))
            .max();
        let width = if largest.unwrap_or(0) < NARROW {
            13
        } else {
            22
        };
        write!(f, "     {:>width$}{:>width$}", "entries", "walks")?;
        writeln!(f, "  descriptors   share of walks")?;
        for (level, row) in self.levels.iter().enumerate() {
            write!(f, "  EL{level}")?;
            row.show(f, width)?;
            writeln!(f, "{}", Share(row.tally()))?;
        }
        write!(f, "  all")?;
        self.all.show(f, width)?;
        if self.modulo_2_64 {
            writeln!(f, "  modulo 2^64")
        } else {
            writeln!(f, "{}", Share(self.all.tally()))
        }
    }
}

impl fmt::Display for Counters {
    fn fmt<W: fmt::Write>(&self, f: &mut fmt::Formatter<W>) -> fmt::Result {
        write!(f, "cache counters by exception level:")?;
        writeln!(f, " answers by entries (.) and walks (#)")?;
        self.show_rows(f)?;
        write!(f, "flushes {}, pages dropped ", self.flushes.0)?;
        writeln!(f, "{}, epoch {}", self.pages_dropped.0, self.epoch.0)?;
        write!(f, "counted at the level of the access,")?;
        writeln!(f, " which the unprivileged mark does not lower;")?;
        write!(
            f,
            "not counted: answers by a hint, and answers with stage 1 off"
        )?;
        writeln!(f, "; AT counts its descriptors alone")?;
        self.walks_most.show(f, "walk", "nothing was walked")?;
        match self.walks_most.count.0 {
            0 => writeln!(f)?,
            _ if self.modulo_2_64 => writeln!(f, " walks")?,
            _ => writeln!(f, " of {} walks", self.all.walks.0)?,
        }
        self.reads_most.show(f, "read", "no descriptor was read")?;
        match self.reads_most.count.0 {
            0 => writeln!(f),
            _ => writeln!(f, " of {} descriptors", self.all.reads.0),
        }
    }
}
