// The counters in a line of `a72 run`.
use crate::total;
use json_text::Count;
use serde::Serialize;
use std::fmt;
use tlb::count::Tally;

// What one level counted.
#[derive(Clone, Copy, Serialize)]
struct Level {
    hits: Count,
    walks: Count,
}

/// The sums of the hits and of the walks, then each level's own.
#[derive(Clone, Copy, Serialize)]
pub struct Levels {
    hits: Count,
    walks: Count,
    levels: [Level; 4],
}

impl Levels {
    pub fn new(levels: &[Tally; 4]) -> Self {
        let all = total::of_levels(levels);
        Levels {
            hits: Count(all.hits),
            walks: Count(all.walks),
            levels: levels.map(|tally| Level {
                hits: Count(tally.hits),
                walks: Count(tally.walks),
            }),
        }
    }
}

impl fmt::Display for Levels {
    fn fmt<W: fmt::Write>(&self, f: &mut fmt::Formatter<W>) -> fmt::Result {
        write!(f, "h={:x} w={:x}", self.hits.0, self.walks.0)?;
        for (level, tally) in self.levels.iter().enumerate() {
            write!(f, " l{level}={:x}:{:x}", tally.hits.0, tally.walks.0)?;
        }
        Ok(())
    }
}
