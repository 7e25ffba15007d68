// Hits and walks, by exception level.
ghost use Rattle.std.specs.Prelude.{◌≡◌, ◌<◌};
ghost use Rattle.tlb.specs.Tlb.{level_place, hit_counted, walk_counted};

use crate::Tlb;

/// Answers from entries, and walks.
#[derive(Clone, Copy, Default)]
pub struct Tally {
    pub hits: u64,
    pub walks: u64,
}

/// The place of a level's tally: a level has two bits.
pub fn level_place(level: u8) -> usize
    ensures value { result ≡ level_place level }
    ensures upper_bound { result < 4 }
{
    (level & 3) as usize
}

impl Tlb {
    pub fn count_hit(&mut self, level: u8)
        ensures { self.new ≡ hit_counted level self.old }
    {
        let tally = &mut self.levels[level_place(level)];
        tally.hits = tally.hits.wrapping_add(1);
    }

    pub fn count_walk(&mut self, level: u8)
        ensures { self.new ≡ walk_counted level self.old }
    {
        let tally = &mut self.levels[level_place(level)];
        tally.walks = tally.walks.wrapping_add(1);
    }
}
