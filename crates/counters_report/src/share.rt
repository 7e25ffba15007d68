// The share of walks among the translations that are counted.
ghost use Rattle.std.specs.Prelude.{◌≡◌, ◌+◌, ◌*◌, ◌/◌, ◌^◌, ◌<◌, ◌≤◌};

use std::fmt;
use tlb::count::Tally;

// Numbers below this are taken whole; where one is not, both are taken in 4,096ths.
const WHOLE: u64 = 0x10_0000_0000_0000;

// In parts of a thousand, rounded down; of nothing 0.
fn of_whole(hits: u64, walks: u64) -> u64
    requires hits_bound { hits < 2 ^ 52 }
    requires walks_bound { walks < 2 ^ 52 }
    ensures upper_bound { result ≤ 1000 }
    ensures value { 0 < hits + walks → result ≡ walks * 1000 / (hits + walks) }
{
    let all = hits + walks;
    if all == 0 {
        return 0;
    }
    walks * 1000 / all
}

/// The share of walks, in parts of a thousand, rounded down: exact where both numbers are below 2^52.
pub fn of_walks(hits: u64, walks: u64) -> u64
    ensures upper_bound { result ≤ 1000 }
    ensures value { hits < 2 ^ 52 → walks < 2 ^ 52 → 0 < hits + walks → result ≡ walks * 1000 / (hits + walks) }
{
    if hits < WHOLE && walks < WHOLE {
        of_whole(hits, walks)
    } else {
        of_whole(hits / 4096, walks / 4096)
    }
}

/// The cells of a bar of 40 for a share: the nearest number, and one at least where there was a walk.
pub fn cells(share: u64, walks: u64) -> usize
    ensures { result ≤ 40 }
{
    let n = (share % 1001 * 40 + 500) / 1000;
    if n == 0 && walks != 0 { 1 } else { n as usize }
}

/// The share of walks in percent with one decimal, and a bar of forty cells; a dash of nothing.
#[derive(Clone, Copy)]
pub struct Share(pub Tally);

impl Share {
    /// The share in parts of a thousand; none of nothing.
    pub fn thousandths(self) -> Option<u64> {
        let Tally { hits, walks } = self.0;
        (hits != 0 || walks != 0).then_some(of_walks(hits, walks))
    }
}

impl fmt::Display for Share {
    fn fmt<W: fmt::Write>(&self, f: &mut fmt::Formatter<W>) -> fmt::Result {
        let walks = self.0.walks;
        let Some(share) = self.thousandths() else {
            return write!(f, "        -");
        };
        match share {
            0 if walks != 0 => f.write_str("    <0.1")?,
            _ => write!(f, "{:>6}.{}", share / 10, share % 10)?,
        }
        let cells = cells(share, walks);
        let rest = 40 - cells;
        write!(f, "%  {:#>cells$}{:.>rest$}", "", "")
    }
}
