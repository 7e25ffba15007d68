// Hints: pages that an access was allowed to, by raw page and exception level.
ghost use Rattle.std.specs.Prelude.{◌≡◌, ◌<◌, false};
ghost use Rattle.tlb.specs.Tlb.{page_of, on_page, data_slot, hint_key, hint_for, hint_found, fetch_for, fetch_found};
ghost use Rattle.tlb.specs.Access.{is_fetch};

use crate::Tlb;
use crate::access::Kind;

/// Data hints for reads, and as many for writes.
pub const DATA_HINTS: usize = 256;

/// It matches no key.
pub const NO_HINT: Hint = Hint {
    key: u64::MAX,
    pa: 0,
};

#[derive(Clone, Copy)]
pub struct Hint {
    /// The raw page's address, plus the level.
    pub key: u64,
    pub pa: u64,
}

#[derive(Clone, Copy)]
pub struct FetchHint {
    /// The raw page's address.
    pub page: u64,
    pub level: u8,
    pub pa: u64,
}

// The address of an address's page.
fn page_of(va: u64) -> u64
    ensures { result ≡ page_of va }
{
    va & !0xFFF
}

/// The physical page pa, with the low twelve bits of va.
pub fn on_page(pa: u64, va: u64) -> u64
    ensures { result ≡ on_page pa va }
{
    pa | va & 0xFFF
}

/// A data hint's place: by page, with higher bits folded in. A fetch has none below 512.
#[tactic(auto, unfolding(crate::specs::Tlb::place_of))]
pub fn data_slot(va: u64, kind: Kind) -> usize
    ensures value { result ≡ data_slot va kind }
    ensures upper_bound { is_fetch kind ≡ false → result < 512 }
{
    let page = va >> 12;
    (kind as usize - 1) * DATA_HINTS
        + ((page ^ (page >> 5) ^ (page >> 10)) as usize & (DATA_HINTS - 1))
}

fn hint_key(va: u64, level: u8) -> u64
    ensures { result ≡ hint_key va level }
{
    page_of(va) + level as u64
}

impl Hint {
    /// The hint that an access to va, allowed to pa, leaves.
    pub fn new(va: u64, level: u8, pa: u64) -> Self
        ensures { result ≡ hint_for va level pa }
    {
        Hint {
            key: hint_key(va, level),
            pa: page_of(pa),
        }
    }

    /// Where an access to va goes by the hint.
    pub fn find(&self, level: u8, va: u64) -> Option<u64>
        ensures { result ≡ hint_found self.now level va }
    {
        (self.key == hint_key(va, level)).then_some(on_page(self.pa, va))
    }
}

impl FetchHint {
    /// The hint that a fetch of va, allowed to pa, leaves.
    pub fn new(va: u64, level: u8, pa: u64) -> Self
        ensures { result ≡ fetch_for va level pa }
    {
        FetchHint {
            page: page_of(va),
            level,
            pa: page_of(pa),
        }
    }
}

impl Tlb {
    /// Where a fetch of va goes by the fetch hint.
    pub fn by_fetch_hint(&self, level: u8, va: u64) -> Option<u64>
        ensures { result ≡ fetch_found self.now.fetch level va }
    {
        match self.fetch {
            Some(hint) if hint.page == page_of(va) && hint.level == level => {
                Some(on_page(hint.pa, va))
            }
            _ => None,
        }
    }
}
