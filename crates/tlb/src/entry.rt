// One entry: what a walk found for a page of a regime.
ghost use Rattle.std.specs.Prelude.{◌≡◌, ◌≤◌};
ghost use Rattle.tlb.specs.Tlb.{entry_for, span_of, page_dropped, asid_dropped};

use walk::level::Leaf;

/// A zeroed entry answers for no tag.
#[derive(Clone, Copy, Default)]
pub struct Entry {
    /// The untagged page times 4, plus the regime, which is never 0.
    pub tag: u64,
    pub generation: u32,
    /// Read, write and fetch: EL0's in bits 0 to 2, the regime's own in bits 3 to 5.
    pub perms: u8,
    pub level: u8,
    /// For every ASID, or for that of the walk only.
    pub global: bool,
    pub asid: u16,
    pub pa: u64,
}

// The bits of VA[55:12].
const BITS: u64 = (1 << 44) - 1;

// How many low bits of a page lie within a leaf of the level: 1 GiB, 2 MiB or one page.
fn span(level: u8) -> u64
    ensures value { result ≡ span_of level }
    ensures upper_bound { result ≤ 18 }
{
    match level {
        1 => 18,
        2 => 9,
        _ => 0,
    }
}

#[tactic(auto, unfolding(crate::specs::Tlb::page_dropped, crate::specs::Tlb::asid_dropped))]
impl Entry {
    /// The entry that a leaf becomes, under an ASID. `Tlb::put` sets its generation.
    pub fn new(leaf: Leaf, asid: u16, tag: u64) -> Self
        ensures { result ≡ entry_for leaf asid tag }
    {
        Entry {
            tag,
            generation: 0,
            perms: leaf.perms,
            level: leaf.level,
            global: leaf.global,
            asid,
            pa: leaf.oa & !0xFFF,
        }
    }

    // After a Page: out if it is of the generation and translates the page.
    pub fn drop_page(&mut self, generation: u32, page: u64)
        ensures { self.new ≡ page_dropped generation page self.old }
    {
        let span = span(self.level);
        let own = self.tag >> 2 & BITS;
        if self.generation == generation && own >> span == (page & BITS) >> span {
            self.tag = 0;
        }
    }

    // After an Asid: out if it was walked for the ASID and is not global.
    pub fn drop_asid(&mut self, asid: u16)
        ensures { self.new ≡ asid_dropped asid self.old }
    {
        if !self.global && self.asid == asid {
            self.tag = 0;
        }
    }
}
