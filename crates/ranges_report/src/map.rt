// The ranges of a map.
ghost use Rattle.std.specs.Prelude.{◌≡◌, ◌+◌, ◌≤◌, ◌↔◌, IsTrue, IfOk};
ghost use Rattle.ranges_report.specs.Place.{attributes_of, range_of, Joins, Added, Ordered};

use std::alloc::AllocError;
use walk::level::Leaf;

/// What of a leaf holds of all that it maps.
#[derive(Clone, Copy, PartialEq, Eq)]
pub struct Attributes {
    /// EL0's rights in bits 0 to 2, the regime's own in bits 3 to 5: read, write, fetch.
    pub perms: u8,
    pub level: u8,
    /// The same for every ASID.
    pub global: bool,
    /// AttrIndx: which attribute of MAIR.
    pub index: u8,
    /// SH.
    pub sharing: u8,
    pub ns: bool,
}

/// A range of addresses that are mapped to as many physical addresses, alike.
#[derive(Clone, Copy)]
pub struct Mapped {
    pub first: u64,
    /// The last address, not the one past it.
    pub last: u64,
    /// The physical address of the first.
    pub pa: u64,
    pub attributes: Attributes,
}

impl Attributes {
    fn new(leaf: Leaf) -> Self
        ensures { result ≡ attributes_of leaf }
    {
        Attributes {
            perms: leaf.perms,
            level: leaf.level,
            global: leaf.global,
            index: (leaf.desc >> 2 & 7) as u8,
            sharing: (leaf.desc >> 8 & 3) as u8,
            ns: leaf.desc >> 5 & 1 != 0,
        }
    }
}

impl Mapped {
    pub(crate) fn new(first: u64, last: u64, leaf: Leaf) -> Self
        ensures { result ≡ range_of first last leaf }
    {
        Mapped {
            first,
            last,
            pa: leaf.oa,
            attributes: Attributes::new(leaf),
        }
    }

    // Whether the next range goes on where this one ends, to the physical address that follows, alike.
    fn joins(&self, next: &Mapped) -> bool
        ensures { IsTrue result ↔ Joins self.now next.now }
    {
        self.first <= self.last
            && self.last < next.first
            && next.first - self.last == 1
            && self.pa <= next.pa
            && next.pa - self.pa == next.first - self.first
            && self.attributes == next.attributes
    }
}

// Adds a range at the end, to the one before where it joins it.
pub(crate) fn add(ranges: &mut Vec<Mapped>, next: Mapped) -> Result<(), AllocError>
    ensures maps { IfOk result (λ done. Added ranges.old.items next ranges.new.items) }
    ensures ordered { IfOk result (λ done. next.first ≤ next.last → Ordered next.first ranges.old.items
        → Ordered (next.last + 1) ranges.new.items) }
{
    let Some(before) = ranges.pop() else {
        ranges.push(next)?;
        return Ok(());
    };
    if before.joins(&next) {
        ranges.push(Mapped {
            last: next.last,
            ..before
        })?;
        return Ok(());
    }
    ranges.push(before)?;
    ranges.push(next)?;
    Ok(())
}
