// A stage 1 descriptor by the manual's field names (DDI 0487, VMSAv8-64 translation table format descriptors).
ghost use Rattle.std.specs.Prelude.{◌≡◌, ◌%◌, ◌^◌, ◌≤◌};
ghost use Rattle.word.specs.Bits.{align_down};
ghost use Rattle.walk.specs.Descriptor.{valid, table_or_page, ap1, ap2, af, not_global, pxn, uxn, pxn_table, uxn_table};
ghost use Rattle.walk.specs.Descriptor.{ap_table0, ap_table1};
ghost use Rattle.walk.specs.Table.{beyond};

use word::bits;

/// What of a descriptor or base register is an address.
const PA_MASK: u64 = (1 << 48) - 1;

/// Bits 47 to n of a descriptor or base register, and zeros below.
pub(crate) fn address(x: u64, n: u64) -> u64
    ensures { result ≡ align_down (x % 2 ^ 48) (n % 64) }
{
    bits::align_down(x & PA_MASK, n)
}

/// Whether bits 47 to n are not all zero: an address beyond n bits.
#[tactic(auto, using(crate::proofs::Levels::ends))]
pub(crate) fn beyond(x: u64, n: u64) -> bool
    requires { n ≤ 44 }
    ensures { result ≡ beyond n x }
{
    (x & PA_MASK) >> n != 0
}

/// The bits of a descriptor.
#[derive(Clone, Copy)]
pub struct Descriptor(pub u64);

impl Descriptor {
    /// Not ignored.
    pub fn valid(self) -> bool
        ensures { result ≡ valid self.0 }
    {
        self.0 & 1 != 0
    }

    /// A table, or at level 3 a page; else a block.
    pub fn table_or_page(self) -> bool
        ensures { result ≡ table_or_page self.0 }
    {
        self.0 >> 1 & 1 != 0
    }

    /// AP<1>: EL0 may read it.
    pub fn ap1(self) -> bool
        ensures { result ≡ ap1 self.0 }
    {
        self.0 >> 6 & 1 != 0
    }

    /// AP<2>: none may write it.
    pub fn ap2(self) -> bool
        ensures { result ≡ ap2 self.0 }
    {
        self.0 >> 7 & 1 != 0
    }

    /// The access flag.
    pub fn af(self) -> bool
        ensures { result ≡ af self.0 }
    {
        self.0 >> 10 & 1 != 0
    }

    /// nG: for the ASID of the walk only.
    pub fn not_global(self) -> bool
        ensures { result ≡ not_global self.0 }
    {
        self.0 >> 11 & 1 != 0
    }

    /// PXN: EL1 may not execute it.
    pub fn pxn(self) -> bool
        ensures { result ≡ pxn self.0 }
    {
        self.0 >> 53 & 1 != 0
    }

    /// UXN, or XN: EL0, or EL2 or EL3, may not execute it.
    pub fn uxn(self) -> bool
        ensures { result ≡ uxn self.0 }
    {
        self.0 >> 54 & 1 != 0
    }

    /// PXNTable: EL1 may execute nothing below.
    pub fn pxn_table(self) -> bool
        ensures { result ≡ pxn_table self.0 }
    {
        self.0 >> 59 & 1 != 0
    }

    /// UXNTable, or XNTable: EL0, or EL2 or EL3, may execute nothing below.
    pub fn uxn_table(self) -> bool
        ensures { result ≡ uxn_table self.0 }
    {
        self.0 >> 60 & 1 != 0
    }

    /// APTable<0>: EL0 may access nothing below.
    pub fn ap_table0(self) -> bool
        ensures { result ≡ ap_table0 self.0 }
    {
        self.0 >> 61 & 1 != 0
    }

    /// APTable<1>: none may write what is below.
    pub fn ap_table1(self) -> bool
        ensures { result ≡ ap_table1 self.0 }
    {
        self.0 >> 62 & 1 != 0
    }
}
