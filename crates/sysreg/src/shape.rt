// What of the registers shapes a translation, and the ASID of the EL1&0 regime.
ghost use Rattle.std.specs.Prelude.{◌≡◌};
ghost use Rattle.sysreg.specs.Shape.{same_levels, same_shape, asid_of};

use crate::regs::Control;

// Whether two arrays hold the same at EL1, EL2 and EL3.
fn same_levels(a: &[u64; 4], b: &[u64; 4]) -> bool
    ensures { result ≡ same_levels a.now b.now }
{
    a[1] == b[1] && a[2] == b[2] && a[3] == b[3]
}

impl Control {
    /// Whether the registers that decide what the TLB holds are the same: all that translation reads, but for the
    /// EL1&0 regime's TTBRs, which the entries' ASID covers.
    #[inline(always)]
    #[tactic(auto, unfolding(crate::specs::Shape::same_shape))]
    pub fn same_shaping(&self, other: &Control) -> bool
        ensures { result ≡ same_shape self.now other.now }
    {
        same_levels(&self.sctlr, &other.sctlr)
            && same_levels(&self.tcr, &other.tcr)
            && self.ttbr0[2] == other.ttbr0[2]
            && self.ttbr0[3] == other.ttbr0[3]
            && self.hcr_el2 == other.hcr_el2
            && self.scr_el3 == other.scr_el3
    }

    /// The EL1&0 regime's ASID: of `TTBR1_EL1` or `TTBR0_EL1` as `TCR_EL1.A1` says, 8 or 16 bits as `TCR_EL1.AS` does.
    #[tactic(auto, unfolding(crate::specs::Shape::asid_of, crate::specs::Shape::asid_base))]
    pub fn asid(&self) -> u16
        ensures { result ≡ asid_of self.now }
    {
        let tcr = self.tcr[1];
        let ttbr = if tcr >> 22 & 1 != 0 {
            self.ttbr1_el1
        } else {
            self.ttbr0[1]
        };
        let mask = if tcr >> 36 & 1 != 0 { 0xFFFF } else { 0xFF };
        (ttbr >> 48) as u16 & mask
    }
}
