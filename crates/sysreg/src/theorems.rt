// What holds of every register write and of the shape of a translation. Each function computes nothing: its contract is
// the theorem.
ghost use Rattle.std.specs.Prelude.{◌≡◌, ℕ, ◌^◌, ◌≤◌, ◌<◌, true, false, ◌≢◌, Some, None, Err, [], ◌∷◌, map, bit_and};
ghost use Rattle.word.specs.Places.{bits, bit, FieldAt, BitAt};
ghost use Rattle.sysreg.specs.Regs.{control_at, sys_at, reg_at, in_control, fresh_control, fresh_sys};
ghost use Rattle.sysreg.specs.Encoding.{encode, key_word, key_of, at_each, register_at};
ghost use Rattle.sysreg.specs.Shape.{t0sz, tg0, epd0, t1sz, a1, epd1, tg1, ips, «as», tbi0, tbi1, ps, tbi};
ghost use Rattle.sysreg.specs.Shape.{outside_shape, same_shape, asid_of, SameShape};
ghost use Rattle.sysreg.specs.Write.{kept, control_with, ended, wrote, write_reg};
ghost use Rattle.sysreg.specs.Cases.{control_registers, system_registers, keeps_fresh_shape, asids_under};
ghost use Rattle.sysreg.specs.declared.regs.Regime.{Regime};
ghost use Rattle.sysreg.specs.declared.regs.Regime.TheVariants.{El1};
ghost use Rattle.sysreg.specs.declared.regs.Control.{Control};
ghost use Rattle.sysreg.specs.declared.regs.SysRegs.{SysRegs};
ghost use Rattle.sysreg.specs.declared.regs.Register.{Register};
ghost use Rattle.sysreg.specs.declared.regs.Register.TheVariants.{Sctlr, Tcr, Ttbr0, Ttbr1, Hcr, Scr, Mair, Vbar, Elr};
ghost use Rattle.sysreg.specs.declared.regs.Register.TheVariants.{Spsr, Esr, Far, Vpidr, Vmpidr, Par};
ghost use Rattle.sysreg.specs.declared.write.WriteError.TheVariants.{Undefined, NoRegister};

// Where each field of TCR_ELx lies, of every word. It rules out a field that code and definition both read at a wrong
// place, as AS where TBI0 is, and PS of EL2 and EL3 where EL1 has IPS.
pub fn places_in_tcr()
    // in TCR_EL1, TCR_EL2 and TCR_EL3
    ensures t0sz_place { FieldAt t0sz 5 0 }
    ensures tg0_place { FieldAt tg0 15 14 }
    // in TCR_EL1
    ensures epd0_place { BitAt epd0 7 }
    ensures t1sz_place { FieldAt t1sz 21 16 }
    ensures a1_place { BitAt a1 22 }
    ensures epd1_place { BitAt epd1 23 }
    ensures tg1_place { FieldAt tg1 31 30 }
    ensures ips_place { FieldAt ips 34 32 }
    ensures as_place { BitAt «as» 36 }
    ensures tbi0_place { BitAt tbi0 37 }
    ensures tbi1_place { BitAt tbi1 38 }
    // in TCR_EL2 and TCR_EL3
    ensures ps_place { FieldAt ps 18 16 }
    ensures tbi_place { BitAt tbi 20 }
{}

// The keys as numbers, of EL1, EL2 and EL3 where a register has an instance at each. It rules out two registers whose
// encodings are exchanged in code and definition alike, as TCR_EL2's and TCR_EL3's.
pub fn keys_of_registers()
    ensures sctlr { map key_of (at_each Sctlr) ≡ (0xC080 ∷ 0xE080 ∷ 0xF080 ∷ []) }
    ensures tcr { map key_of (at_each Tcr) ≡ (0xC102 ∷ 0xE102 ∷ 0xF102 ∷ []) }
    ensures ttbr0 { map key_of (at_each Ttbr0) ≡ (0xC100 ∷ 0xE100 ∷ 0xF100 ∷ []) }
    ensures mair { map key_of (at_each Mair) ≡ (0xC510 ∷ 0xE510 ∷ 0xF510 ∷ []) }
    ensures vbar { map key_of (at_each Vbar) ≡ (0xC600 ∷ 0xE600 ∷ 0xF600 ∷ []) }
    ensures elr { map key_of (at_each Elr) ≡ (0xC201 ∷ 0xE201 ∷ 0xF201 ∷ []) }
    ensures spsr { map key_of (at_each Spsr) ≡ (0xC200 ∷ 0xE200 ∷ 0xF200 ∷ []) }
    ensures esr { map key_of (at_each Esr) ≡ (0xC290 ∷ 0xE290 ∷ 0xF290 ∷ []) }
    ensures far { map key_of (at_each Far) ≡ (0xC300 ∷ 0xE300 ∷ 0xF300 ∷ []) }
    ensures ttbr1_el1 { key_of Ttbr1 ≡ 0xC101 }
    ensures hcr_el2 { key_of Hcr ≡ 0xE088 }
    ensures scr_el3 { key_of Scr ≡ 0xF088 }
    ensures vpidr_el2 { key_of Vpidr ≡ 0xE000 }
    ensures vmpidr_el2 { key_of Vmpidr ≡ 0xE005 }
    ensures par_el1 { key_of Par ≡ 0xC3A0 }
{}

// Each register has an encoding of its own, which names it and nothing else, and the key of fields within their widths
// is their encoding. It rules out one encoding for two registers, and a key whose fields are cut to their widths or
// stand in another order.
pub fn encodings_of_registers()
    ensures key_names { (r : Register) → register_at (key_of r) ≡ Some r }
    ensures named_key { (k : ℕ) (r : Register) → register_at k ≡ Some r → k ≡ key_of r }
    ensures one_register { (q r : Register) → key_of q ≡ key_of r → q ≡ r }
    ensures wide_key { (k : ℕ) → 2 ^ 16 ≤ k → register_at k ≡ None }
    ensures key_in_range { (op0 op1 crn crm op2 : ℕ) → op0 < 4 → op1 < 8 → crn < 16 → crm < 16 → op2 < 8
        → key_word op0 op1 crn crm op2 ≡ encode op0 op1 crn crm op2 }
    ensures key_beyond { (key_word 4 0 0 0 0 ≡ 0x10000) × (key_word 0 8 0 0 0 ≡ 0x4000)
        × (key_word 0 0 0 16 0 ≡ 0x80) }
{}

// Settings of one shape agree in each control register that a translation reads, but TTBR0_EL1 and TTBR1_EL1. It rules
// out a shape that lacks a bit by which stage 1 is on or a tag is dropped, so that a hint would outlive its change. A
// write of a register outside the shape keeps it.
pub fn shape_of_translations()
    ensures agrees { (a b : Control) → same_shape a b ≡ true → SameShape a b }
    ensures kept_by_writes { (c : Control) (s : SysRegs) (level k v : ℕ)
        → outside_shape (register_at k) ≡ true → same_shape c (write_reg c s level k v).control ≡ true }
{}

// Which registers count in the shape: a write of another value changes it, but for TTBR0_EL1 and TTBR1_EL1, and a
// write of a system register leaves it. The rows say whether a write of 1 out of reset keeps it. It rules out a write
// of TTBR1_EL1 that empties the cache, and one of any other control register that does not.
pub fn shape_after_writes()
    ensures shaped { (a b : Control) → SameShape a b → same_shape a b ≡ true }
    ensures changed { (c : Control) (r : Register) (v : ℕ) → in_control r ≡ true → r ≢ Ttbr0 El1 → r ≢ Ttbr1
        → control_at c r ≢ v → same_shape c (control_with c r v) ≡ false }
    ensures ttbr0_el1 { (c : Control) (v : ℕ) → same_shape c (control_with c (Ttbr0 El1) v) ≡ true }
    ensures ttbr1_el1 { (c : Control) (v : ℕ) → same_shape c (control_with c Ttbr1 v) ≡ true }
    ensures system { (c : Control) (s : SysRegs) (level k v : ℕ) (r : Register)
        → register_at k ≡ Some r → in_control r ≡ false → same_shape c (write_reg c s level k v).control ≡ true }
    // SCTLR, TCR and TTBR0 of EL1, EL2 and EL3; TTBR1_EL1, SCR_EL3 and HCR_EL2
    ensures rows { map (keeps_fresh_shape 1) control_registers
        ≡ (false ∷ false ∷ false ∷ false ∷ false ∷ false ∷ true ∷ false ∷ false ∷ true ∷ false ∷ false ∷ []) }
{}

// The ASID: of TTBR1_EL1 where TCR_EL1.A1 (bit 22) is 1, and else of TTBR0_EL1; its bits 63:48 where TCR_EL1.AS
// (bit 36) is 1, and else 55:48. It rules out the ASID of the other register, and 8 bits from the top.
#[tactic(auto, unfolding(crate::specs::Shape::asid_of, crate::specs::Shape::asid_base))]
pub fn asids_of_settings()
    ensures upper_wide { (c : Control)
        → bit (control_at c (Tcr El1)) 22 ≡ true → bit (control_at c (Tcr El1)) 36 ≡ true
        → asid_of c ≡ bits (control_at c Ttbr1) 63 48 }
    ensures upper_narrow { (c : Control)
        → bit (control_at c (Tcr El1)) 22 ≡ true → bit (control_at c (Tcr El1)) 36 ≡ false
        → asid_of c ≡ bits (control_at c Ttbr1) 55 48 }
    ensures lower_wide { (c : Control)
        → bit (control_at c (Tcr El1)) 22 ≡ false → bit (control_at c (Tcr El1)) 36 ≡ true
        → asid_of c ≡ bits (control_at c (Ttbr0 El1)) 63 48 }
    ensures lower_narrow { (c : Control)
        → bit (control_at c (Tcr El1)) 22 ≡ false → bit (control_at c (Tcr El1)) 36 ≡ false
        → asid_of c ≡ bits (control_at c (Ttbr0 El1)) 55 48 }
    // neither, AS, A1, both
    ensures rows { map (λ tcr. asid_of (asids_under tcr)) (0 ∷ 0x10_0000_0000 ∷ 0x40_0000 ∷ 0x10_0040_0000 ∷ [])
        ≡ (0x22 ∷ 0x1122 ∷ 0x44 ∷ 0x3344 ∷ []) }
{}

// What a register keeps of a value, as a mask: the value's bits that are kept of all ones. VBAR drops bits 10:0,
// SPSR keeps NZCV, SS, IL, GE, DAIF and M, ESR and VPIDR_EL2 bits 31:0, every other all 64. It rules out a bit too many
// or too few.
pub fn bits_kept_by_registers()
    ensures masked { (r : Register) (v : ℕ) → v < 2 ^ 64 → kept r v ≡ bit_and v (kept r 0xFFFF_FFFF_FFFF_FFFF) }
    ensures control { (r : Register) (v : ℕ) → in_control r ≡ true → kept r v ≡ v }
    ensures vbar { (r : Regime) → kept (Vbar r) 0xFFFF_FFFF_FFFF_FFFF ≡ 0xFFFF_FFFF_FFFF_F800 }
    ensures spsr { (r : Regime) → kept (Spsr r) 0xFFFF_FFFF_FFFF_FFFF ≡ 0xF03F_03DF }
    ensures esr { (r : Regime) → kept (Esr r) 0xFFFF_FFFF_FFFF_FFFF ≡ 0xFFFF_FFFF }
    ensures vpidr_el2 { kept Vpidr 0xFFFF_FFFF_FFFF_FFFF ≡ 0xFFFF_FFFF }
    ensures mair { (r : Regime) → kept (Mair r) 0xFFFF_FFFF_FFFF_FFFF ≡ 0xFFFF_FFFF_FFFF_FFFF }
    ensures elr { (r : Regime) → kept (Elr r) 0xFFFF_FFFF_FFFF_FFFF ≡ 0xFFFF_FFFF_FFFF_FFFF }
    ensures far { (r : Regime) → kept (Far r) 0xFFFF_FFFF_FFFF_FFFF ≡ 0xFFFF_FFFF_FFFF_FFFF }
    ensures vmpidr_el2 { kept Vmpidr 0xFFFF_FFFF_FFFF_FFFF ≡ 0xFFFF_FFFF_FFFF_FFFF }
    ensures par_el1 { kept Par 0xFFFF_FFFF_FFFF_FFFF ≡ 0xFFFF_FFFF_FFFF_FFFF }
{}

// Every register out of reset. It rules out stage 1 that is on out of reset, and the identity of another core.
#[tactic(auto, unfolding(crate::specs::Regs::fresh_control, crate::specs::Regs::fresh_sys))]
pub fn values_of_reset()
    // SCTLR, TCR and TTBR0 of EL1, EL2 and EL3; TTBR1_EL1, SCR_EL3 and HCR_EL2
    ensures control { map (control_at fresh_control) control_registers
        ≡ (0x30D0_0800 ∷ 0x30C5_0830 ∷ 0x30C5_0830 ∷ 0 ∷ 0 ∷ 0 ∷ 0 ∷ 0 ∷ 0 ∷ 0 ∷ 0 ∷ 0 ∷ []) }
    // MAIR, VBAR, ELR, SPSR, ESR and FAR of EL1, EL2 and EL3; VPIDR_EL2, VMPIDR_EL2 and PAR_EL1
    ensures system { map (sys_at fresh_sys) system_registers
        ≡ (0 ∷ 0 ∷ 0 ∷ 0 ∷ 0 ∷ 0 ∷ 0 ∷ 0 ∷ 0 ∷ 0 ∷ 0 ∷ 0 ∷ 0 ∷ 0 ∷ 0 ∷ 0 ∷ 0 ∷ 0 ∷ 0x410F_D083 ∷ 0x8000_0000 ∷ 0 ∷ []) }
{}

// A register write at EL0 is Undefined, one of a key that names no register is answered so, and every other writes the
// register that it names, with the bits kept of the value, and no other.
pub fn effect_of_writes()
    ensures undefined_at_el0 { (c : Control) (s : SysRegs) (level k v : ℕ) (r : Register)
        → register_at k ≡ Some r → level ≡ 0 → write_reg c s level k v ≡ ended c s (Err Undefined) }
    ensures no_register { (c : Control) (s : SysRegs) (level k v : ℕ)
        → register_at k ≡ None → write_reg c s level k v ≡ ended c s (Err NoRegister) }
    ensures done { (c : Control) (s : SysRegs) (level k v : ℕ) (r : Register)
        → register_at k ≡ Some r → level ≢ 0 → write_reg c s level k v ≡ wrote c s r v }
    ensures control_keeps_system { (c : Control) (s : SysRegs) (level k v : ℕ) (r : Register)
        → register_at k ≡ Some r → in_control r ≡ true → (write_reg c s level k v).sys ≡ s }
    ensures system_keeps_control { (c : Control) (s : SysRegs) (level k v : ℕ) (r : Register)
        → register_at k ≡ Some r → in_control r ≡ false → (write_reg c s level k v).control ≡ c }
    ensures written { (c : Control) (s : SysRegs) (r : Register) (v : ℕ)
        → reg_at (wrote c s r v).control (wrote c s r v).sys r ≡ kept r v }
    ensures others { (c : Control) (s : SysRegs) (r : Register) (v : ℕ) (q : Register)
        → q ≢ r → reg_at (wrote c s r v).control (wrote c s r v).sys q ≡ reg_at c s q }
{}
