// What holds of every exception entry. Each function computes nothing: its contract is the theorem.
ghost use Rattle.std.specs.Prelude.{◌≡◌, ℕ, ◌+◌, ◌%◌, ◌^◌, ◌<◌, ◌≤◌, Bool, true, false, Some};
ghost use Rattle.word.specs.Bits.{flag, wrap};
ghost use Rattle.word.specs.Places.{bit};
ghost use Rattle.sysreg.specs.Regs.{sys_at};
ghost use Rattle.sysreg.specs.declared.regs.Register.{Register};
ghost use Rattle.sysreg.specs.declared.regs.SysRegs.{SysRegs};
ghost use Rattle.fault.specs.First.{first};
ghost use Rattle.exception.specs.Pstate.{daif_all, flags, fresh_flags, psr, OwnBits, spsr_of};
ghost use Rattle.exception.specs.Abort.{data_abort_at};
ghost use Rattle.exception.specs.Syndrome.{esr_of, data_status, syndrome_of};
ghost use Rattle.exception.specs.Route.{ns, smd, hce, tsc, tge};
ghost use Rattle.exception.specs.Entry.{entry_flags, vect_offset, register_after, of_entry, take_sync, EachEntry};
ghost use Rattle.exception.specs.Cases.{WorkedEntries, WorkedDepartures, WorkedInterrupts, Targets, Reports, Vectors};
ghost use Rattle.exception.specs.Cases.{Masked, Saved};
ghost use Rattle.exception.specs.declared.kind.Exception.{Exception};
ghost use Rattle.exception.specs.declared.flags.Flags.{Flags};
ghost use Rattle.exception.specs.declared.route.Origin.{Origin};

// Which registers a synchronous exception changes, and to which level it goes: SPSR, ELR, ESR and FAR of its target
// as the entry has them, every other register as it was, and never down. It rules out an entry that writes the
// registers of the level that it comes from.
pub fn effect_of_entry()
    ensures each_register { EachEntry (λ target esr far spsr ret before after. (q : Register)
        → sys_at after q ≡ register_after target (Some esr) far spsr ret q (sys_at before q)) }
    ensures other_registers { EachEntry (λ target esr far spsr ret before after. (q : Register)
        → of_entry target q ≡ false → sys_at after q ≡ sys_at before q) }
    ensures target_level { (level pc scr hcr : ℕ) (f : Flags) (s : SysRegs) (e : Exception)
        → (1 ≤ (take_sync level f pc scr hcr s e).level) × ((take_sync level f pc scr hcr s e).level ≤ 3) }
    ensures never_down { (level pc scr hcr : ℕ) (f : Flags) (s : SysRegs) (e : Exception)
        → level ≤ 3 → level ≤ (take_sync level f pc scr hcr s e).level }
{}

// Which bits of SCR_EL3 and HCR_EL2 route an exception. It rules out that another bit, or a bit of another register,
// counts.
pub fn places_in_controls()
    ensures ns_place { (o : Origin) → ns o ≡ bit o.scr_el3 0 }
    ensures smd_place { (o : Origin) → smd o ≡ bit o.scr_el3 7 }
    ensures hce_place { (o : Origin) → hce o ≡ bit o.scr_el3 8 }
    ensures tsc_place { (o : Origin) → tsc o ≡ bit o.hcr_el2 19 }
    ensures tge_place { (o : Origin) → tge o ≡ bit o.hcr_el2 27 }
{}

// Where SPSR_ELx and ESR_ELx hold each field, computed: N, Z, C, V<31:28>, D, A, I, F<9:6>, EL<3:2> and SP<0>;
// EC<31:26> beside IL, and ISS<24:0>; of a data abort WnR<6> and DFSC<5:0>. It rules out a field that code and
// definition both write at a wrong place.
pub fn places_in_reports()
    ensures daif { daif_all ≡ 0x3C0 }
    ensures nzcv_place { psr 0 (flags 0xFFFF_FFFF 0 false) ≡ 0xF000_0000 }
    ensures daif_place { psr 0 (flags 0 0xFFFF_FFFF false) ≡ 0x3C0 }
    ensures el_place { psr 3 (flags 0 0 false) ≡ 0xC }
    ensures sp_place { psr 0 (flags 0 0 true) ≡ 0x1 }
    ensures ec_place { esr_of 0x3F 0 ≡ 0xFE00_0000 }
    ensures iss_place { esr_of 0 0x1FF_FFFF ≡ 0x3FF_FFFF }
    ensures wnr_place { data_status true 0 ≡ 0x40 }
    ensures dfsc_place { data_status false 0x3F ≡ 0x3F }
{}

// Entries of each kind, the recorded departures and two interrupts, computed: the level, the PC, ESR, FAR, ELR and
// SPSR after each. It rules out an SVC that returns to itself, the vector of the other stack pointer, FAR of another
// address.
pub fn worked_entries()
    ensures case_13 { (syndrome_of (data_abort_at 0x40001234 true (first 0x0D)) 0 1 0x8000).0 ≡ 0x9200004D }
    ensures entries { WorkedEntries }
    ensures departures { WorkedDepartures }
    ensures interrupts { WorkedInterrupts }
{}

/// PSTATE out of reset, computed: its fields, and the word that SPSR_EL3 has of it. It rules out an interrupt that is
/// not masked out of reset, and SP_EL0 in use.
#[tactic(auto, unfolding(crate::specs::Pstate::spsr_of))]
pub fn pstate_of_reset()
    ensures nzcv { fresh_flags.nzcv ≡ 0 }
    ensures daif { fresh_flags.daif ≡ 0x3C0 }
    ensures sp { fresh_flags.spsel ≡ true }
    ensures saved { spsr_of 3 fresh_flags ≡ 0x3CD }
{}

// The level that each kind of exception is taken to, computed: HCR_EL2.TGE takes each that is usual from Non-secure EL0
// to EL2, and an HVC or SMC that is UNDEFINED; from Secure EL0, EL1 and above it takes none. It rules out a BRK that
// ignores TGE, and TSC that traps SMC at Secure EL1.
pub fn targets_of_exceptions()
    ensures targets { Targets }
{}

// What each kind reports from a lower level and from its own, the vector of each kind of entry, and PSTATE before and
// after it, in numbers. It rules out an immediate that loses bits, one class for both levels, the vector of another
// level, and an entry that leaves an interrupt unmasked or SP_EL0 in use.
pub fn tables_of_entries()
    ensures reports { (pc addr : ℕ) → Reports pc addr }
    ensures vectors { Vectors }
    ensures pstate { Masked }
    ensures saved { Saved }
{}

// Where PSTATE and VBAR hold what the manual lets them hold and a status has six bits, SPSR, ESR and the vector are the
// manual's sums of fields. PSTATE holds no more than that after reset and after an entry.
pub fn fields_of_entry()
    ensures spsr { (level : ℕ) (f : Flags) → OwnBits f → spsr_of level f ≡ psr level f }
    ensures after_reset { OwnBits fresh_flags }
    ensures after_entry { (f : Flags) → OwnBits f → OwnBits (entry_flags f) }
    ensures status { (write : Bool) (fsc : ℕ) → fsc < 2 ^ 6 → data_status write fsc ≡ flag write (2 ^ 6) + fsc }
    ensures vector { (vbar from to : ℕ) (sp : Bool) → vbar < 2 ^ 64 → vbar % 2 ^ 11 ≡ 0
        → wrap (vbar + vect_offset from to sp) ≡ vbar + vect_offset from to sp }
{}
