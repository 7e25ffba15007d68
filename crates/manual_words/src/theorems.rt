//! What holds of all words. Each function computes nothing: its contract is the theorem.
ghost use Rattle.std.specs.Prelude.{◌≡◌, Bool, true, false, ℕ, ◌+◌, ◌<◌, ◌^◌};
ghost use Rattle.std.specs.Prelude.{[], ◌∷◌, map, is_some, Some, None};
ghost use Rattle.exception.specs.Syndrome.{class_of, far_of};
ghost use Rattle.exception.specs.declared.kind.Exception.{Exception};
ghost use Rattle.exception.specs.declared.kind.{DataAbort.DataAbort, InsnAbort.InsnAbort};
ghost use Rattle.exception.specs.declared.kind.Exception.TheVariants as Exception;
ghost use Rattle.system.specs.Par.{abort, success};
ghost use Rattle.manual_words.specs.Encodings.{fields_of, tlbi_fields};
ghost use Rattle.manual_words.specs.Memory.{attribute_at, memory_of, shareability_of};
ghost use Rattle.manual_words.specs.Operations.{instruction_of, is_shareable, name_at, name_of, reaches, tlbi_at};
ghost use Rattle.manual_words.specs.Par.{par_of};
ghost use Rattle.manual_words.specs.Status.{cause_at, level_at};
ghost use Rattle.manual_words.specs.Syndrome.{class_at, far_told, immediate_in, reported, status_in, told_class};
ghost use Rattle.manual_words.specs.Syndrome.{write_in};
ghost use Rattle.manual_words.specs.declared.operation.Operation.{Operation};
ghost use Rattle.manual_words.specs.declared.operation.Tlbi.{Tlbi};
ghost use Rattle.manual_words.specs.declared.memory.Cacheability.TheVariants.{NonCacheable, Cacheable};
ghost use Rattle.manual_words.specs.declared.memory.Device.TheVariants.{NGnRnE, NGnRE, NGRE, GRE};
ghost use Rattle.manual_words.specs.declared.memory.Memory.TheVariants as Memory;
ghost use Rattle.manual_words.specs.declared.memory.Shareability.TheVariants as Shareability;
ghost use Rattle.manual_words.specs.declared.par.Par.TheVariants.{Fault, Address};
ghost use Rattle.manual_words.specs.declared.status.Cause.TheVariants as Cause;

use walk::fsc::{
    FSC_ACCESS_FLAG, FSC_ADDR_SIZE, FSC_EXTERNAL, FSC_PERMISSION, FSC_TRANSLATION,
    FSC_WALK_EXTERNAL,
};

/// The encoding of each operation is in the tables that decode it under its own name; that of each TLBI is of its own
/// instruction, and reaches the Inner Shareable domain where its name ends in IS.
#[tactic(auto, using(crate::proofs::Encodings::own_name, crate::proofs::Encodings::own_instruction, crate::proofs::Encodings::own_reach))]
pub fn encodings_of_names()
    ensures name { (o : Operation) → name_at (fields_of o) ≡ name_of o }
    ensures instruction { (t : Tlbi) → tlbi_at (tlbi_fields t) ≡ instruction_of t }
    ensures reach { (t : Tlbi) → reaches (tlbi_fields t) ≡ is_shareable t }
{}

/// The class that abort entry writes is told by the name of the exception that was taken, and that FAR is written.
#[tactic(auto, using(crate::proofs::Classes::told_by_name, crate::proofs::Classes::told_far))]
pub fn classes_of_exceptions()
    ensures class { (lower : Bool) (e : Exception) → class_at (class_of lower e) ≡ told_class lower e }
    ensures far { (lower : Bool) (pc : ℕ) (e : Exception) → far_told (told_class lower e) ≡ is_some (far_of pc e) }
{}

/// ESR_ELx as abort entry writes it: status, WnR and immediate are read where entry puts them.
#[tactic(auto, using(crate::proofs::Reports::data_status_read, crate::proofs::Reports::insn_status_read, crate::proofs::Reports::write_read, crate::proofs::Reports::svc_read, crate::proofs::Reports::hvc_read, crate::proofs::Reports::smc_read, crate::proofs::Reports::brk_read))]
pub fn syndromes_of_exceptions()
    ensures data { (lower : Bool) (a : DataAbort) → a.fault.fsc < 64
        → status_in (reported lower (Exception.DataAbort a)) ≡ a.fault.fsc }
    ensures instruction { (lower : Bool) (a : InsnAbort) → a.fault.fsc < 64
        → status_in (reported lower (Exception.InsnAbort a)) ≡ a.fault.fsc }
    ensures write { (lower : Bool) (a : DataAbort) → a.fault.fsc < 64
        → write_in (reported lower (Exception.DataAbort a)) ≡ a.write }
    ensures svc { (lower : Bool) (imm : ℕ) → imm < 2 ^ 16
        → immediate_in (reported lower (Exception.Svc imm)) ≡ imm }
    ensures hvc { (lower : Bool) (imm : ℕ) → imm < 2 ^ 16
        → immediate_in (reported lower (Exception.Hvc imm)) ≡ imm }
    ensures smc { (lower : Bool) (imm : ℕ) → imm < 2 ^ 16
        → immediate_in (reported lower (Exception.Smc imm)) ≡ imm }
    ensures brk { (lower : Bool) (imm : ℕ) → imm < 2 ^ 16
        → immediate_in (reported lower (Exception.Brk imm)) ≡ imm }
{}

/// The statuses that this core makes, each constant with each level; then those that have no level.
pub fn causes_of_statuses()
    ensures address_size { map (λ level. cause_at (FSC_ADDR_SIZE + level)) (0 ∷ 1 ∷ 2 ∷ 3 ∷ [])
        ≡ (Cause.AddressSize ∷ Cause.AddressSize ∷ Cause.AddressSize ∷ Cause.AddressSize ∷ []) }
    ensures translation { map (λ level. cause_at (FSC_TRANSLATION + level)) (0 ∷ 1 ∷ 2 ∷ 3 ∷ [])
        ≡ (Cause.Translation ∷ Cause.Translation ∷ Cause.Translation ∷ Cause.Translation ∷ []) }
    ensures access_flag { map (λ level. cause_at (FSC_ACCESS_FLAG + level)) (0 ∷ 1 ∷ 2 ∷ 3 ∷ [])
        ≡ (Cause.AccessFlag ∷ Cause.AccessFlag ∷ Cause.AccessFlag ∷ Cause.AccessFlag ∷ []) }
    ensures permission { map (λ level. cause_at (FSC_PERMISSION + level)) (0 ∷ 1 ∷ 2 ∷ 3 ∷ [])
        ≡ (Cause.Permission ∷ Cause.Permission ∷ Cause.Permission ∷ Cause.Permission ∷ []) }
    ensures on_walk { map (λ level. cause_at (FSC_WALK_EXTERNAL + level)) (0 ∷ 1 ∷ 2 ∷ 3 ∷ [])
        ≡ (Cause.ExternalOnWalk ∷ Cause.ExternalOnWalk ∷ Cause.ExternalOnWalk ∷ Cause.ExternalOnWalk ∷ []) }
    ensures levels { map level_at (0x00 ∷ 0x05 ∷ 0x0A ∷ 0x0F ∷ 0x17 ∷ [])
        ≡ (Some 0 ∷ Some 1 ∷ Some 2 ∷ Some 3 ∷ Some 3 ∷ []) }
    ensures external { cause_at FSC_EXTERNAL ≡ Cause.External }
    ensures no_level { map level_at (FSC_EXTERNAL ∷ 0x11 ∷ 0x13 ∷ 0x21 ∷ 0x30 ∷ [])
        ≡ (None ∷ None ∷ None ∷ None ∷ None ∷ []) }
    ensures reserved { map cause_at (0x11 ∷ 0x12 ∷ 0x13 ∷ [])
        ≡ (Cause.Other ∷ Cause.Other ∷ Cause.Other ∷ []) }
    ensures others { map cause_at (0x18 ∷ 0x21 ∷ 0x30 ∷ 0x3F ∷ [])
        ≡ (Cause.Other ∷ Cause.Other ∷ Cause.Other ∷ Cause.Other ∷ []) }
{}

/// PAR_EL1 as AT leaves it, computed of some: each field is read where AT puts it.
#[tactic(auto, unfolding(system::specs::Par::success, system::specs::Par::abort))]
pub fn worked_pars()
    ensures fault { par_of (abort 0b10_1010) ≡ Fault 0b10_1010 }
    ensures address { par_of (success 0xA5 0xF234_5678_9ABC true 0b10) ≡ Address 0xA5 0xF234_5678_9000 true 0b10 }
    ensures zeros { par_of (success 0 0 false 0) ≡ Address 0 0 false 0 }
{}

/// Attributes computed: Device memory of each kind, uncached, written back and through, transient and not, what is
/// UNPREDICTABLE; each SH; and the bytes of a MAIR_ELx by their index.
pub fn worked_attributes()
    ensures devices { map memory_of (0x00 ∷ 0x04 ∷ 0x08 ∷ 0x0C ∷ [])
        ≡ (Memory.Device NGnRnE ∷ Memory.Device NGnRE ∷ Memory.Device NGRE ∷ Memory.Device GRE ∷ []) }
    ensures uncached { memory_of 0x44 ≡ Memory.Normal NonCacheable NonCacheable }
    ensures written_back { memory_of 0xFF
        ≡ Memory.Normal (Cacheable true false true true) (Cacheable true false true true) }
    ensures written_through { memory_of 0xBB
        ≡ Memory.Normal (Cacheable false false true true) (Cacheable false false true true) }
    ensures transient_through { memory_of 0x33
        ≡ Memory.Normal (Cacheable false true true true) (Cacheable false true true true) }
    ensures transient_back { memory_of 0x77
        ≡ Memory.Normal (Cacheable true true true true) (Cacheable true true true true) }
    ensures apart { memory_of 0x4E ≡ Memory.Normal NonCacheable (Cacheable true false true false) }
    ensures allocating { memory_of 0x16
        ≡ Memory.Normal (Cacheable false true false true) (Cacheable true true true false) }
    ensures unpredictable { map memory_of (0x01 ∷ 0x40 ∷ [])
        ≡ (Memory.Unpredictable ∷ Memory.Unpredictable ∷ []) }
    ensures shareability { map shareability_of (0b00 ∷ 0b01 ∷ 0b10 ∷ 0b11 ∷ [])
        ≡ (Shareability.NonShareable ∷ Shareability.Reserved ∷ Shareability.OuterShareable
        ∷ Shareability.InnerShareable ∷ []) }
    ensures bytes { map (attribute_at 0x8877_6655_4433_2211) (0 ∷ 1 ∷ 2 ∷ 3 ∷ 4 ∷ 5 ∷ 6 ∷ 7 ∷ [])
        ≡ (0x11 ∷ 0x22 ∷ 0x33 ∷ 0x44 ∷ 0x55 ∷ 0x66 ∷ 0x77 ∷ 0x88 ∷ []) }
{}
