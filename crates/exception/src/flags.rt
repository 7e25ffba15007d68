// PSTATE but for the exception level.
ghost use Rattle.std.specs.Prelude.{◌≡◌};
ghost use Rattle.exception.specs.Pstate.{fresh_flags, spsr_of};

/// The flags, the interrupt masks and the stack pointer in use.
#[derive(Clone, Copy)]
pub struct Flags {
    /// `PSTATE.{N,Z,C,V}`, bits 31 to 28 (the `NZCV` register's layout).
    pub nzcv: u32,
    /// `PSTATE.{D,A,I,F}`, bits 9 to 6 (the `DAIF` register's layout).
    pub daif: u32,
    /// `PSTATE.SP`: `SP_ELx` is used rather than `SP_EL0`.
    pub spsel: bool,
}

/// D, A, I and F, all set.
pub const DAIF_ALL: u32 = 0xF << 6;

impl Flags {
    /// Out of reset: interrupts masked, `SP_ELx` used.
    pub fn new() -> Self
        ensures { result ≡ fresh_flags }
    {
        Flags {
            nzcv: 0,
            daif: DAIF_ALL,
            spsel: true,
        }
    }

    /// `PSTATE` in `SPSR` layout (AArch64): NZCV, DAIF, `M[3:0]` = EL:SP. Of the level two bits count.
    #[tactic(auto, using(crate::proofs::FieldLaws::psr_word))]
    pub fn pstate(self, level: u8) -> u64
        ensures { result ≡ spsr_of level self }
    {
        self.nzcv as u64 | self.daif as u64 | ((level & 3) as u64) << 2 | self.spsel as u64
    }
}
