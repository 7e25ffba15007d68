// An access: what it wants, who makes it, what it needs, and its answer.
ghost use Rattle.std.specs.Prelude.{◌≡◌, ◌≤◌};
ghost use Rattle.walk.specs.Regime.{untagged};
ghost use Rattle.tlb.specs.Access.{kind_at, kind_number, may_hint, tag_of, user_of, right_of, flat_answer, judged};

use crate::entry::Entry;
use crate::hint;
use fault::Fault;
use sysreg::regs::Regime;
use walk::flat::flat_of;
use walk::fsc::{FSC_ADDR_SIZE, FSC_PERMISSION};
use walk::regime::Bank;
use walk::rights::PRIV;

/// What an access wants.
#[derive(Clone, Copy, PartialEq, Eq)]
pub enum Kind {
    Read = 1,
    Write = 2,
    Fetch = 4,
}

/// A number other than 1, 2 and 4, which name a kind of access.
#[derive(Clone, Copy, Debug)]
pub struct NoSuchKind(pub u64);

impl TryFrom<u64> for Kind {
    type Error = NoSuchKind;

    ghost try_from_gives = { λ number kind. kind ≡ kind_at number };

    fn try_from(number: u64) -> Result<Kind, NoSuchKind> {
        match number {
            1 => Ok(Kind::Read),
            2 => Ok(Kind::Write),
            4 => Ok(Kind::Fetch),
            _ => Err(NoSuchKind(number)),
        }
    }
}

impl From<Kind> for u64 {
    ghost from_gives = { λ kind number. number ≡ kind_number kind };

    fn from(kind: Kind) -> u64 {
        kind as u64
    }
}

/// The exception level, and whether loads and stores count as EL0's.
#[derive(Clone, Copy)]
pub struct Privilege {
    pub level: u8,
    pub unprivileged: bool,
}

/// Who asks for what, and the registers of the level's regime.
#[derive(Clone, Copy)]
pub struct Request {
    pub bank: Bank,
    pub privilege: Privilege,
    pub va: u64,
    pub kind: Kind,
}

/// The tag of the page of an untagged address.
pub fn tag_of(regime: Regime, va: u64) -> u64
    ensures { result ≡ tag_of regime va }
{
    let number = match regime {
        Regime::El1 => 1,
        Regime::El2 => 2,
        Regime::El3 => 3,
    };
    (va >> 12) << 2 | number
}

/// The answer to `va` with stage 1 off: the address without its tag, or an address size fault of level 0. One that is
/// small as it stands has no tag to drop.
#[tactic(auto, using(crate::proofs::Cells::flat_raw))]
pub fn flat(bank: &Bank, regime: Regime, va: u64) -> Result<u64, Fault>
    ensures { result ≡ flat_answer (untagged bank.now.tcr regime va) }
{
    if let Some(pa) = flat_of(va) {
        return Ok(pa);
    }
    bank.flat(regime, va).ok_or(fault::first(FSC_ADDR_SIZE))
}

impl Privilege {
    /// Whether a data hint may serve the access.
    pub fn may_hint(self, kind: Kind) -> bool
        ensures { result ≡ may_hint self kind }
    {
        kind != Kind::Fetch && !self.unprivileged
    }

    /// Whether the access is judged by EL0's rights: in the EL1&0 regime EL0's own, and data accesses that count as
    /// EL0's.
    pub fn is_user(self, regime: Regime, kind: Kind) -> bool
        ensures { result ≡ user_of regime self kind }
    {
        regime == Regime::El1 && (self.level == 0 || (self.unprivileged && kind != Kind::Fetch))
    }
}

/// The bit among an entry's rights that the access needs.
pub fn right_of(kind: Kind, user: bool) -> u32
    ensures value { result ≡ right_of kind user }
    ensures upper_bound { result ≤ 5 }
{
    (kind as u32 >> 1) + if user { 0 } else { PRIV }
}

impl Entry {
    /// Where va lies on the entry's page, or a permission fault of the entry's level.
    #[tactic(auto, unfolding(crate::specs::Access::judged))]
    pub fn judge(&self, user: bool, kind: Kind, va: u64) -> Result<u64, Fault>
        ensures { result ≡ judged self.now user kind va }
    {
        if self.perms >> right_of(kind, user) & 1 == 0 {
            return Err(fault::first(FSC_PERMISSION | self.level));
        }
        Ok(hint::on_page(self.pa, va))
    }
}
