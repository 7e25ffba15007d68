//! Fault statuses in words.
ghost use Rattle.std.specs.Prelude.{◌≡◌};
ghost use Rattle.manual_words.specs.Status.{cause_of, level_of};

use std::fmt;

/// What a fault status says, but for its level. `External` is the abort of an access and has none, as has `Other`: what
/// this core never reports, alignment among it, and what ARMv8.0 reserves.
#[derive(Clone, Copy)]
pub enum Cause {
    AddressSize,
    Translation,
    AccessFlag,
    Permission,
    External,
    ExternalOnWalk,
    Other,
}

/// A fault status, as DFSC and IFSC have it.
#[derive(Clone, Copy)]
pub struct Status(pub u8);

impl Status {
    pub fn cause(self) -> Cause
        ensures { result ≡ cause_of self }
    {
        match (self.0 / 4 % 16, self.0 % 4) {
            (0, _) => Cause::AddressSize,
            (1, _) => Cause::Translation,
            (2, _) => Cause::AccessFlag,
            (3, _) => Cause::Permission,
            (4, 0) => Cause::External,
            (5, _) => Cause::ExternalOnWalk,
            _ => Cause::Other,
        }
    }

    /// The level of the table that was read last, of a cause that has one.
    pub fn level(self) -> Option<u8>
        ensures { result ≡ level_of self }
    {
        match self.cause() {
            Cause::External | Cause::Other => None,
            _ => Some(self.0 % 4),
        }
    }
}

impl fmt::Display for Status {
    fn fmt<W: fmt::Write>(&self, f: &mut fmt::Formatter<W>) -> fmt::Result {
        f.write_str(match self.cause() {
            Cause::AddressSize => "address size fault",
            Cause::Translation => "translation fault",
            Cause::AccessFlag => "access flag fault",
            Cause::Permission => "permission fault",
            Cause::External => "external abort",
            Cause::ExternalOnWalk => "external abort on a table walk",
            Cause::Other => "another fault",
        })?;
        match self.level() {
            Some(level) => write!(f, ", level {level}"),
            None => Ok(()),
        }
    }
}
