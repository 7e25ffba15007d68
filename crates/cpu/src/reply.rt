// Each operation's answer as a reply.
ghost use Rattle.std.specs.Prelude.{◌≡◌};
ghost use Rattle.cpu.specs.Check.{number_of, translation, reaching, loading, storing, fetching, registering, refuses};
ghost use Rattle.cpu.specs.declared.call.Reply.TheVariants.{Refused};

use crate::call::Reply;
use crate::check::Check;
use exception::kind::{Exception, Stop};
use fault::Fault;
use sysreg::write::WriteError;

impl Reply {
    /// Of a translation of va: a fault is reported at va.
    pub fn translated(va: u64, answer: Result<u64, Fault>) -> Reply
        ensures { result ≡ translation va answer }
    {
        match answer {
            Ok(pa) => Reply::Value(pa),
            Err(fault) => Reply::Fault { addr: va, fault },
        }
    }

    /// Of `data_pa` and `fetch_pa`.
    pub fn reached(answer: Option<u64>) -> Reply
        ensures { result ≡ reaching answer }
    {
        match answer {
            Some(pa) => Reply::Value(pa),
            None => Reply::Faults,
        }
    }

    /// Whether the call was refused, by a check or as Undefined or Unimplemented: then it changed nothing.
    pub fn refuses(self) -> bool
        ensures { result ≡ refuses self }
    {
        matches!(
            self,
            Reply::Refused(_)
                | Reply::Stopped(Stop::Unimplemented)
                | Reply::Stopped(Stop::Exception(Exception::Undefined))
        )
    }
}

/// Of a call that misses a check.
impl From<Check> for Reply {
    fn from(check: Check) -> Reply
        ensures { result ≡ Refused (number_of check) }
    {
        Reply::Refused(check.number())
    }
}

/// Of a load.
impl From<Result<u64, Stop>> for Reply {
    fn from(answer: Result<u64, Stop>) -> Reply
        ensures { result ≡ loading answer }
    {
        match answer {
            Ok(v) => Reply::Value(v),
            Err(stop) => Reply::Stopped(stop),
        }
    }
}

/// Of a store or a system operation.
impl From<Result<(), Stop>> for Reply {
    fn from(answer: Result<(), Stop>) -> Reply
        ensures { result ≡ storing answer }
    {
        match answer {
            Ok(()) => Reply::Done,
            Err(stop) => Reply::Stopped(stop),
        }
    }
}

/// Of a fetch.
impl From<Result<u32, Exception>> for Reply {
    fn from(answer: Result<u32, Exception>) -> Reply
        ensures { result ≡ fetching answer }
    {
        match answer {
            Ok(v) => Reply::Value(u64::from(v)),
            Err(exception) => Reply::Stopped(Stop::Exception(exception)),
        }
    }
}

/// Of a register write: a key that names no register is check 6.
impl From<Result<(), WriteError>> for Reply {
    fn from(answer: Result<(), WriteError>) -> Reply
        ensures { result ≡ registering answer }
    {
        match answer {
            Ok(()) => Reply::Done,
            Err(WriteError::Undefined) => Reply::Stopped(Stop::Exception(Exception::Undefined)),
            Err(WriteError::NoRegister) => Reply::from(Check::Key),
        }
    }
}
