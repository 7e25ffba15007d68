//! The name that a line's numbers stand for, which stands behind them.
use crate::line::{Line, Operation};
use cpu::call::Call;
use manual_words::{operation, register};
use std::fmt;
use sysreg::encoding;
use system::decode::Encoding;

/// A system operation by its name and its register.
#[derive(Clone, Copy)]
pub struct Name(pub Encoding);

impl fmt::Display for Name {
    fn fmt<W: fmt::Write>(&self, f: &mut fmt::Formatter<W>) -> fmt::Result {
        match operation::Operation::encoded_as(&self.0) {
            Some(operation) if operation.has_operand() => match self.0.rt {
                31 => write!(f, "{operation} xzr"),
                rt => write!(f, "{operation} x{rt}"),
            },
            Some(operation) => write!(f, "{operation}"),
            None => f.write_str("no operation by name"),
        }
    }
}

/// The name that a line's numbers stand for, in brackets behind it; nothing where they stand for none.
#[derive(Clone, Copy)]
pub struct Aside<'a>(pub &'a Line);

impl fmt::Display for Aside<'_> {
    fn fmt<W: fmt::Write>(&self, f: &mut fmt::Formatter<W>) -> fmt::Result {
        match self.0 {
            Line::Operation(Operation::Call(Call::Register(key, _))) => {
                match encoding::named(*key) {
                    Some(named) => write!(f, " ({})", register::name(named)),
                    None => Ok(()),
                }
            }
            Line::Operation(Operation::Call(Call::System(encoding))) => {
                write!(f, " ({})", Name(*encoding))
            }
            _ => Ok(()),
        }
    }
}
