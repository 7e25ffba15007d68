//! A line as eight words of a record: its code, its arguments, and zeros.
use crate::line::{Leaf, Line, Operation, Poke, Setup};
use call_words::op;
use call_words::op::{DecodedCall, DecodedException};
use sysreg::regs::Regime;

fn regime(word: u64) -> Option<Regime> {
    Regime::try_from(word).ok()
}

fn flag(word: u64) -> Option<bool> {
    (word < 2).then_some(word == 1)
}

fn leaf(op: &[u64; 8]) -> Option<Leaf> {
    let [code, a, b, c, d, e, f, g] = *op;
    Some(match code {
        20 => Leaf::Asid,
        21 => Leaf::Stage1On(regime(a)?),
        22 => Leaf::Untag(regime(a)?, b),
        23 => Leaf::Walk(regime(a)?, b),
        24 => Leaf::PaBits(a),
        25 => Leaf::Permissions(u8::try_from(a).ok()?),
        26 => Leaf::Bank(u32::try_from(a).ok()?),
        27 => Leaf::Vector {
            from: a,
            to: b,
            spsel: flag(c)?,
        },
        28 => match op::exception_of(d, e, f, g) {
            DecodedException::Known(exception) => Leaf::Syndrome {
                from: a,
                to: b,
                pc: c,
                exception,
            },
            DecodedException::Unknown => return None,
        },
        _ => return None,
    })
}

fn poke(code: u64, value: u64) -> Option<Poke> {
    Some(match code {
        40 => Poke::Level(value),
        41 => Poke::Pc(value),
        42 => Poke::Spsel(flag(value)?),
        43 => Poke::Generation(u32::try_from(value).ok()?),
        44 => Poke::Counters(value),
        45 => Poke::Broadcast,
        _ => return None,
    })
}

fn setup(code: u64, a: u64, b: u64) -> Option<Setup> {
    Some(match code {
        60 => Setup::Fresh,
        61 => Setup::Window {
            base: a,
            len: b as usize,
        },
        62 => Setup::Zero,
        63 => Setup::Write { addr: a, value: b },
        64 => Setup::Core(a),
        _ => return None,
    })
}

/// The line that eight words name. A record has no writes of the core's words.
pub fn line_of(op: &[u64; 8]) -> Option<Line> {
    match op[0] {
        0..20 => match op::call_of(op) {
            DecodedCall::Known(call) => Some(Line::Operation(Operation::Call(call))),
            DecodedCall::Unknown => None,
        },
        20..40 => Some(Line::Operation(Operation::Leaf(leaf(op)?))),
        code @ 40..60 => Some(Line::Operation(Operation::Poke(poke(code, op[1])?))),
        code => Some(Line::Setup(setup(code, op[1], op[2])?)),
    }
}
