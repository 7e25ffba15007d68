//! Leaves: functions of the registers as they stand, which change nothing.
use cpu::Core;
use cpu::call::Reply;
use exception::enter;
use exception::kind::Exception;
use sysreg::encoding;
use sysreg::regs::{Regime, Register};
use trace_text::answer::Answer;
use trace_text::line::Leaf;
use walk::regime::Bank;
use walk::{range, rights};

fn value(value: u64) -> Answer {
    Answer::Reply(Reply::Value(value))
}

fn walk_of(bank: Bank, r: Regime, va: u64, base: u64, ram: &[u8]) -> Answer {
    match bank.walk(r, va, base, ram).end {
        Ok(leaf) => Answer::Leaf(leaf),
        Err(status) => {
            let fault = fault::first(status);
            Answer::Reply(Reply::Fault { addr: va, fault })
        }
    }
}

// A register's number, and its level.
fn numbered(number: u64, r: Regime) -> Answer {
    Answer::Pair(number, u64::from(r))
}

// PAR_EL1 is no banked register.
fn bank(key: u32) -> Answer {
    match encoding::banked(key) {
        Some(Register::Sctlr(r)) => numbered(0, r),
        Some(Register::Tcr(r)) => numbered(1, r),
        Some(Register::Ttbr0(r)) => numbered(2, r),
        Some(Register::Ttbr1) => Answer::Pair(3, 1),
        Some(Register::Mair(r)) => numbered(4, r),
        Some(Register::Vbar(r)) => numbered(5, r),
        Some(Register::Elr(r)) => numbered(6, r),
        Some(Register::Spsr(r)) => numbered(7, r),
        Some(Register::Esr(r)) => numbered(8, r),
        Some(Register::Far(r)) => numbered(9, r),
        Some(Register::Scr) => Answer::Pair(10, 3),
        Some(Register::Hcr) => Answer::Pair(11, 2),
        Some(Register::Vpidr) => Answer::Pair(12, 2),
        Some(Register::Vmpidr) => Answer::Pair(13, 2),
        Some(Register::Par) | None => Answer::Reply(Reply::Faults),
    }
}

// The group depends on whether the two levels are one.
fn vector(from: u64, to: u64, spsel: bool) -> Answer {
    let below = if from == to { 1 } else { 0 };
    value(enter::vector_group(below, 1, spsel))
}

fn syndrome(from: u64, to: u64, pc: u64, e: Exception) -> Answer {
    let below = if from < to { 0 } else { 1 };
    match e.syndrome(below, 1, pc) {
        (esr, Some(far)) => Answer::Pair(esr, far),
        (esr, None) => value(esr),
    }
}

/// What a leaf answers. That no register or address is found is `Faults`.
pub fn answer(core: &Core, leaf: Leaf, base: u64, ram: &[u8]) -> Answer {
    let control = &core.control;
    match leaf {
        Leaf::Asid => value(u64::from(control.asid())),
        Leaf::Stage1On(r) => value(u64::from(Bank::new(control, r).stage1_on(r))),
        Leaf::Untag(r, va) => value(Bank::new(control, r).untag(r, va)),
        Leaf::Walk(r, va) => walk_of(Bank::new(control, r), r, va, base, ram),
        Leaf::PaBits(code) => value(range::pa_bits(code)),
        Leaf::Permissions(bits) => {
            let perms = rights::perm_bits(bits & 1 != 0, bits & 2 != 0, bits & 4 != 0);
            value(u64::from(perms))
        }
        Leaf::Bank(key) => bank(key),
        Leaf::Vector { from, to, spsel } => vector(from, to, spsel),
        Leaf::Syndrome {
            from,
            to,
            pc,
            exception,
        } => syndrome(from, to, pc, exception),
    }
}
