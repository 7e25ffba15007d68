//! Operations in the oracle's text form, and the other lines.
use crate::line::{Leaf, Line, Load, Operation, Part, Poke, Setup};
use cpu::call::Call;
use exception::kind::Exception;
use std::fmt;

// A line's name, then its words, each in hexadecimal.
fn line<W: fmt::Write>(f: &mut fmt::Formatter<W>, name: &str, words: &[u64]) -> fmt::Result {
    f.write_str(name)?;
    for word in words {
        write!(f, " {word:x}")?;
    }
    Ok(())
}

fn exception<W: fmt::Write>(f: &mut fmt::Formatter<W>, e: Exception) -> fmt::Result {
    match e {
        Exception::Undefined => f.write_str("und"),
        Exception::Svc(imm) => line(f, "svc", &[u64::from(imm)]),
        Exception::Hvc(imm) => line(f, "hvc", &[u64::from(imm)]),
        Exception::Smc(imm) => line(f, "smc", &[u64::from(imm)]),
        Exception::Brk(imm) => line(f, "brk", &[u64::from(imm)]),
        Exception::DataAbort(a) => {
            let fsc = u64::from(a.fault.fsc);
            line(f, "data", &[a.addr, u64::from(a.write), fsc])
        }
        Exception::InsnAbort(a) => line(f, "insn", &[a.addr, u64::from(a.fault.fsc)]),
        Exception::PcAlignment => f.write_str("pca"),
    }
}

fn call<W: fmt::Write>(f: &mut fmt::Formatter<W>, call: Call) -> fmt::Result {
    match call {
        Call::Translate(kind, va) => line(f, "tr", &[u64::from(kind), va]),
        Call::DataPa(va) => line(f, "dpa", &[va]),
        Call::FetchPa(va) => line(f, "fpa", &[va]),
        Call::Load(va, size) => line(f, "ld", &[va, size]),
        Call::Store(va, size, value) => line(f, "st", &[va, size, value]),
        Call::Fetch(va) => line(f, "if", &[va]),
        Call::System(at) => line(f, "sys", &[at.op1, at.crn, at.crm, at.op2, at.rt]),
        Call::Register(key, value) => line(f, "reg", &[u64::from(key), value]),
        Call::Level(level) => line(f, "level", &[level]),
        Call::Mark(on) => line(f, "mark", &[u64::from(on)]),
        Call::General(number, value) => line(f, "x", &[number, value]),
        Call::Abort(e) => {
            f.write_str("abort ")?;
            exception(f, e)
        }
        Call::Census(first, pages) => line(f, "census", &[first, pages]),
        Call::Windows => f.write_str("win"),
        Call::Flip(kind, user, va) => line(f, "flip", &[u64::from(kind), u64::from(user), va]),
    }
}

fn leaf<W: fmt::Write>(f: &mut fmt::Formatter<W>, leaf: Leaf) -> fmt::Result {
    match leaf {
        Leaf::Asid => f.write_str("l-asid"),
        Leaf::Stage1On(regime) => line(f, "l-on", &[u64::from(regime)]),
        Leaf::Untag(regime, va) => line(f, "l-untag", &[u64::from(regime), va]),
        Leaf::Walk(regime, va) => line(f, "l-walk", &[u64::from(regime), va]),
        Leaf::PaBits(size) => line(f, "l-bits", &[size]),
        Leaf::Permissions(bits) => line(f, "l-perm", &[u64::from(bits)]),
        Leaf::Bank(key) => line(f, "l-bank", &[u64::from(key)]),
        Leaf::Vector { from, to, spsel } => line(f, "l-vec", &[from, to, u64::from(spsel)]),
        Leaf::Syndrome {
            from,
            to,
            pc,
            exception: e,
        } => {
            line(f, "l-syn", &[from, to, pc])?;
            f.write_str(" ")?;
            exception(f, e)
        }
    }
}

fn poke<W: fmt::Write>(f: &mut fmt::Formatter<W>, poke: Poke) -> fmt::Result {
    match poke {
        Poke::Level(level) => line(f, "p-level", &[level]),
        Poke::Pc(pc) => line(f, "p-pc", &[pc]),
        Poke::Spsel(on) => line(f, "p-spsel", &[u64::from(on)]),
        Poke::Generation(generation) => line(f, "p-gen", &[u64::from(generation)]),
        Poke::Counters(value) => line(f, "p-cnt", &[value]),
        Poke::Broadcast => f.write_str("p-bc"),
    }
}

impl fmt::Display for Operation {
    fn fmt<W: fmt::Write>(&self, f: &mut fmt::Formatter<W>) -> fmt::Result {
        match *self {
            Operation::Call(c) => call(f, c),
            Operation::Leaf(l) => leaf(f, l),
            Operation::Poke(p) => poke(f, p),
        }
    }
}

fn part<W: fmt::Write>(f: &mut fmt::Formatter<W>, part: Part) -> fmt::Result {
    match part {
        Part::Word { place, value } => line(f, "w-word", &[u64::from(place), value]),
        Part::Hint { slot, key, pa } => line(f, "w-hint", &[u64::from(slot), key, pa]),
        Part::Entry {
            slot,
            tag,
            generation,
            bits,
            pa,
        } => line(f, "w-entry", &[u64::from(slot), tag, generation, bits, pa]),
        Part::FetchHint { page, level, pa } => line(f, "w-fetch", &[page, u64::from(level), pa]),
    }
}

impl fmt::Display for Setup {
    fn fmt<W: fmt::Write>(&self, f: &mut fmt::Formatter<W>) -> fmt::Result {
        match *self {
            Setup::Fresh => f.write_str("fresh"),
            Setup::Core(number) => line(f, "core", &[number]),
            Setup::Window { base, len } => line(f, "window", &[base, len as u64]),
            Setup::Zero => f.write_str("zero"),
            Setup::Write { addr, value } => line(f, "poke", &[addr, value]),
            Setup::Part(p) => part(f, p),
        }
    }
}

impl fmt::Display for Line {
    fn fmt<W: fmt::Write>(&self, f: &mut fmt::Formatter<W>) -> fmt::Result {
        match *self {
            Line::Operation(operation) => write!(f, "{operation}"),
            Line::Setup(setup) => write!(f, "{setup}"),
            Line::Load(Load { addr, .. }) => line(f, "load at", &[addr]),
            Line::Bytes(_) => f.write_str("bytes"),
        }
    }
}
