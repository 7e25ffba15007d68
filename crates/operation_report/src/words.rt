//! What an operation did, in the manual's words: names of registers and system operations, faults, and what ESR, FAR,
//! PAR and MAIR hold after it.
use core_parts::read;
use cpu::Core;
use cpu::call::{Call, Reply};
use exception::kind::{Exception, Stop};
use json_text::{Hex, Shown};
use manual_words::memory::{self, Memory};
use manual_words::par::Par;
use manual_words::status::Status;
use manual_words::syndrome::Syndrome;
use manual_words::{operation, register};
use serde::{Described, Serialize, Serializer};
use std::{array, fmt};
use sysreg::encoding;
use sysreg::regs::{Regime, Register};
use system::decode::Encoding;
use trace_text::answer::Answer;
use trace_text::aside::Name;
use trace_text::line::Operation;

// A byte of MAIR.
#[derive(Clone, Copy, Serialize)]
struct Attribute {
    value: Hex,
    memory: Shown<Memory>,
}

// A register, and what it holds.
#[derive(Clone, Copy)]
struct Held {
    register: Register,
    value: u64,
}

// Where an exception went.
#[derive(Clone, Copy, Serialize)]
struct Taken {
    el: u8,
    pc: Hex,
}

/// What a call did and was answered. Shown, each part is a line.
#[derive(Clone, Copy, Serialize)]
pub struct Words {
    #[serde(skip_serializing_if = Option::is_none)]
    fault: Option<Shown<Status>>,
    #[serde(skip_serializing_if = Option::is_none)]
    name: Option<Shown<Name>>,
    #[serde(skip_serializing_if = Option::is_none)]
    taken: Option<Taken>,
    #[serde(serialize_with = json_text::present)]
    registers: [Option<Held>; 3],
}

impl Held {
    fn new(register: Register, value: u64) -> Self {
        Held { register, value }
    }

    // The bytes of a MAIR.
    fn attributes(&self) -> [Attribute; 8] {
        array::from_fn(|index| {
            let value = memory::attribute(self.value, (index % 8) as u8);
            Attribute {
                value: Hex(u64::from(value)),
                memory: Shown::new(Memory::new(value)),
            }
        })
    }
}

impl Described for Held {}

impl Serialize for Held {
    fn serialize<S: Serializer>(&self, out: &mut S) -> Result<(), S::Error> {
        out.begin_map(None)?;
        out.key("register")?;
        out.str(register::name(self.register))?;
        out.key("value")?;
        Hex(self.value).serialize(out)?;
        match self.register {
            Register::Esr(_) => {
                out.key("meaning")?;
                out.collect_str(&Syndrome(self.value))?;
            }
            Register::Par => {
                out.key("meaning")?;
                out.collect_str(&Par::new(self.value))?;
            }
            Register::Mair(_) => {
                out.key("attributes")?;
                self.attributes().serialize(out)?;
            }
            _ => {}
        }
        out.end_map()
    }
}

impl fmt::Display for Held {
    fn fmt<W: fmt::Write>(&self, f: &mut fmt::Formatter<W>) -> fmt::Result {
        let Held { register, value } = *self;
        write!(f, "    {} {value:016x}", register::name(register))?;
        match register {
            Register::Esr(_) => writeln!(f, ": {}", Syndrome(value)),
            Register::Par => writeln!(f, ": {}", Par::new(value)),
            Register::Mair(_) => {
                writeln!(f)?;
                for (index, attribute) in self.attributes().iter().enumerate() {
                    let Attribute { value, memory } = attribute;
                    writeln!(f, "      Attr{index} {:02x}: {}", value.0, memory.value)?;
                }
                Ok(())
            }
            _ => writeln!(f),
        }
    }
}

// The status of an answer that is a fault.
fn status(answer: Answer) -> Option<u8> {
    match answer {
        Answer::Page(page) => Some(page.fault.fsc),
        Answer::Reply(Reply::Fault { fault, .. }) => Some(fault.fsc),
        Answer::Reply(Reply::Stopped(Stop::Exception(e))) => match e {
            Exception::DataAbort(abort) => Some(abort.fault.fsc),
            Exception::InsnAbort(abort) => Some(abort.fault.fsc),
            _ => None,
        },
        _ => None,
    }
}

// What abort entry left at the level that it went to: FAR where the class of ESR is one of those that write it.
fn entered(core: &Core) -> [Option<Held>; 3] {
    let regime = Regime::of_level(core.privilege.level);
    let (sys, place) = (&core.sys, regime.index());
    let syndrome = sys.esr[place];
    let far = Held::new(Register::Far(regime), sys.far[place]);
    [
        Some(Held::new(Register::Esr(regime), syndrome)),
        Syndrome(syndrome).class().writes_far().then_some(far),
        Some(Held::new(Register::Elr(regime), sys.elr[place])),
    ]
}

// The register that a write names, after it.
fn written(core: &Core, key: u32) -> Option<Held> {
    let value = read::register_of(core, u64::from(key))?;
    Some(Held::new(encoding::named(key)?, value))
}

// PAR, where a system operation is an AT.
fn translated(core: &Core, encoding: &Encoding) -> Option<Held> {
    match operation::Operation::encoded_as(encoding) {
        Some(operation::Operation::At(_)) => Some(Held::new(Register::Par, core.sys.par_el1)),
        _ => None,
    }
}

impl Words {
    /// Of an operation and its answer, on the core after it.
    pub fn new(operation: &Operation, answer: Answer, core: &Core) -> Self {
        let mut words = Words {
            fault: None,
            name: None,
            taken: None,
            registers: [None; 3],
        };
        let Operation::Call(call) = operation else {
            return words;
        };
        words.fault = status(answer).map(|status| Shown::new(Status(status)));
        let Answer::Reply(reply) = answer else {
            return words;
        };
        if let Call::System(encoding) = call {
            words.name = Some(Shown::new(Name(*encoding)));
        }
        match (call, reply) {
            (Call::Register(key, _), Reply::Done) => words.registers[0] = written(core, *key),
            (Call::System(encoding), Reply::Done) => {
                words.registers[0] = translated(core, encoding);
            }
            (Call::Abort(_), Reply::Done) => {
                words.taken = Some(Taken {
                    el: core.privilege.level,
                    pc: Hex(core.pc),
                });
                words.registers = entered(core);
            }
            _ => {}
        }
        words
    }
}

impl fmt::Display for Words {
    fn fmt<W: fmt::Write>(&self, f: &mut fmt::Formatter<W>) -> fmt::Result {
        if let Some(fault) = &self.fault {
            writeln!(f, "    {}", fault.value)?;
        }
        if let Some(name) = &self.name {
            writeln!(f, "    {}", name.value)?;
        }
        if let Some(Taken { el, pc }) = self.taken {
            writeln!(f, "    taken to EL{el}, PC {:x}", pc.0)?;
        }
        for held in self.registers.iter().flatten() {
            write!(f, "{held}")?;
        }
        Ok(())
    }
}
