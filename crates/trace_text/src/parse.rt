//! What a line of a trace means: a line, nothing, or the place and the reason of a refusal.
use crate::argument::{Argument, General, Key, View, Write};
use crate::lex::{Word, Words};
use crate::line::{
    Digits, LONGEST_BYTES, LONGEST_WINDOW, Leaf, Line, Load, Operation, Part, Poke, Setup,
};
use crate::names::ExceptionName;
use crate::reason::{Reason, Refusal};
use crate::{lex, names};
use cpu::call::Call;
use exception::kind::{DataAbort, Exception, InsnAbort};
use manual_words::operation::Group;
use system::decode::Encoding;

// The words of a line that are not read yet, and the column of its end.
#[derive(Drop)]
struct Reader<'a> {
    words: Words<'a>,
    end: usize,
}

impl<'a> Reader<'a> {
    fn word(&mut self) -> Result<Word<'a>, Refusal> {
        self.words.next_word().ok_or(Refusal {
            column: self.end,
            reason: Reason::Missing,
        })
    }

    // The next argument, as its type asks for it.
    fn next<T: Argument>(&mut self) -> Result<T, Refusal> {
        let word = self.word()?;
        T::read(word.text).map_err(|reason| word.refused(reason))
    }

    // A word of an operation that has 32 bits in a trace.
    fn wide(&mut self) -> Result<u64, Refusal> {
        Ok(u64::from(self.next::<u32>()?))
    }

    fn exception(&mut self) -> Result<Exception, Refusal> {
        let word = self.word()?;
        let Some(name) = names::exception(word.text) else {
            return Err(word.refused(Reason::NoSuchException));
        };
        Ok(match name {
            ExceptionName::Undefined => Exception::Undefined,
            ExceptionName::Svc => Exception::Svc(self.next()?),
            ExceptionName::Hvc => Exception::Hvc(self.next()?),
            ExceptionName::Smc => Exception::Smc(self.next()?),
            ExceptionName::Brk => Exception::Brk(self.next()?),
            ExceptionName::DataAbort => Exception::DataAbort(DataAbort {
                addr: self.next()?,
                write: self.next::<Write>()?.0,
                fault: fault::first(self.next()?),
            }),
            ExceptionName::InsnAbort => Exception::InsnAbort(InsnAbort {
                addr: self.next()?,
                fault: fault::first(self.next()?),
            }),
            ExceptionName::PcAlignment => Exception::PcAlignment,
        })
    }

    fn encoding(&mut self) -> Result<Encoding, Refusal> {
        Ok(Encoding {
            op1: self.wide()?,
            crn: self.wide()?,
            crm: self.wide()?,
            op2: self.wide()?,
            rt: self.wide()?,
        })
    }

    // AT, DC, IC or TLBI: the operation's name, which a comma may end, and the register that some take.
    fn maintenance(&mut self, group: Group) -> Result<Call, Refusal> {
        let word = self.word()?;
        let name = word.text.strip_suffix(b",").unwrap_or(word.text);
        let Some(operation) = group.operation(name) else {
            return Err(word.refused(Reason::NoSuchOperation(group.nearest(name))));
        };
        let rt = if operation.has_operand() {
            self.next::<General>()?.0
        } else {
            31
        };
        Ok(Call::System(operation.encoding(rt)))
    }

    fn call(&mut self, name: Word<'_>) -> Result<Call, Refusal> {
        Ok(match name.text {
            b"tr" => Call::Translate(self.next()?, self.next()?),
            b"dpa" => Call::DataPa(self.next()?),
            b"fpa" => Call::FetchPa(self.next()?),
            b"ld" => Call::Load(self.next()?, self.wide()?),
            b"st" => Call::Store(self.next()?, self.wide()?, self.next()?),
            b"if" => Call::Fetch(self.next()?),
            b"sys" => Call::System(self.encoding()?),
            b"reg" => Call::Register(self.next::<Key>()?.0, self.next()?),
            b"level" => Call::Level(self.wide()?),
            b"mark" => Call::Mark(self.next()?),
            b"x" => Call::General(self.next::<General>()?.0, self.next()?),
            b"abort" => Call::Abort(self.exception()?),
            b"census" => Call::Census(self.next()?, self.next()?),
            b"win" => Call::Windows,
            b"flip" => Call::Flip(self.next()?, self.next::<View>()?.user, self.next()?),
            _ => match Group::named(name.text) {
                Some(group) => self.maintenance(group)?,
                None => return Err(name.refused(names::no_such_line(name.text))),
            },
        })
    }

    fn leaf(&mut self, name: Word<'_>) -> Result<Leaf, Refusal> {
        Ok(match name.text {
            b"l-asid" => Leaf::Asid,
            b"l-on" => Leaf::Stage1On(self.next()?),
            b"l-untag" => Leaf::Untag(self.next()?, self.next()?),
            b"l-walk" => Leaf::Walk(self.next()?, self.next()?),
            b"l-bits" => Leaf::PaBits(self.next()?),
            b"l-perm" => Leaf::Permissions(self.next()?),
            b"l-bank" => Leaf::Bank(self.next::<Key>()?.0),
            b"l-vec" => Leaf::Vector {
                from: self.wide()?,
                to: self.wide()?,
                spsel: self.next()?,
            },
            b"l-syn" => Leaf::Syndrome {
                from: self.wide()?,
                to: self.wide()?,
                pc: self.next()?,
                exception: self.exception()?,
            },
            _ => return Err(name.refused(names::no_such_line(name.text))),
        })
    }

    fn poke(&mut self, name: Word<'_>) -> Result<Poke, Refusal> {
        Ok(match name.text {
            b"p-level" => Poke::Level(self.wide()?),
            b"p-pc" => Poke::Pc(self.next()?),
            b"p-spsel" => Poke::Spsel(self.next()?),
            b"p-gen" => Poke::Generation(self.next()?),
            b"p-cnt" => Poke::Counters(self.next()?),
            b"p-bc" => Poke::Broadcast,
            _ => return Err(name.refused(names::no_such_line(name.text))),
        })
    }

    fn part(&mut self, name: Word<'_>) -> Result<Part, Refusal> {
        Ok(match name.text {
            b"w-word" => Part::Word {
                place: self.next()?,
                value: self.next()?,
            },
            b"w-hint" => Part::Hint {
                slot: self.next()?,
                key: self.next()?,
                pa: self.next()?,
            },
            b"w-entry" => Part::Entry {
                slot: self.next()?,
                tag: self.next()?,
                generation: self.next()?,
                bits: self.next()?,
                pa: self.next()?,
            },
            b"w-fetch" => Part::FetchHint {
                page: self.next()?,
                level: self.next()?,
                pa: self.next()?,
            },
            _ => return Err(name.refused(names::no_such_line(name.text))),
        })
    }

    // The length of a window, in bytes.
    fn length(&mut self) -> Result<usize, Refusal> {
        let word = self.word()?;
        match u64::read(word.text) {
            Ok(len) if len <= LONGEST_WINDOW as u64 => Ok(len as usize),
            Ok(_) => Err(word.refused(Reason::LongWindow)),
            Err(reason) => Err(word.refused(reason)),
        }
    }

    // The path of a file.
    fn load(&mut self) -> Result<Load, Refusal> {
        let Word { column, text } = self.word()?;
        let start = column.wrapping_sub(1);
        Ok(Load {
            start,
            end: start.wrapping_add(text.len()),
            addr: self.next()?,
        })
    }

    // The digits of a list's bytes.
    fn digits(&mut self) -> Result<Digits, Refusal> {
        let word = self.word()?;
        let len = word.text.len();
        if let Some(k) = word.text.iter().position(|b| !b.is_ascii_hexdigit()) {
            let column = word.column.wrapping_add(k);
            return Err(Refusal {
                column,
                reason: Reason::NotDigit,
            });
        }
        if len % 2 != 0 {
            return Err(word.refused(Reason::OddDigits));
        }
        if LONGEST_BYTES < len / 2 {
            return Err(word.refused(Reason::ManyBytes));
        }
        let start = word.column.wrapping_sub(1);
        Ok(Digits {
            start,
            end: start.wrapping_add(len),
        })
    }

    // The line that begins with this word.
    fn line(&mut self, name: Word<'_>) -> Result<Line, Refusal> {
        Ok(match name.text {
            b"fresh" => Line::Setup(Setup::Fresh),
            b"core" => Line::Setup(Setup::Core(self.next()?)),
            b"window" => Line::Setup(Setup::Window {
                base: self.next()?,
                len: self.length()?,
            }),
            b"zero" => Line::Setup(Setup::Zero),
            b"load" => Line::Load(self.load()?),
            b"bytes" => Line::Bytes(self.digits()?),
            b"poke" => Line::Setup(Setup::Write {
                addr: self.next()?,
                value: self.next()?,
            }),
            [b'w', b'-', ..] => Line::Setup(Setup::Part(self.part(name)?)),
            [b'l', b'-', ..] => Line::Operation(Operation::Leaf(self.leaf(name)?)),
            [b'p', b'-', ..] => Line::Operation(Operation::Poke(self.poke(name)?)),
            _ => Line::Operation(Operation::Call(self.call(name)?)),
        })
    }
}

/// The line that stands in some bytes, without their end; nothing where they are empty or a comment alone.
pub fn parse(bytes: &[u8]) -> Result<Option<Line>, Refusal> {
    if bytes.starts_with(b"\xEF\xBB\xBF") {
        return Err(Refusal {
            column: 1,
            reason: Reason::ByteOrderMark,
        });
    }
    let text = lex::before_comment(bytes);
    if let Some(k) = text.iter().position(|b| !lex::is_held(*b)) {
        return Err(Refusal {
            column: k.wrapping_add(1),
            reason: Reason::NotAscii,
        });
    }
    let mut reader = Reader {
        words: Words::new(text),
        end: bytes.len().wrapping_add(1),
    };
    let Some(name) = reader.words.next_word() else {
        return Ok(None);
    };
    let line = reader.line(name)?;
    match reader.words.next_word() {
        Some(word) => Err(word.refused(Reason::Surplus)),
        None => Ok(Some(line)),
    }
}
