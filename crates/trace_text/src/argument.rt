//! The arguments of a line, each by its type.
use crate::reason::Reason;
use crate::{lex, names};
use manual_words::register;
use sysreg::regs::Regime;
use tlb::access::Kind;

/// What a word of a line is read as.
pub trait Argument {
    /// The argument that a word is, or why it is none.
    fn read(word: &[u8]) -> Result<Self, Reason>;
}

impl Argument for u64 {
    fn read(word: &[u8]) -> Result<u64, Reason> {
        lex::signed_value_of(word)
    }
}

impl Argument for u32 {
    fn read(word: &[u8]) -> Result<u32, Reason> {
        u32::try_from(u64::read(word)?).map_err(|_| Reason::Above32)
    }
}

impl Argument for u16 {
    fn read(word: &[u8]) -> Result<u16, Reason> {
        u16::try_from(u64::read(word)?).map_err(|_| Reason::Above16)
    }
}

impl Argument for u8 {
    fn read(word: &[u8]) -> Result<u8, Reason> {
        u8::try_from(u64::read(word)?).map_err(|_| Reason::Above8)
    }
}

impl Argument for bool {
    fn read(word: &[u8]) -> Result<bool, Reason> {
        match u64::read(word)? {
            0 => Ok(false),
            1 => Ok(true),
            _ => Err(Reason::NotFlag),
        }
    }
}

/// The access of an abort: 0 or `read`, 1 or `write`.
#[derive(Clone, Copy)]
pub struct Write(pub bool);

impl Argument for Write {
    fn read(word: &[u8]) -> Result<Write, Reason> {
        match names::kind(word) {
            Some(Kind::Read) => Ok(Write(false)),
            Some(Kind::Write) => Ok(Write(true)),
            _ if names::is_name(word) => Err(Reason::NotFlag),
            _ => Ok(Write(bool::read(word)?)),
        }
    }
}

impl Argument for Kind {
    fn read(word: &[u8]) -> Result<Kind, Reason> {
        match names::kind(word) {
            Some(kind) => Ok(kind),
            None if names::is_name(word) => Err(Reason::NotKind),
            None => Kind::try_from(u64::read(word)?).map_err(|_| Reason::NotKind),
        }
    }
}

/// For whom an address is translated: 0 or `privileged`, 1 or `user`.
#[derive(Clone, Copy)]
pub struct View {
    pub user: bool,
}

impl Argument for View {
    fn read(word: &[u8]) -> Result<View, Reason> {
        match names::is_user(word) {
            Some(user) => Ok(View { user }),
            None if names::is_name(word) => Err(Reason::NotView),
            None => match u64::read(word)? {
                0 => Ok(View { user: false }),
                1 => Ok(View { user: true }),
                _ => Err(Reason::NotView),
            },
        }
    }
}

/// The encoding of a register, as a number or by the register's name.
#[derive(Clone, Copy)]
pub struct Key(pub u32);

impl Argument for Key {
    fn read(word: &[u8]) -> Result<Key, Reason> {
        if let Some(register) = register::named(word) {
            return Ok(Key(register::key(register)));
        }
        match u32::read(word) {
            Ok(key) => Ok(Key(key)),
            Err(Reason::NotNumber) if names::is_name(word) => {
                Err(Reason::NoSuchRegister(register::nearest(word)))
            }
            Err(reason) => Err(reason),
        }
    }
}

/// The number of a general register: x0 to x30, xzr, or hexadecimal.
#[derive(Clone, Copy)]
pub struct General(pub u64);

impl Argument for General {
    fn read(word: &[u8]) -> Result<General, Reason> {
        if word.eq_ignore_ascii_case(b"xzr") {
            return Ok(General(31));
        }
        match word {
            [b'x' | b'X', unit @ b'0'..=b'9'] => Ok(General(u64::from(*unit - b'0'))),
            [b'x' | b'X', ten @ b'1'..=b'2', unit @ b'0'..=b'9'] => {
                Ok(General(u64::from(*ten - b'0') * 10 + u64::from(*unit - b'0')))
            }
            [b'x' | b'X', b'3', b'0'] => Ok(General(30)),
            [b'x' | b'X', ..] => Err(Reason::NotGeneral),
            _ => Ok(General(u64::from(u32::read(word)?))),
        }
    }
}

impl Argument for Regime {
    fn read(word: &[u8]) -> Result<Regime, Reason> {
        match names::regime(word) {
            Some(regime) => Ok(regime),
            None if names::is_name(word) => Err(Reason::NotRegime),
            None => Regime::try_from(u64::read(word)?).map_err(|_| Reason::NotRegime),
        }
    }
}
