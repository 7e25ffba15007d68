// How pages end, and the letter of it in the map.
use manual_words::status::{Cause, Status};
use std::fmt;

/// How a page ends.
#[derive(Clone, Copy)]
pub enum End {
    Fault(Status),
    /// With a permission byte: EL0's rights are bits 0 to 2, the regime's own 3 to 5, each to read, write and execute.
    Allowed(u8),
    /// With stage 1 off.
    Flat,
}

impl End {
    /// What a place of a census counts: 0 to 63 statuses, 64 to 127 permissions, 128 flat.
    pub fn of_place(place: usize) -> Self {
        match place {
            0..=63 => End::Fault(Status(place as u8)),
            64..=127 => End::Allowed((place - 64) as u8),
            _ => End::Flat,
        }
    }
}

/// What the pages of a cell have in common.
#[derive(Clone, Copy, PartialEq, Eq)]
pub enum Letter {
    Translation,
    AddressSize,
    AccessFlag,
    External,
    OtherFault,
    Flat,
    NoRight,
    Readable,
    ReadableByEl0,
    Executable,
    ExecutableByEl0,
    Writable,
    WritableByEl0,
    WritableAndExecutable,
    Several,
}

/// How a letter is shown: itself, what it means, its colour in a picture (red, green, blue), and of a terminal's 256.
#[derive(Clone, Copy)]
pub struct Look {
    pub sign: char,
    pub meaning: &'static str,
    pub picture: u32,
    pub terminal: u8,
}

impl Letter {
    /// All of them, as a legend has them.
    pub const ALL: [Letter; 15] = [
        Letter::Translation,
        Letter::AddressSize,
        Letter::AccessFlag,
        Letter::External,
        Letter::OtherFault,
        Letter::Flat,
        Letter::NoRight,
        Letter::Readable,
        Letter::ReadableByEl0,
        Letter::Executable,
        Letter::ExecutableByEl0,
        Letter::Writable,
        Letter::WritableByEl0,
        Letter::WritableAndExecutable,
        Letter::Several,
    ];

    /// How it is shown.
    pub fn look(self) -> Look {
        let (sign, meaning, picture, terminal) = match self {
            Letter::Translation => ('.', "translation fault", 0xE4E4E4, 252),
            Letter::AddressSize => ('s', "address size fault", 0x8C564B, 137),
            Letter::AccessFlag => ('a', "access flag fault", 0xE6AB02, 178),
            Letter::External => ('!', "external abort on a table walk", 0x984EA3, 141),
            Letter::OtherFault => ('?', "another fault", 0x666666, 246),
            Letter::Flat => ('=', "flat, stage 1 is off", 0xC6DBEF, 117),
            Letter::NoRight => ('-', "no right", 0x999999, 250),
            Letter::Readable => ('r', "read only", 0xA6CEE3, 153),
            Letter::ReadableByEl0 => ('R', "read only, by EL0 too", 0x1F78B4, 75),
            Letter::Executable => ('x', "executable", 0xFDBF6F, 222),
            Letter::ExecutableByEl0 => ('X', "executable by EL0", 0xFF7F00, 214),
            Letter::Writable => ('w', "writable", 0xB2DF8A, 157),
            Letter::WritableByEl0 => ('W', "writable by EL0 too", 0x33A02C, 113),
            Letter::WritableAndExecutable => ('#', "WRITABLE AND EXECUTABLE", 0xE31A1C, 203),
            Letter::Several => ('+', "several of these", 0xCAB2D6, 183),
        };
        Look {
            sign,
            meaning,
            picture,
            terminal,
        }
    }

    // The strongest right that a level has: to write, to execute, to read.
    fn of_rights(perms: u8) -> Self {
        let any = perms | perms >> 3;
        let by_el0 = |right: u8, own: Letter, too: Letter| if perms & right == 0 {
            own
        } else {
            too
        };
        if any & 6 == 6 {
            Letter::WritableAndExecutable
        } else if any & 2 != 0 {
            by_el0(2, Letter::Writable, Letter::WritableByEl0)
        } else if any & 4 != 0 {
            by_el0(4, Letter::Executable, Letter::ExecutableByEl0)
        } else if any & 1 != 0 {
            by_el0(1, Letter::Readable, Letter::ReadableByEl0)
        } else {
            Letter::NoRight
        }
    }

    /// What the pages that a census counted have in common; nothing where it has none.
    pub fn of_counts(counts: &[u64; 129]) -> Option<Self> {
        counts
            .iter()
            .enumerate()
            .filter(|(_, count)| **count != 0)
            .map(|(place, _)| Letter::from(End::of_place(place)))
            .reduce(|all, other| if all == other { all } else { Letter::Several })
    }
}

impl From<End> for Letter {
    fn from(end: End) -> Self {
        match end {
            End::Fault(status) => match status.cause() {
                Cause::Translation => Letter::Translation,
                Cause::AddressSize => Letter::AddressSize,
                Cause::AccessFlag => Letter::AccessFlag,
                Cause::External | Cause::ExternalOnWalk => Letter::External,
                Cause::Permission | Cause::Other => Letter::OtherFault,
            },
            End::Allowed(perms) => Letter::of_rights(perms),
            End::Flat => Letter::Flat,
        }
    }
}

impl fmt::Display for Letter {
    fn fmt<W: fmt::Write>(&self, f: &mut fmt::Formatter<W>) -> fmt::Result {
        write!(f, "{}", self.look().sign)
    }
}
