#![tactic(auto)]
//! JSON as the tool writes it: addresses and words of bits as text in hexadecimal, counts as numbers that a reader's
//! floats hold, and what has words as those words. What the text of each is, is left to tests.
use serde::{Described, Serialize, Serializer};
use std::alloc::{AllocError, Global};
use std::fmt::Display;
use std::io::Write;
use std::{fmt, io};

// A float of 64 bits holds each count below this.
const EXACT: u64 = 1 << 53;

/// A word of bits: an address, a descriptor, a register. It is text, as `0x1f`.
#[derive(Clone, Copy, PartialEq, Eq)]
pub struct Hex(pub u64);

/// A count: a number, or its decimal digits as text where it is 2^53 or more.
#[derive(Clone, Copy, PartialEq, Eq)]
pub struct Count(pub u64);

/// What is printed of a value, as text.
#[derive(Clone, Copy)]
pub struct Shown<T> {
    pub value: T,
}

impl<T> Shown<T> {
    pub fn new(value: T) -> Self {
        Shown { value }
    }
}

impl fmt::Display for Hex {
    fn fmt<W: fmt::Write>(&self, f: &mut fmt::Formatter<W>) -> fmt::Result {
        write!(f, "0x{:x}", self.0)
    }
}

impl Described for Hex {}

impl Serialize for Hex {
    fn serialize<S: Serializer>(&self, out: &mut S) -> Result<(), S::Error> {
        out.collect_str(self)
    }
}

impl Described for Count {}

impl Serialize for Count {
    fn serialize<S: Serializer>(&self, out: &mut S) -> Result<(), S::Error> {
        if self.0 < EXACT {
            out.u64(self.0)
        } else {
            out.collect_str(&self.0)
        }
    }
}

impl<T> Described for Shown<T> {}

impl<T: Display> Serialize for Shown<T> {
    fn serialize<S: Serializer>(&self, out: &mut S) -> Result<(), S::Error> {
        out.collect_str(&self.value)
    }
}

/// A list of those that are there.
pub fn present<T: Serialize, S: Serializer>(
    items: &[Option<T>],
    out: &mut S,
) -> Result<(), S::Error> {
    out.begin_seq(None)?;
    for item in items.iter().flatten() {
        item.serialize(out)?;
    }
    out.end_seq()
}

/// Writes a value on a line of its own.
pub fn line<W: Write, T: Serialize>(out: &mut W, alloc: Global, value: &T) -> io::Result<()> {
    match serde_json::to_string(alloc, value) {
        Ok(text) => writeln!(out, "{text}"),
        // no value of the tool is of a shape that JSON lacks
        Err(_) => Err(io::Error::from(AllocError)),
    }
}
