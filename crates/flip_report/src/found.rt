//! What is found, told.
ghost use Rattle.std.specs.Prelude.{◌≡◌};
ghost use Rattle.flip_report.specs.Found.{IsFound, unchanged_of};

use flip::{FlippedBit, Question};
use json_text::Hex;
use serde::Serialize;
use std::fmt;
use walk_report::answer::Told;
use walk_report::fields::KindBit;
use walk_report::levels::Steps;
use word::ram;

/// The bit whose flip changes the answer, or why there is none.
#[derive(Clone, Copy, Serialize)]
#[serde(tag = "kind", rename_all = "snake_case")]
pub enum Found {
    Bit {
        #[serde(skip_serializing_if = Option::is_none)]
        level: Option<u64>,
        at: Hex,
        bit: u8,
        #[serde(skip_serializing_if = Option::is_none)]
        field: Option<KindBit>,
        becomes: Told,
    },
    /// the first descriptor is read, and no bit of RAM counts
    NoBit,
    /// the first descriptor lies outside RAM
    OutsideRam {
        at: Hex,
    },
    /// no descriptor is read
    NoDescriptor,
}

// Where no bit changes the answer: whether a descriptor is read, and from RAM.
#[tactic(auto, using(crate::proofs::Unchanged::first_visit))]
fn unchanged(question: &Question, base: u64, ram: &[u8]) -> Found
    ensures { result ≡ unchanged_of question.now base ram.now }
{
    let Question {
        bank,
        regime,
        va,
        ..
    } = *question;
    if !bank.stage1_on(regime) {
        return Found::NoDescriptor;
    }
    match bank.visit(regime, bank.untag(regime, va), base, ram, 0) {
        None => Found::NoDescriptor,
        Some(first) if ram::inside(base, ram.len() as u64, 8, first.at) => Found::NoBit,
        Some(first) => Found::OutsideRam { at: Hex(first.at) },
    }
}

impl Found {
    /// A bit whose flip changes the answer to a question, or none, told: with the level at which the walk reads its
    /// descriptor, and what the answer becomes.
    pub fn new(
        question: &Question,
        base: u64,
        ram: &mut [u8],
        walk: Option<&Steps>,
        flip: Option<FlippedBit>,
    ) -> Self
        ensures found { IsFound question.now base ram.old flip result }
        ensures ram { ram.new ≡ ram.old }
    {
        match flip {
            Some(flip) => Found::Bit {
                level: walk.and_then(|steps| steps.level_at(flip.pa)),
                at: Hex(flip.pa),
                bit: flip.bit,
                field: KindBit::at(flip.bit),
                becomes: Told::from(question.answer_with(base, ram, flip)),
            },
            None => unchanged(question, base, ram),
        }
    }
}

/// What is found, beside the answer that RAM gives as it is.
#[derive(Clone, Copy)]
pub struct Beside {
    pub found: Found,
    pub answer: Told,
}

impl fmt::Display for Beside {
    fn fmt<W: fmt::Write>(&self, f: &mut fmt::Formatter<W>) -> fmt::Result {
        match self.found {
            Found::Bit {
                level,
                at,
                bit,
                field,
                becomes,
            } => {
                if let Some(level) = level {
                    write!(f, "level {level}, ")?;
                }
                write!(f, "descriptor at {:x}, bit {bit}", at.0)?;
                if let Some(field) = field {
                    write!(f, " ({field})")?;
                }
                writeln!(f, ": {} becomes {becomes}", self.answer)
            }
            Found::NoBit => writeln!(f, "no single bit of RAM changes this answer"),
            Found::OutsideRam { at } => {
                write!(f, "no single bit of RAM changes this answer: ")?;
                writeln!(f, "the descriptor at {:x} lies outside RAM", at.0)
            }
            Found::NoDescriptor => {
                write!(f, "no single bit of RAM changes this answer: ")?;
                writeln!(f, "no descriptor is read")
            }
        }
    }
}
