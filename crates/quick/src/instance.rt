// What is fixed for one instance of a function: the width of its bytes, or the kind of its access. Each instance is a
// function of its own, so that no choice is left on its way, and none of its six words is spent on one.
ghost use Rattle.word.specs.declared.ram.Width.{Width};
ghost use Rattle.word.specs.declared.ram.Width.TheVariants as Widths;
ghost use Rattle.tlb.specs.declared.access.Kind.{Kind};
ghost use Rattle.tlb.specs.declared.access.Kind.TheVariants as Kinds;

use tlb::access::Kind;
use word::ram::Width;

/// What a load or store moves.
pub trait Datum {
    const WIDTH: Width;

    ghost WIDTH: { Width };
}

impl Datum for u8 {
    const WIDTH: Width = Width::Byte;

    ghost WIDTH = { Widths.Byte };
}

impl Datum for u16 {
    const WIDTH: Width = Width::Half;

    ghost WIDTH = { Widths.Half };
}

impl Datum for u32 {
    const WIDTH: Width = Width::Word;

    ghost WIDTH = { Widths.Word };
}

impl Datum for u64 {
    const WIDTH: Width = Width::Double;

    ghost WIDTH = { Widths.Double };
}

/// What an address is translated for.
pub trait Purpose {
    const KIND: Kind;

    ghost KIND: { Kind };
}

pub struct Reading;

pub struct Writing;

pub struct Fetching;

impl Purpose for Reading {
    const KIND: Kind = Kind::Read;

    ghost KIND = { Kinds.Read };
}

impl Purpose for Writing {
    const KIND: Kind = Kind::Write;

    ghost KIND = { Kinds.Write };
}

impl Purpose for Fetching {
    const KIND: Kind = Kind::Fetch;

    ghost KIND = { Kinds.Fetch };
}
