#![tactic(auto)]
//! A number of cycles shown as sample frames: a row for each rate, which names what its rest is counted in.
ghost use Rattle.std.specs.Prelude.{◌≡◌};
ghost use Rattle.frames.specs.Frames.{rate_of, parts_of, whole_of, rest_of};
ghost use Rattle.frames_report.specs.Rows.{rows_of};

use frames::Rate;
use json_text::Count;
use serde::Serialize;
use std::fmt;

// A number of things; of one thing the name has no s.
#[derive(Clone, Copy)]
struct Number {
    of: u64,
    thing: &'static str,
}

// The frames of a total at a rate.
#[derive(Clone, Copy, Serialize)]
struct Row {
    frames_a_second: u64,
    frames: Count,
    // what is left of the next frame, in these parts of a cycle: in cycles, 1, or in 147ths of one
    rest: u64,
    parts_of_a_cycle: u64,
}

/// A number of cycles, and its frames at one rate or both.
#[derive(Clone, Copy, Serialize)]
pub struct Total {
    cycles: Count,
    #[serde(serialize_with = json_text::present)]
    rates: [Option<Row>; 2],
}

impl Row {
    fn new(rate: Rate, cycles: u64) -> Self
        ensures rate { result.frames_a_second ≡ rate_of rate }
        ensures whole { result.frames.0 ≡ whole_of rate cycles }
        ensures rest { result.rest ≡ rest_of rate cycles }
        ensures parts { result.parts_of_a_cycle ≡ parts_of rate }
    {
        let frames = rate.frames(cycles);
        Row {
            frames_a_second: rate.frames_a_second(),
            frames: Count(frames.whole),
            rest: frames.rest,
            parts_of_a_cycle: rate.parts_of_a_cycle(),
        }
    }
}

impl Total {
    /// At the rate alone, or at both.
    pub fn new(cycles: u64, rate: Option<Rate>) -> Self
        ensures cycles { result.cycles.0 ≡ cycles }
        ensures rates { result.rates ≡ rows_of cycles rate }
    {
        let rates = match rate {
            Some(rate) => [Some(Row::new(rate, cycles)), None],
            None => [
                Some(Row::new(Rate::Hz48000, cycles)),
                Some(Row::new(Rate::Hz44100, cycles)),
            ],
        };
        Total {
            cycles: Count(cycles),
            rates,
        }
    }
}

impl fmt::Display for Number {
    fn fmt<W: fmt::Write>(&self, f: &mut fmt::Formatter<W>) -> fmt::Result {
        let plural = if self.of == 1 { "" } else { "s" };
        write!(f, "{} {}{plural}", self.of, self.thing)
    }
}

impl fmt::Display for Row {
    fn fmt<W: fmt::Write>(&self, f: &mut fmt::Formatter<W>) -> fmt::Result {
        let frames = Number {
            of: self.frames.0,
            thing: "frame",
        };
        write!(f, "  {} a second  {frames} and ", self.frames_a_second)?;
        match self.parts_of_a_cycle {
            1 => write!(
                f,
                "{}",
                Number {
                    of: self.rest,
                    thing: "cycle"
                }
            ),
            parts => write!(f, "{}/{parts} of a cycle", self.rest),
        }
    }
}

impl fmt::Display for Total {
    fn fmt<W: fmt::Write>(&self, f: &mut fmt::Formatter<W>) -> fmt::Result {
        writeln!(
            f,
            "{}",
            Number {
                of: self.cycles.0,
                thing: "cycle"
            }
        )?;
        for row in self.rates.iter().flatten() {
            writeln!(f, "{row}")?;
        }
        Ok(())
    }
}
