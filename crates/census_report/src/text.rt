// A census as values, and as text: the counts, the largest first, then the map, and what its letters mean.
use crate::grid::Scale;
use crate::letter::{End, Letter};
use crate::report::Census;
use json_text::{Count, Hex, Shown};
use serde::Serialize;
use std::alloc::{AllocError, Global};
use std::cmp::Reverse;
use std::io::Write;
use std::{fmt, io};
use sysreg::regs::Regime;
use walk_report::explain;
use walk_report::fields::{Faulted, Rights};

// Rights, by their byte and by level.
#[derive(Clone, Copy, Serialize)]
struct Allowed {
    permissions: Hex,
    rights: Rights,
}

// With stage 1 off.
#[derive(Clone, Copy, Serialize)]
struct Flat {
    flat: bool,
}

// How pages end.
#[derive(Clone, Copy, Serialize)]
#[serde(untagged)]
enum Ended {
    Faulted(Faulted),
    Allowed(Allowed),
    Flat(Flat),
}

// The pages that end alike, and their share in whole percents, rounded down.
#[derive(Clone, Copy, Serialize)]
struct Row {
    letter: Shown<Letter>,
    end: Ended,
    pages: u64,
    percent: u64,
}

// Cells of a map; those past the range have no letter.
#[derive(Clone, Copy)]
struct Cells([Option<Letter>; 64]);

// Rows of the map that are the same.
#[derive(Clone, Copy, Serialize)]
struct Stripe {
    va: Hex,
    rows: usize,
    cells: Shown<Cells>,
}

// A letter that occurs, and what it means.
#[derive(Clone, Copy, Serialize)]
struct Key {
    letter: Shown<Letter>,
    meaning: &'static str,
}

/// A census by its facts: how its pages end, the largest count first, then the map and its legend.
#[derive(Drop, Serialize)]
pub struct Facts {
    va: Hex,
    pages: u64,
    el: u8,
    regime: &'static str,
    ends: Vec<Row>,
    // of the map
    pages_of_a_cell: u64,
    map: Vec<Stripe>,
    legend: Vec<Key>,
}

impl Ended {
    fn new(end: End, regime: Regime) -> Self {
        match end {
            End::Fault(status) => Ended::Faulted(Faulted::new(status.0)),
            End::Allowed(perms) => Ended::Allowed(Allowed {
                permissions: Hex(u64::from(perms)),
                rights: Rights { regime, perms },
            }),
            End::Flat => Ended::Flat(Flat { flat: true }),
        }
    }
}

impl fmt::Display for Ended {
    fn fmt<W: fmt::Write>(&self, f: &mut fmt::Formatter<W>) -> fmt::Result {
        match self {
            Ended::Faulted(fault) => write!(f, "{fault}"),
            Ended::Allowed(
                Allowed {
                    permissions,
                    rights,
                },
            ) => { write!(f, "{rights}   permissions {:02x}", permissions.0) }
            Ended::Flat(_) => f.write_str("flat, stage 1 is off"),
        }
    }
}

impl fmt::Display for Cells {
    fn fmt<W: fmt::Write>(&self, f: &mut fmt::Formatter<W>) -> fmt::Result {
        for letter in self.0.iter().flatten() {
            write!(f, "{letter}")?;
        }
        Ok(())
    }
}

// A row for each count that is not 0.
fn ends(alloc: Global, census: &Census, regime: Regime) -> Result<Vec<Row>, AllocError> {
    let all = census.grid.pages.max(1);
    let mut rows: Vec<Row> = Vec::new(alloc);
    for (place, count) in census.counts.iter().enumerate() {
        if *count != 0 {
            let end = End::of_place(place);
            rows.push(Row {
                letter: Shown::new(Letter::from(end)),
                end: Ended::new(end, regime),
                pages: *count,
                percent: count.saturating_mul(100) / all,
            })?;
        }
    }
    rows.sort_by_key(|row| Reverse(row.pages))?;
    Ok(rows)
}

// The rows of 64 cells; those that repeat are one stripe.
fn stripes(alloc: Global, census: &Census) -> Result<Vec<Stripe>, AllocError> {
    let mut stripes: Vec<Stripe> = Vec::new(alloc);
    let mut va = census.grid.start;
    for rows in census.map.chunk_by(|row, next| row == next) {
        if let Some(first) = rows.first()
            && first[0].is_some()
        {
            stripes.push(Stripe {
                va: Hex(va),
                rows: rows.len(),
                cells: Shown::new(Cells(*first)),
            })?;
        }
        let bytes = census.grid.row_bytes().wrapping_mul(rows.len() as u64);
        va = va.wrapping_add(bytes);
    }
    Ok(stripes)
}

// The letters of the map.
fn legend(alloc: Global, census: &Census) -> Result<Vec<Key>, AllocError> {
    let mut keys: Vec<Key> = Vec::new(alloc);
    for letter in Letter::ALL {
        if census.cells(letter) != 0 {
            let meaning = letter.look().meaning;
            keys.push(Key {
                letter: Shown::new(letter),
                meaning,
            })?;
        }
    }
    Ok(keys)
}

impl Facts {
    pub fn new(alloc: Global, census: &Census) -> Result<Self, AllocError> {
        let regime = Regime::of_level(census.level);
        Ok(Facts {
            va: Hex(census.grid.start),
            pages: census.grid.pages,
            el: census.level,
            regime: explain::regime_name(regime),
            ends: ends(alloc, census, regime)?,
            pages_of_a_cell: census.grid.per,
            map: stripes(alloc, census)?,
            legend: legend(alloc, census)?,
        })
    }
}

// How pages end, in words, in a column of its own.
fn table<W: Write>(out: &mut W, alloc: Global, facts: &Facts) -> io::Result<()> {
    for row in &facts.ends {
        let text = format!(in alloc; "{}", row.end)?;
        write!(out, "  {}  {text:<40}{:>7}", row.letter.value, row.pages)?;
        match row.percent {
            0 => writeln!(out, "    <1%")?,
            share => writeln!(out, "{share:>6}%")?,
        }
    }
    writeln!(out, "     in all{:>41}", facts.pages)
}

// The cells of a row; with colour, each run of equal ones has its own.
fn cells_of_row<W: Write>(out: &mut W, cells: &Cells, colour: bool) -> io::Result<()> {
    if !colour {
        return writeln!(out, "{cells}");
    }
    write!(out, "\x1b[30m")?;
    for run in cells.0.chunk_by(|cell, next| cell == next) {
        if let Some(Some(letter)) = run.first() {
            write!(out, "\x1b[48;5;{}m", letter.look().terminal)?;
            for _ in run {
                write!(out, "{letter}")?;
            }
        }
    }
    writeln!(out, "\x1b[0m")
}

fn map<W: Write>(out: &mut W, facts: &Facts, colour: bool) -> io::Result<()> {
    writeln!(out, "map: {}", Scale(facts.pages_of_a_cell))?;
    for stripe in &facts.map {
        write!(out, "  {:016x}  ", stripe.va.0)?;
        cells_of_row(out, &stripe.cells.value, colour)?;
        match stripe.rows {
            0 | 1 => {}
            2 => writeln!(out, "  ..                the same for 1 row more")?,
            n => writeln!(out, "  ..                the same for {} rows more", n - 1)?,
        }
    }
    writeln!(out, "legend:")?;
    for key in &facts.legend {
        writeln!(out, "  {}  {}", key.letter.value, key.meaning)?;
    }
    Ok(())
}

pub(crate) fn show<W: Write>(
    out: &mut W,
    alloc: Global,
    census: &Census,
    colour: bool,
) -> io::Result<()> {
    let facts = Facts::new(alloc, census)?;
    writeln!(out, "{census}: the regime is {}", facts.regime)?;
    table(out, alloc, &facts)?;
    if facts.pages == 0 {
        return Ok(());
    }
    map(out, &facts, colour)
}
