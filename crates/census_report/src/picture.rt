// The map as a picture, in SVG: a rectangle for each run of equal cells, and beside it a legend with counts.
use crate::grid::Scale;
use crate::letter::Letter;
use crate::report::Census;
use std::io;
use std::io::Write;

// In pixels: where the map begins, the height of a row, and where the legend begins; a cell is ten wide.
const LEFT: u64 = 144;

const TOP: u64 = 60;

const ROW: u64 = 14;

const LEGEND: u64 = 808;

// A rectangle in a letter's colour.
fn rectangle<W: Write>(out: &mut W, x: u64, y: u64, width: u64, letter: Letter) -> io::Result<()> {
    let colour = letter.look().picture;
    write!(out, "<rect x='{x}' y='{y}' width='{width}'")?;
    writeln!(out, " height='13' fill='#{colour:06x}'/>")
}

// A row's address and its runs.
fn row<W: Write>(
    out: &mut W,
    cells: &[Option<Letter>; 64],
    address: u64,
    y: u64,
) -> io::Result<()> {
    let below = y.wrapping_add(11);
    writeln!(out, "<text x='12' y='{below}'>{address:016x}</text>")?;
    let mut x = LEFT;
    for run in cells.chunk_by(|cell, next| cell == next) {
        let width = (run.len() as u64).wrapping_mul(10);
        if let Some(Some(letter)) = run.first() {
            rectangle(out, x, y, width, *letter)?;
        }
        x = x.wrapping_add(width);
    }
    Ok(())
}

// The letters that occur, each with its pages; of the cells of several kinds, how many there are.
fn legend<W: Write>(out: &mut W, census: &Census) -> io::Result<()> {
    let mut y = TOP;
    for letter in Letter::ALL {
        let (amount, unit) = match letter {
            Letter::Several => (census.cells(letter) as u64, "cells"),
            _ => (census.pages(letter), "pages"),
        };
        if amount != 0 {
            rectangle(out, LEGEND, y, 20, letter)?;
            let (x, below) = (LEGEND + 28, y.wrapping_add(11));
            let meaning = letter.look().meaning;
            write!(out, "<text x='{x}' y='{below}'>{letter} {meaning}")?;
            writeln!(out, ", {unit}: {amount}</text>")?;
            y = y.wrapping_add(18);
        }
    }
    Ok(())
}

// The picture's beginning, its background and its titles. A legend of every letter has room.
fn begin<W: Write>(out: &mut W, census: &Census, rows: u64) -> io::Result<()> {
    let height = TOP + rows.clamp(20, 64) * ROW + 12;
    write!(out, "<svg xmlns='http://www.w3.org/2000/svg' width='1200'")?;
    write!(out, " height='{height}' viewBox='0 0 1200 {height}'")?;
    writeln!(out, " font-family='monospace' font-size='12'>")?;
    writeln!(out, "<title>{census}</title>")?;
    writeln!(out, "<rect width='100%' height='100%' fill='white'/>")?;
    writeln!(out, "<text x='12' y='24'>{census}</text>")?;
    writeln!(out, "<text x='12' y='44'>{}</text>", Scale(census.grid.per))
}

pub(crate) fn show<W: Write>(out: &mut W, census: &Census) -> io::Result<()> {
    let rows = census.map.iter().filter(|row| row[0].is_some());
    begin(out, census, rows.count() as u64)?;
    let mut address = census.grid.start;
    let mut y = TOP;
    for cells in &census.map {
        if cells[0].is_some() {
            row(out, cells, address, y)?;
        }
        address = address.wrapping_add(census.grid.row_bytes());
        y = y.wrapping_add(ROW);
    }
    legend(out, census)?;
    writeln!(out, "</svg>")
}
