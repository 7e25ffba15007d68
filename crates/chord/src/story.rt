// The story: the sixteen voices, then every order of a small chord, on the proved core and against two systems that
// lose a tone; then both with the tables changed on another core.
use crate::instrument;
use crate::instrument::{Heard, Instrument, System};
use crate::note::Note;
use crate::orders::{Event, Tally};
use json_text::Hex;
use serde::Serialize;
use std::alloc::{AllocError, Global};
use std::fmt;

// The notes of the sixteen voices: the first sixteen partials of a low C.
const PARTIALS: [u64; 16] = [
    36, 48, 55, 60, 64, 67, 70, 72, 74, 76, 78, 79, 81, 82, 83, 84,
];

// A voice, its note, its page, the slot of its entry, its frame, and what is heard.
#[derive(Clone, Copy, Serialize)]
struct Voice {
    voice: usize,
    note: Note,
    va: Hex,
    slot: u64,
    pa: Hex,
    heard: Note,
}

// What was heard while every voice changed its note and its frame.
#[derive(Clone, Copy, Serialize)]
struct Change {
    system: System,
    #[serde(flatten)]
    heard: Heard,
}

// An order in which the stale cache loses a tone, event by event, there and on the proved core.
#[derive(Drop, Serialize)]
struct FirstWrong {
    stale_cache: Vec<Event>,
    proved: Vec<Event>,
}

// Both again, with the tables changed on one core and the voices heard on another.
#[derive(Clone, Copy, Serialize)]
struct Panel {
    changes: [Change; 2],
    orders: [Tally; 2],
}

/// All four parts: sixteen voices, every voice changed, every order of a chord, and the panel on another core.
#[derive(Drop, Serialize)]
pub struct Story {
    voices: Vec<Voice>,
    held: Heard,
    changes: [Change; 3],
    orders: [Tally; 3],
    first_wrong: Option<FirstWrong>,
    panel: Panel,
    /// whether the proved core lost no tone in any, nor the one that hears what the panel's invalidates
    pub whole: bool,
}

impl Instrument {
    // All sixteen voices held.
    fn press_all(&mut self, system: System) {
        self.start(system);
        for (voice, number) in PARTIALS.iter().enumerate() {
            self.touch(voice, Note(*number));
        }
    }

    fn voices(&mut self, alloc: Global) -> Result<Vec<Voice>, AllocError> {
        self.press_all(System::Proved);
        let mut voices: Vec<Voice> = Vec::new(alloc);
        for voice in 0..16usize {
            if let Some(held) = self.held(voice) {
                voices.push(Voice {
                    voice: voice + 1,
                    note: held.note,
                    va: Hex(instrument::address(voice)),
                    slot: instrument::page(voice) % 1024,
                    pa: Hex(instrument::frame_address(held.frame)),
                    heard: self.hear(voice),
                })?;
            }
        }
        Ok(voices)
    }

    // From all sixteen held: two neighbours let go, then each takes the other's frame, with the note a semitone above;
    // every pair in turn.
    fn change_all(&mut self, system: System) -> Change {
        self.press_all(system);
        let mut heard = self.listen();
        for pair in 0..8usize {
            for voice in [2 * pair, 2 * pair + 1, 2 * pair + 1, 2 * pair] {
                self.touch(voice, Note(PARTIALS[voice % 16]).sharp());
                heard += self.listen();
            }
        }
        Change { system, heard }
    }
}

impl Story {
    /// Plays it, over RAM of 2 MiB.
    pub fn new(alloc: Global, ram: Vec<u8>) -> Result<Self, AllocError> {
        let mut instrument = Instrument::new(alloc, ram)?;
        let voices = instrument.voices(alloc)?;
        let held = instrument.listen();
        let changes = [System::Proved, System::StaleCache, System::NoTlbi].map(
            |system| instrument.change_all(system),
        );
        let orders = [System::Proved, System::StaleCache, System::NoTlbi].map(
            |system| instrument.play_all(system),
        );
        let first_wrong = match orders[1].first {
            Some(first) => Some(FirstWrong {
                stale_cache: instrument.events(alloc, System::StaleCache, first)?,
                proved: instrument.events(alloc, System::Proved, first)?,
            }),
            None => None,
        };
        let panel = Panel {
            changes: [System::InnerShareable, System::Local].map(|system| instrument.change_all(
                system,
            )),
            orders: [System::InnerShareable, System::Local].map(|system| instrument.play_all(
                system,
            )),
        };
        let whole = held.lost == 0
            && changes[0].heard.lost == 0
            && orders[0].heard.lost == 0
            && panel.changes[0].heard.lost == 0
            && panel.orders[0].heard.lost == 0;
        Ok(Story {
            voices,
            held,
            changes,
            orders,
            first_wrong,
            panel,
            whole,
        })
    }

    fn first_part<W: fmt::Write>(&self, f: &mut fmt::Formatter<W>) -> fmt::Result {
        write!(
            f,
            "1. Sixteen voices, a page each; voices 1 and 9, 2 and 10 .."
        )?;
        writeln!(f, " share a slot of the cache.\n")?;
        writeln!(f, "   voice   note  page      slot  frame      heard")?;
        for voice in &self.voices {
            write!(f, "{voice}")?;
        }
        writeln!(f, "\n   sixteen voices held: {}", self.held)
    }

    fn second_part<W: fmt::Write>(&self, f: &mut fmt::Formatter<W>) -> fmt::Result {
        write!(f, "\n2. Every voice changes its note and its frame:")?;
        writeln!(f, " note-off, TLBI by address, note-on.\n")?;
        for change in &self.changes {
            write!(f, "{change}")?;
        }
        Ok(())
    }

    fn third_part<W: fmt::Write>(&self, f: &mut fmt::Formatter<W>) -> fmt::Result {
        write!(f, "\n3. Every order of a chord: C4 and E4 pressed twice,")?;
        write!(f, " G4 and B4 once; C4 and E4 share a slot,")?;
        writeln!(f, " and so do G4 and B4.\n")?;
        for tally in &self.orders {
            write!(f, "{tally}")?;
        }
        if let Some(first) = &self.first_wrong {
            write!(
                f,
                "\n   The stale cache loses a tone in {} orders.",
                self.orders[1].wrong
            )?;
            writeln!(
                f,
                " The first of them, where two held keys read one page:\n"
            )?;
            for event in &first.stale_cache {
                write!(f, "{event}")?;
            }
            writeln!(f, "\n   The same order on the proved core:\n")?;
            for event in &first.proved {
                write!(f, "{event}")?;
            }
        }
        Ok(())
    }

    fn fourth_part<W: fmt::Write>(&self, f: &mut fmt::Formatter<W>) -> fmt::Result {
        write!(
            f,
            "\n4. The panel on another core: its thread changes the tables on core 0,"
        )?;
        writeln!(f, " and voices are heard on core 1, over the same RAM.\n")?;
        writeln!(f, "   Every voice changes its note and its frame:\n")?;
        for change in &self.panel.changes {
            write!(f, "{change}")?;
        }
        writeln!(f, "\n   Every order of the chord:\n")?;
        for tally in &self.panel.orders {
            write!(f, "{tally}")?;
        }
        Ok(())
    }
}

impl fmt::Display for Change {
    fn fmt<W: fmt::Write>(&self, f: &mut fmt::Formatter<W>) -> fmt::Result {
        let name = self.system.name();
        writeln!(f, "   {name:<22} {}", self.heard)
    }
}

impl fmt::Display for Voice {
    fn fmt<W: fmt::Write>(&self, f: &mut fmt::Formatter<W>) -> fmt::Result {
        let Voice {
            voice,
            note,
            va,
            slot,
            pa,
            heard,
        } = self;
        write!(f, "{voice:>8}   {note}  {:06x}", va.0)?;
        writeln!(f, "    {slot:03x}   {:08x}   {heard}", pa.0)
    }
}

impl fmt::Display for Story {
    fn fmt<W: fmt::Write>(&self, f: &mut fmt::Formatter<W>) -> fmt::Result {
        self.first_part(f)?;
        self.second_part(f)?;
        self.third_part(f)?;
        self.fourth_part(f)?;
        let verdict = if self.whole {
            "the chord is whole"
        } else {
            "THE CHORD LOST A TONE"
        };
        writeln!(f, "\n{verdict}")
    }
}
