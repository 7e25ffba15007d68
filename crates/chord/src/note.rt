// The names of notes.
use serde::{Described, Serialize, Serializer};
use std::fmt;

const PITCHES: [&str; 12] = [
    "C", "C#", "D", "Eb", "E", "F", "F#", "G", "G#", "A", "Bb", "B",
];

/// A note by its number, 60 for C4. It is shown by its name in four columns, and by a dash where no voice has it.
#[derive(Clone, Copy, PartialEq, Eq)]
pub struct Note(pub u64);

impl Note {
    /// No note: what a voice that faults gives.
    pub const SILENCE: Note = Note(0);

    /// A semitone above.
    pub fn sharp(self) -> Self {
        Note(self.0.wrapping_add(1))
    }
}

/// A note's name alone.
#[derive(Clone, Copy)]
pub struct Name(pub Note);

impl Note {
    // The pitch and the octave of a note that has a name.
    fn pitch(self) -> Option<(&'static str, u64)> {
        let number = self.0;
        if number < 24 || 119 < number {
            return None;
        }
        Some((PITCHES[(number % 12) as usize], number / 12 - 1))
    }
}

impl fmt::Display for Name {
    fn fmt<W: fmt::Write>(&self, f: &mut fmt::Formatter<W>) -> fmt::Result {
        match self.0.pitch() {
            None => f.write_str("-"),
            Some((pitch, octave)) => write!(f, "{pitch}{octave}"),
        }
    }
}

impl Described for Note {}

impl Serialize for Note {
    fn serialize<S: Serializer>(&self, out: &mut S) -> Result<(), S::Error> {
        out.collect_str(&Name(*self))
    }
}

// In four columns.
impl fmt::Display for Note {
    fn fmt<W: fmt::Write>(&self, f: &mut fmt::Formatter<W>) -> fmt::Result {
        match self.pitch() {
            None => f.write_str("-   "),
            Some((pitch, octave)) => {
                let width = 4usize.saturating_sub(pitch.len());
                write!(f, "{pitch}{octave:<width$}")
            }
        }
    }
}
