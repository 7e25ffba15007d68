// Every order of a small chord: four keys, of which two are pressed twice, so ten events. The first time a key comes it
// is pressed, then let go, then pressed again.
use crate::instrument::{Heard, Instrument, System};
use crate::note::Note;
use serde::Serialize;
use std::alloc::{AllocError, Global};
use std::{array, fmt};

// A key: its voice, its note, and how often it comes in an order.
#[derive(Clone, Copy)]
struct Key(usize, Note, usize);

// The voices of C4 and E4 share a slot, and so have those of G4 and B4.
const KEYS: [Key; 4] = [
    Key(0, Note(60), 3),
    Key(8, Note(64), 3),
    Key(1, Note(67), 2),
    Key(9, Note(71), 2),
];

// Numbers of ten digits to the base four.
const NUMBERS: u64 = 0x10_0000;

/// An order, as a number of ten digits to the base four, a key each.
#[derive(Clone, Copy)]
pub struct Order(u64);

impl Order {
    // The key at each place.
    fn keys(self) -> [Key; 10] {
        array::from_fn(|place| KEYS[(self.0 >> (2 * (9 - place % 10)) & 3) as usize])
    }

    // Whether each key comes as often as it is to.
    fn is_whole(self) -> bool {
        let keys = self.keys();
        KEYS.iter().all(|key| keys.iter().filter(|other| other.0 == key.0).count() == key.2)
    }
}

/// What was heard in every order on a system.
#[derive(Clone, Copy, Serialize)]
pub struct Tally {
    system: System,
    pub orders: u64,
    #[serde(flatten)]
    pub heard: Heard,
    /// The orders in which a note was lost, and the first of them.
    pub wrong: u64,
    #[serde(skip)]
    pub first: Option<Order>,
}

/// What a key gives that is held, and what it should.
#[derive(Clone, Copy, Serialize)]
struct Sounding {
    note: Note,
    heard: Note,
}

/// An event of an order: a key is pressed or let go, and what each key gives then, if it is held.
#[derive(Clone, Copy, Serialize)]
pub struct Event {
    key: Note,
    on: bool,
    keys: [Option<Sounding>; 4],
}

impl Tally {
    fn new(system: System) -> Self {
        Tally {
            system,
            orders: 0,
            heard: Heard::default(),
            wrong: 0,
            first: None,
        }
    }

    fn add(&mut self, order: Order, heard: Heard) {
        self.orders = self.orders.wrapping_add(1);
        self.heard += heard;
        if heard.lost != 0 {
            self.wrong = self.wrong.wrapping_add(1);
            self.first = self.first.or(Some(order));
        }
    }
}

impl fmt::Display for Tally {
    fn fmt<W: fmt::Write>(&self, f: &mut fmt::Formatter<W>) -> fmt::Result {
        let name = self.system.name();
        writeln!(f, "   {name:<22} {} orders, {}", self.orders, self.heard)
    }
}

impl fmt::Display for Event {
    fn fmt<W: fmt::Write>(&self, f: &mut fmt::Formatter<W>) -> fmt::Result {
        let event = if self.on { "on " } else { "off" };
        write!(f, "     {}{event}", self.key)?;
        for key in self.keys {
            match key {
                None => write!(f, "   .              ")?,
                Some(Sounding { note, heard }) => {
                    let end = if heard == note { "    " } else { "LOST" };
                    write!(f, "   {note}-> {heard}{end}")?;
                }
            }
        }
        writeln!(f)
    }
}

impl Instrument {
    // One order: after each event every key that is held is heard.
    fn play(&mut self, system: System, order: Order) -> Heard {
        self.start(system);
        let mut heard = Heard::default();
        for Key(voice, note, _) in order.keys() {
            self.touch(voice, note);
            heard += self.listen();
        }
        heard
    }

    /// Plays every order, and tells what was heard.
    pub fn play_all(&mut self, system: System) -> Tally {
        let mut tally = Tally::new(system);
        for order in 0..NUMBERS {
            let order = Order(order);
            if order.is_whole() {
                tally.add(order, self.play(system, order));
            }
        }
        tally
    }

    // What a voice gives, if it is held.
    fn sounding(&mut self, voice: usize) -> Option<Sounding> {
        let note = self.held(voice)?.note;
        let heard = self.hear(voice);
        Some(Sounding { note, heard })
    }

    /// One order, event by event.
    pub fn events(
        &mut self,
        alloc: Global,
        system: System,
        order: Order,
    ) -> Result<Vec<Event>, AllocError> {
        self.start(system);
        let mut events: Vec<Event> = Vec::new(alloc);
        for Key(voice, key, _) in order.keys() {
            self.touch(voice, key);
            let mut keys = [None; 4];
            for (place, Key(other, _, _)) in KEYS.iter().enumerate() {
                keys[place] = self.sounding(*other);
            }
            events.push(Event {
                key,
                on: self.held(voice).is_some(),
                keys,
            })?;
        }
        Ok(events)
    }
}
