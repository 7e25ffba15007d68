// The instrument: its cores, tables and frames in RAM, and what the firmware does to them at note-on and note-off.
use crate::note::Note;
use cluster::Cluster;
use cpu::Core;
use cpu::call::{Call, Reply};
use serde::Serialize;
use std::alloc::{AllocError, Global};
use std::fmt;
use std::ops::AddAssign;
use system::decode::Encoding;
use tlb::access::Kind;
use tlb::hint;
use tlb::work::Work;
use word::ram;
use word::ram::Width;

// The first address of RAM.
const BASE: u64 = 0x4000_0000;

// One table of level 1, one of level 2, and two of level 3, for voices 1 to 8 and 9 to 16.
const LEVEL1: u64 = 0x4000_1000;

const LEVEL2: u64 = 0x4000_2000;

const LEVEL3: u64 = 0x4000_3000;

// The first frame; a note is the first word of a frame.
const FRAMES: u64 = 0x4001_0000;

// TCR_EL1: 39 bits of address and pages of 4 KiB in both ranges, the upper one off.
const TCR: u64 = 0x8080_0019;

// A page for data: valid, accessed, inner shareable, read and written at EL1 alone, never executed.
const PAGE: u64 = 0x0060_0000_0000_0703;

/// What the keys are played on.
#[derive(Clone, Copy, Serialize)]
#[serde(rename_all = "snake_case")]
pub enum System {
    /// The firmware invalidates a page at note-off, and the core does it.
    Proved,
    /// The core keeps one hint of the page that is invalidated.
    StaleCache,
    /// The firmware forgets to invalidate it.
    NoTlbi,
    /// The firmware changes the tables on another core than the voices', and invalidates a page on both.
    InnerShareable,
    /// The same, but it invalidates a page on the core alone that changes the tables.
    Local,
}

impl System {
    /// What it is, as it is shown.
    pub fn name(self) -> &'static str {
        match self {
            System::Proved => "the proved core:",
            System::StaleCache => "a stale cache:",
            System::NoTlbi => "firmware without TLBI:",
            System::InnerShareable => "TLBI VAE1IS:",
            System::Local => "TLBI VAE1:",
        }
    }

    // The core by which voices are heard. Core 0 changes the tables.
    fn audio(self) -> u64 {
        match self {
            System::Proved | System::StaleCache | System::NoTlbi => 0,
            System::InnerShareable | System::Local => 1,
        }
    }

    // CRm of its TLBI by address.
    fn crm(self) -> u64 {
        match self {
            System::InnerShareable => 3,
            _ => 7,
        }
    }
}

/// How many held voices were read, and how many of them gave another note than their own.
#[derive(Clone, Copy, Default, Serialize)]
pub struct Heard {
    #[serde(rename = "voices_read")]
    pub reads: u64,
    pub lost: u64,
}

impl AddAssign for Heard {
    fn add_assign(&mut self, other: Heard) {
        self.reads = self.reads.wrapping_add(other.reads);
        self.lost = self.lost.wrapping_add(other.lost);
    }
}

impl fmt::Display for Heard {
    fn fmt<W: fmt::Write>(&self, f: &mut fmt::Formatter<W>) -> fmt::Result {
        write!(f, "{} reads, {} tones lost", self.reads, self.lost)
    }
}

/// The note of a voice that is held, and the frame that holds it.
#[derive(Clone, Copy)]
pub struct Held {
    pub note: Note,
    pub frame: u64,
}

/// The page number of a voice, 0 to 15: eight pages from 0x100 on, and eight that are 1,024 pages further, so that two
/// voices share each slot.
pub fn page(voice: usize) -> u64 {
    let voice = voice as u64;
    0x100 + voice % 8 + voice / 8 % 2 * 0x400
}

/// The first address of a voice's page.
pub fn address(voice: usize) -> u64 {
    page(voice) << 12
}

/// The first address of a frame.
pub fn frame_address(frame: u64) -> u64 {
    FRAMES + frame % 32 * 0x1000
}

// Where the descriptor of a voice's page stands.
fn descriptor_at(voice: usize) -> u64 {
    let page = page(voice);
    LEVEL3 + page / 1024 % 2 * 0x1000 + page % 512 * 8
}

/// Sixteen voices on cores over one RAM.
#[derive(Drop)]
pub struct Instrument {
    cluster: Box<Cluster>,
    ram: Vec<u8>,
    system: System,
    // a bit for each frame in use
    used: u64,
    voices: [Option<Held>; 16],
}

impl Instrument {
    /// An instrument over RAM of 2 MiB, to be started.
    pub fn new(alloc: Global, ram: Vec<u8>) -> Result<Self, AllocError> {
        Ok(Instrument {
            cluster: Box::new(alloc, Cluster::new())?,
            ram,
            system: System::Proved,
            used: 0,
            voices: [None; 16],
        })
    }

    /// No voice held and no page mapped, on fresh cores at EL1 with stage 1 on.
    pub fn start(&mut self, system: System) {
        self.system = system;
        self.used = 0;
        self.voices = [None; 16];
        self.put(LEVEL1, LEVEL2 + 3);
        self.put(LEVEL2, LEVEL3 + 3);
        self.put(LEVEL2 + 16, LEVEL3 + 0x1003);
        for voice in 0..16 {
            self.put(descriptor_at(voice), 0);
        }
        for core in 0..=system.audio() {
            self.boot(core);
        }
    }

    // A fresh core, and then the registers that translate and its level.
    fn boot(&mut self, core: u64) {
        let _ = self.cluster.put(core, &Core::new());
        self.call(core, Call::Register(0xC102, TCR));
        self.call(core, Call::Register(0xC100, LEVEL1));
        self.call(core, Call::Register(0xC080, 0x30D0_0801));
        self.call(core, Call::Level(1));
    }

    fn call(&mut self, core: u64, call: Call) -> Reply {
        let ram = self.ram.as_mut_slice();
        self.cluster.step(core, BASE, ram, call, &mut Work::none())
    }

    fn put(&mut self, pa: u64, value: u64) {
        ram::write(BASE, self.ram.as_mut_slice(), Width::Double, pa, value);
    }

    /// The note that a voice holds.
    pub fn held(&self, voice: usize) -> Option<Held> {
        self.voices[voice % 16]
    }

    /// The key of a voice: it is pressed if the voice is silent, and let go if it is held.
    pub fn touch(&mut self, voice: usize, note: Note) {
        match self.held(voice) {
            None => self.press(voice, note),
            Some(held) => self.release(voice, held.frame),
        }
    }

    // The note goes into the lowest free frame, and the voice's page is mapped to it.
    fn press(&mut self, voice: usize, note: Note) {
        let frame = u64::from(self.used.trailing_ones() % 32);
        self.used |= 1 << frame;
        self.voices[voice % 16] = Some(Held { note, frame });
        self.put(frame_address(frame), note.0);
        self.put(descriptor_at(voice), PAGE | frame_address(frame));
    }

    // The page is taken back, and its old translation is invalidated, or not, as the system does.
    fn release(&mut self, voice: usize, frame: u64) {
        self.used &= !(1 << (frame % 32));
        self.voices[voice % 16] = None;
        self.put(descriptor_at(voice), 0);
        match self.system {
            System::Proved | System::InnerShareable | System::Local => self.invalidate(voice),
            System::StaleCache => {
                let slot = hint::data_slot(address(voice), Kind::Read);
                let old = self.cluster.cores[0].tlb.hints[slot];
                self.invalidate(voice);
                self.cluster.cores[0].tlb.hints[slot] = old;
            }
            System::NoTlbi => {}
        }
    }

    // TLBI VAE1 or VAE1IS of a voice's page.
    fn invalidate(&mut self, voice: usize) {
        self.call(0, Call::General(1, page(voice)));
        self.call(
            0,
            Call::System(Encoding {
                op1: 0,
                crn: 8,
                crm: self.system.crm(),
                op2: 1,
                rt: 1,
            }),
        );
    }

    /// What a voice gives, read through the core that hears.
    pub fn hear(&mut self, voice: usize) -> Note {
        match self.call(self.system.audio(), Call::Load(address(voice), 8)) {
            Reply::Value(note) => Note(note),
            _ => Note::SILENCE,
        }
    }

    /// Hears every voice that is held.
    pub fn listen(&mut self) -> Heard {
        let mut heard = Heard::default();
        for voice in 0..16 {
            if let Some(held) = self.held(voice) {
                let lost = self.hear(voice) != held.note;
                heard += Heard {
                    reads: 1,
                    lost: u64::from(lost),
                };
            }
        }
        heard
    }
}
