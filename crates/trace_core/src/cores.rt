//! The cores of a trace: one, until a line names one by its number; from then on four over one RAM.
ghost use Rattle.std.specs.Prelude.{◌<◌, IfSome};

use cluster::Cluster;
use cpu::Core;
use std::alloc::{AllocError, Global};

/// A core by itself, or four and the number of the one that is spoken to. There are the numbers 0 to 3.
#[derive(Drop)]
pub enum Cores {
    One(Core),
    Four(Box<Cluster>, u64),
}

// Four fresh cores.
#[cold]
#[inline(never)]
fn four(alloc: Global) -> Result<Box<Cluster>, AllocError> {
    Ok(Box::new(alloc, Cluster::new())?)
}

// The place of a number among four cores.
fn place_of(number: u64) -> Option<usize>
    ensures { IfSome result (λ place. place < 4) }
{
    cpu::check::core(number).ok()
}

impl Cores {
    /// The number of the core that is spoken to; none of one core by itself.
    pub fn number(&self) -> Option<u64> {
        match self {
            Cores::One(_) => None,
            Cores::Four(_, number) => Some(*number),
        }
    }

    /// The place of the core that is spoken to, 0 to 3; none where its number is above 3.
    pub fn place(&self) -> Option<usize>
        ensures { IfSome result (λ place. place < 4) }
    {
        match self {
            Cores::One(_) => Some(0),
            Cores::Four(_, number) => place_of(*number),
        }
    }

    /// The core that is spoken to; none where its number is above 3.
    pub fn spoken_to(&self) -> Option<&Core> {
        match self {
            Cores::One(core) => Some(core),
            Cores::Four(cluster, number) => cluster.cores.get(place_of(*number)?),
        }
    }

    /// The same, to be changed.
    pub fn spoken_to_mut(&mut self) -> Option<&mut Core> {
        match self {
            Cores::One(core) => Some(core),
            Cores::Four(cluster, number) => cluster.cores.get_mut(place_of(*number)?),
        }
    }

    /// The core at a place; none where there is none.
    pub fn at(&self, place: usize) -> Option<&Core> {
        match self {
            Cores::One(core) => (place == 0).then_some(core),
            Cores::Four(cluster, _) => cluster.cores.get(place),
        }
    }

    /// Each becomes as it is after reset. The core that is spoken to stays that.
    pub fn refresh(&mut self) {
        match self {
            Cores::One(core) => *core = Core::new(),
            Cores::Four(cluster, _) => {
                for core in cluster.cores.iter_mut() {
                    *core = Core::new();
                }
            }
        }
    }

    /// The core of this number is spoken to from now on. A core by itself becomes the one of number 0, and three fresh
    /// ones stand beside it.
    // Out of line: four cores that are made on the stack would stand in the frame of each line that is carried out.
    #[inline(never)]
    pub fn speak_to(&mut self, alloc: Global, number: u64) -> Result<(), AllocError> {
        match self {
            Cores::One(core) => {
                let mut cluster = four(alloc)?;
                cluster.cores[0] = *core;
                *self = Cores::Four(cluster, number);
            }
            Cores::Four(_, spoken_to) => *spoken_to = number,
        }
        Ok(())
    }

    /// After an operation that looked and is not refused: as after each call of a core among four, what the core has
    /// pending goes to the others.
    pub fn deliver(&mut self) {
        if let Cores::Four(cluster, number) = self {
            if let Some(place) = place_of(*number) {
                cluster.deliver(place);
            }
        }
    }
}
