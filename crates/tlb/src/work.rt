// What the translations of an operation did, beside their answers. It goes down by reference to where it is done.
ghost use Rattle.std.specs.Prelude.{◌≡◌};
ghost use Rattle.tlb.specs.Translate.{no_work, read_more};

/// The descriptors that walks read. A count wraps at 2^64.
#[derive(Clone, Copy)]
pub struct Work {
    /// How many descriptors the walks read so far, those outside RAM too.
    pub reads: u64,
}

impl Work {
    /// Of an operation that begins.
    pub fn none() -> Self
        ensures { result ≡ no_work }
    {
        Work { reads: 0 }
    }

    /// A walk that read so many descriptors.
    pub fn add_reads(&mut self, reads: u8)
        ensures { self.new ≡ read_more reads self.old }
    {
        self.reads = self.reads.wrapping_add(reads as u64);
    }
}
