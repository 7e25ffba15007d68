#![tactic(auto)]
// Four cores over one RAM, each with registers and cache of its own. The RAM is lent to each call. What a core leaves
// pending for others, the other three carry out before its call ends.
ghost use Rattle.std.specs.Prelude.{◌≡◌, ◌<◌, None};

pub mod theorems;

use cpu::Core;
use cpu::call::{Call, Reply};
use cpu::check::{self, Check};
use tlb::Inval;
use tlb::work::Work;

/// Four cores, numbers 0 to 3. One call is made at a time.
#[derive(Drop)]
pub struct Cluster {
    pub cores: [Core; 4],
}

impl Cluster {
    ghost use Rattle.cluster.specs.Cluster.{fresh_cluster, core_at, put_in, put_number, shared_among, delivered_of};
    ghost use Rattle.cluster.specs.Cluster.{four_after, four_reply, four_ram, four_work};
    ghost use Rattle.cluster.specs.Faithful.{FaithfulFour};

    /// Four cores after reset.
    pub fn new() -> Self
        ensures { result.cores ≡ fresh_cluster }
    {
        Cluster {
            cores: [Core::new(); 4],
        }
    }

    /// The core that has a number; `Check::Core` above 3.
    pub fn core(&self, n: u64) -> Result<&Core, Check>
        ensures { core_at self.now.cores n result }
    {
        Ok(&self.cores[check::core(n)?])
    }

    /// A core in the place of the one that has a number; `Check::Core` above 3. It keeps what it has pending.
    pub fn put(&mut self, n: u64, core: &Core) -> Result<(), Check>
        ensures cores { self.new.cores ≡ put_in self.old.cores n core.now }
        ensures number { put_number n result }
    {
        let i = check::core(n)?;
        self.cores[i] = *core;
        Ok(())
    }

    // What core i asks for goes to the other three, and its mark is cleared.
    #[cold]
    #[inline(never)]
    fn share(&mut self, i: usize, what: Inval)
        requires { i < 4 }
        ensures { self.new.cores ≡ shared_among self.old.cores i what }
    {
        self.cores[i].tlb.broadcast = None;
        for j in 0..4 {
            if j != i {
                self.cores[j].tlb.invalidate(what);
            }
        }
    }

    /// What core i has pending goes to the other three, and its mark is cleared. A number above 3 does nothing.
    #[inline(always)]
    pub fn deliver(&mut self, i: usize)
        ensures { self.new.cores ≡ delivered_of self.old.cores i }
    {
        if i < 4 {
            if let Some(what) = self.cores[i].tlb.broadcast {
                self.share(i, what);
            }
        }
    }

    /// A call on the core that has a number; above 3 it is refused as 8, before every other check. Where it is not
    /// refused, whatever the core has pending after it is delivered. The descriptors that it reads are added to `work`.
    #[tactic(auto, using(crate::proofs::Faithful::faithful_four))]
    pub fn step(&mut self, n: u64, base: u64, ram: &mut [u8], call: Call, work: &mut Work) -> Reply
        ensures cores { self.new.cores ≡ four_after self.old.cores n base ram.old call }
        ensures reply { result ≡ four_reply self.old.cores n base ram.old call }
        ensures ram { ram.new ≡ four_ram self.old.cores n base ram.old call }
        ensures work { work.new ≡ four_work self.old.cores n base ram.old call work.old }
        ensures faithful { FaithfulFour self.old.cores n base ram.old call result ram.new }
    {
        let i = match check::core(n) {
            Ok(i) => i,
            Err(check) => return Reply::from(check),
        };
        let reply = self.cores[i].step(base, ram, call, work);
        if !reply.refuses() {
            self.deliver(i);
        }
        reply
    }
}
