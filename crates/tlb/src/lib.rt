#![tactic(auto)]
// The TLB of stage 1: what walks found, the hints of recent accesses, the counters, and what other cores are to drop.
ghost use Rattle.std.specs.Prelude.{◌≡◌, ◌<◌};
ghost use Rattle.tlb.specs.Tlb.{slot_of, fresh, get_of, put_of, hintless, flush_of, drop_page_of, drop_asid_of};
ghost use Rattle.tlb.specs.Tlb.{retag_of, invalidate_of, broadcast_of};

use count::Tally;
use entry::Entry;
use hint::{FetchHint, Hint, NO_HINT};

pub mod access;
pub mod count;
pub mod entry;
pub mod fresh;
pub mod hint;
pub mod theorems;
pub mod translate;
pub mod work;

const TLB_ENTRIES: usize = 1024;

/// What a TLBI drops.
#[derive(Clone, Copy, PartialEq, Eq)]
pub enum Inval {
    All,
    /// The 4 KiB page VA[55:12], in every regime and for every ASID.
    Page(u64),
    /// What is not global, for this ASID.
    Asid(u16),
}

/// Each counter wraps at 2^64.
#[derive(Clone, Copy)]
pub struct Tlb {
    /// An entry of another generation answers for nothing.
    pub generation: u32,
    /// The EL1&0 regime's ASID.
    pub asid: u16,
    /// Direct-mapped by page.
    pub entries: [Entry; TLB_ENTRIES],
    /// The page of the last fetch.
    pub fetch: Option<FetchHint>,
    /// Pages of data, direct-mapped by page: for reads in the first half, for writes in the other.
    pub hints: [Hint; 512],
    /// Hits and walks of EL0 to EL3.
    pub levels: [Tally; 4],
    /// Whole flushes, and pages that a TLBI dropped.
    pub flushes: u64,
    pub drops: u64,
    /// How often all hints were emptied.
    pub epoch: u64,
    /// Set by a broadcast TLBI: what the other cores' TLBs are to drop.
    pub broadcast: Option<Inval>,
}

#[tactic(auto, using(crate::proofs::Cells::sweep), unfolding(crate::specs::Tlb::blanks, crate::specs::Tlb::no_hints, crate::specs::Tlb::no_tallies, crate::specs::Tlb::flush_of, crate::specs::Tlb::invalidate_of, crate::specs::Tlb::drop_page_of, crate::specs::Tlb::drop_asid_of, crate::specs::Tlb::retag_of, crate::specs::Tlb::broadcast_of, crate::specs::Tlb::get_of, crate::specs::Tlb::put_of))]
impl Tlb {
    /// Empty, as after reset.
    pub fn new() -> Self
        ensures { result ≡ fresh }
    {
        Tlb {
            generation: 1,
            asid: 0,
            entries: [Entry::default(); TLB_ENTRIES],
            fetch: None,
            hints: [NO_HINT; 512],
            levels: [Tally::default(); 4],
            flushes: 0,
            drops: 0,
            epoch: 0,
            broadcast: None,
        }
    }

    // Every hint out.
    fn clear_hints(&mut self)
        ensures { self.new ≡ hintless self.old }
    {
        self.fetch = None;
        self.hints = [NO_HINT; 512];
        self.epoch = self.epoch.wrapping_add(1);
    }

    /// Everything out: the next generation. Where that count wraps, the entries are cleared and it is 1.
    pub fn flush(&mut self)
        ensures { self.new ≡ flush_of self.old }
    {
        self.flushes = self.flushes.wrapping_add(1);
        self.clear_hints();
        self.generation = self.generation.wrapping_add(1);
        if self.generation == 0 {
            self.entries = [Entry::default(); TLB_ENTRIES];
            self.generation = 1;
        }
    }

    /// What a TLBI asks for.
    pub fn invalidate(&mut self, what: Inval)
        ensures { self.new ≡ invalidate_of self.old what }
    {
        match what {
            Inval::All => self.flush(),
            Inval::Page(page) => self.drop_page(page),
            Inval::Asid(asid) => self.drop_asid(asid),
        }
    }

    /// What translates the page VA[55:12] out, each block that covers it too, and every hint.
    pub fn drop_page(&mut self, page: u64)
        ensures { self.new ≡ drop_page_of self.old page }
    {
        self.drops = self.drops.wrapping_add(1);
        let generation = self.generation;
        for e in self.entries.iter_mut() {
            e.drop_page(generation, page);
        }
        self.clear_hints();
    }

    /// Asks the other cores to drop it too, along with anything asked since they last looked: a second one that
    /// differs makes it All.
    pub fn broadcast(&mut self, what: Inval)
        ensures { self.new ≡ broadcast_of self.old what }
    {
        let pending = self.broadcast;
        self.broadcast = Some(match pending {
            None => what,
            Some(earlier) if earlier == what => what,
            Some(_) => Inval::All,
        });
    }

    fn slot(tag: u64) -> usize
        ensures value { result ≡ slot_of tag }
        ensures upper_bound { result < 1024 }
    {
        (tag >> 2) as usize & (TLB_ENTRIES - 1)
    }

    /// The entry that answers for a tag.
    pub fn get(&self, tag: u64) -> Option<Entry>
        ensures { result ≡ get_of self.now tag }
    {
        let e = self.entries[Self::slot(tag)];
        (e.tag == tag
            && e.generation == self.generation
            && (e.global || e.asid == self.asid)).then_some(e)
    }

    /// The EL1&0 regime's ASID is now asid: the entries stay, every hint goes.
    pub fn retag(&mut self, asid: u16)
        ensures { self.new ≡ retag_of self.old asid }
    {
        self.asid = asid;
        self.clear_hints();
    }

    /// What is not global and was walked for asid out, and every hint.
    pub fn drop_asid(&mut self, asid: u16)
        ensures { self.new ≡ drop_asid_of self.old asid }
    {
        for e in self.entries.iter_mut() {
            e.drop_asid(asid);
        }
        self.retag(self.asid);
    }

    /// An entry into its slot, in the present generation.
    pub fn put(&mut self, e: Entry)
        ensures { self.new ≡ put_of self.old e }
    {
        self.entries[Self::slot(e.tag)] = Entry {
            generation: self.generation,
            ..e
        };
    }
}
