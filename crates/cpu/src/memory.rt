// The core's operations on memory. The descriptors that an operation reads are added to its `work`.
ghost use Rattle.std.specs.Prelude.{◌≡◌, length};
ghost use Rattle.word.specs.Ram.{word_at, bytes_in};
ghost use Rattle.exception.specs.Abort.{insn_abort_at};
ghost use Rattle.cpu.specs.Core.{bank_now};
ghost use Rattle.cpu.specs.Bytes.{first_part, external, data_abort, external_abort, failed_access, abort_after};
ghost use Rattle.cpu.specs.Memory.{translate_of, past_hint_of, translate_fetch_of, translate_access_of, HandedNow};
ghost use Rattle.cpu.specs.Memory.{KeptNow, NeedsWalkNow, read_of, write_of, ram_after_write, fetch_of, fetch_pa_of};
ghost use Rattle.cpu.specs.Memory.{data_pa_of};
ghost use Rattle.cpu.specs.Work.{past_hint_work, translate_work, fetch_work, access_work, read_work, write_work};
ghost use Rattle.tlb.specs.declared.access.Kind.TheVariants.{Read};

use crate::place::{FaultAt, Outside, Pages, Place};
use crate::{Core, bytes, place};
use exception::kind::{DataAbort, Exception, InsnAbort, Stop};
use fault::Fault;
use sysreg::regs::Regime;
use tlb::access::{Kind, Request};
use tlb::hint::FetchHint;
use tlb::work::Work;
use walk::fsc::FSC_EXTERNAL;
use walk::regime::Bank;
use word::ram::Width;

// An external abort's.
fn external() -> Fault
    ensures { result ≡ external }
{
    fault::first(FSC_EXTERNAL)
}

fn data_abort(addr: u64, write: bool, fault: Fault) -> Stop
    ensures { result ≡ data_abort addr write fault }
{
    Stop::Exception(Exception::DataAbort(DataAbort { addr, write, fault }))
}

#[tactic(auto, unfolding(crate::specs::Memory::past_hint_of, crate::specs::Memory::past_hint_step, crate::specs::Core::after_access, crate::specs::Work::past_hint_work, crate::specs::Memory::translate_of, crate::specs::Memory::stepped_now, crate::specs::Memory::translate_in, crate::specs::Work::translate_work, crate::specs::Memory::translate_fetch_of, crate::specs::Memory::fetch_stepped_now, crate::specs::Memory::translate_fetch_in, crate::specs::Work::fetch_work, crate::specs::Memory::translate_access_of, crate::specs::Memory::located_now, crate::specs::Memory::located_of, crate::specs::Work::access_work, crate::specs::Memory::read_of, crate::specs::Bytes::load_end, crate::specs::Memory::write_of, crate::specs::Memory::ram_after_write, crate::specs::Bytes::store_end, crate::specs::Bytes::store_ram_end, crate::specs::Memory::fetch_of, crate::specs::Bytes::fetch_end, crate::specs::Memory::fetch_pa_of, crate::specs::Memory::data_pa_of), using(crate::proofs::ReadLaws::first_work, crate::proofs::BytesLaws::len))]
impl Core {
    // An access as the core makes it. The level is read once, for the regime's registers and for the rights.
    #[inline(always)]
    fn request(&self, va: u64, kind: Kind) -> Request
        ensures { result ≡ record { bank = bank_now self.now; privilege = self.now.privilege; va = va; kind = kind } }
    {
        let privilege = self.privilege;
        let bank = Bank::new(&self.control, Regime::of_level(privilege.level));
        Request {
            bank,
            privilege,
            va,
            kind,
        }
    }

    /// The answer of a translation that no hint serves, where no walk is needed. RAM is read by no code here.
    #[inline(always)]
    pub fn at_hand(
        &mut self,
        base: u64,
        ram: &[u8],
        va: u64,
        kind: Kind,
    ) -> Option<Result<u64, Fault>>
        ensures answer { HandedNow self.old (word_at base ram.now 8) va kind result self.new }
        ensures kept { KeptNow self.old result self.new }
    {
        let a = self.request(va, kind);
        self.tlb.at_hand(a, base, ram)
    }

    /// A translation by a walk: where one is needed, the translation.
    #[inline(always)]
    pub fn by_walk(
        &mut self,
        base: u64,
        ram: &[u8],
        va: u64,
        kind: Kind,
        work: &mut Work,
    ) -> Result<u64, Fault>
        ensures core { NeedsWalkNow self.old (word_at base ram.now 8) va kind
            → record { core = self.new; answer = result } ≡ past_hint_of self.old (word_at base ram.now 8) va kind }
        ensures work { NeedsWalkNow self.old (word_at base ram.now 8) va kind
            → work.new ≡ past_hint_work self.old (word_at base ram.now 8) va kind work.old }
    {
        let a = self.request(va, kind);
        self.tlb.by_walk(a, base, ram, work)
    }

    // A translation that no hint serves. Out of line, and reads the registers itself, so that a hint pays nothing for
    // it.
    #[inline(never)]
    fn translate_slow(
        &mut self,
        base: u64,
        ram: &[u8],
        va: u64,
        kind: Kind,
        work: &mut Work,
    ) -> Result<u64, Fault>
        ensures core { record { core = self.new; answer = result }
            ≡ past_hint_of self.old (word_at base ram.now 8) va kind }
        ensures work { work.new ≡ past_hint_work self.old (word_at base ram.now 8) va kind work.old }
    {
        match self.at_hand(base, ram, va, kind) {
            Some(answer) => answer,
            None => self.by_walk(base, ram, va, kind, work),
        }
    }

    /// Where an access of the kind to va goes: the data hint first, which is asked once. The fetch hint is neither used
    /// nor set.
    #[inline(always)]
    pub fn translate(
        &mut self,
        base: u64,
        ram: &[u8],
        va: u64,
        kind: Kind,
        work: &mut Work,
    ) -> Result<u64, Fault>
        ensures core { record { core = self.new; answer = result }
            ≡ translate_of self.old (word_at base ram.now 8) va kind }
        ensures work { work.new ≡ translate_work self.old (word_at base ram.now 8) va kind work.old }
    {
        match self.tlb.by_hint(self.privilege, va, kind) {
            Some(pa) => Ok(pa),
            None => self.translate_slow(base, ram, va, kind, work),
        }
    }

    /// The translation that a fetch begins with: by the fetch hint, and else one that leaves it.
    #[inline(always)]
    pub fn translate_fetch(
        &mut self,
        base: u64,
        ram: &[u8],
        va: u64,
        work: &mut Work,
    ) -> Result<u64, Fault>
        ensures core { record { core = self.new; answer = result }
            ≡ translate_fetch_of self.old (word_at base ram.now 8) va }
        ensures work { work.new ≡ fetch_work self.old (word_at base ram.now 8) va work.old }
    {
        if let Some(pa) = self.tlb.by_fetch_hint(self.privilege.level, va) {
            return Ok(pa);
        }
        let pa = self.translate_slow(base, ram, va, Kind::Fetch, work)?;
        self.tlb.fetch = Some(FetchHint::new(va, self.privilege.level, pa));
        Ok(pa)
    }

    /// The translations of an access, before a byte moves: one, or two where it crosses a page. The first one's effects
    /// remain where the second faults.
    #[inline(always)]
    pub fn translate_access(
        &mut self,
        base: u64,
        ram: &[u8],
        va: u64,
        width: Width,
        kind: Kind,
        work: &mut Work,
    ) -> Result<Place, FaultAt>
        ensures core { record { core = self.new; answer = result }
            ≡ translate_access_of self.old (word_at base ram.now 8) va (bytes_in width) kind }
        ensures work { work.new
            ≡ access_work self.old (word_at base ram.now 8) va (bytes_in width) kind work.old }
    {
        let on = self.bank().stage1_on(self.regime());
        let first = self.translate(base, ram, va, kind, work);
        let pa = first.map_err(|fault| FaultAt {
            addr: va,
            fault,
            first: None,
        })?;
        if !place::crosses(on, va, width.bytes()) {
            return Ok(Place::Whole(pa));
        }
        let next = place::next_page(va);
        let second = self.translate(base, ram, next, kind, work);
        let pa2 = second.map_err(|fault| FaultAt {
            addr: next,
            fault,
            first: Some(pa),
        })?;
        let in_page = place::in_page(va);
        Ok(Place::Split(Pages { in_page, pa, pa2 }))
    }

    /// The value of a width's bytes from va on. `last_pa` is the first byte's physical address once the translations
    /// have succeeded, also where the load then aborts. An error is a data abort of a read: a fault of its page, or an
    /// external abort at the lowest byte outside RAM, whose physical address `abort_pa` then is.
    pub fn read(
        &mut self,
        base: u64,
        ram: &[u8],
        va: u64,
        width: Width,
        work: &mut Work,
    ) -> Result<u64, Stop>
        ensures core { record { core = self.new; answer = result }
            ≡ read_of self.old base ram.now va (bytes_in width) }
        ensures work { work.new ≡ read_work self.old base ram.now va (bytes_in width) work.old }
    {
        let place = match self.translate_access(base, ram, va, width, Kind::Read, work) {
            Ok(place) => place,
            Err(at) => return Err(self.failed(base, ram, va, at, false)),
        };
        self.last_pa = place.first_pa();
        match bytes::load(base, ram, place, width) {
            Ok(v) => Ok(v),
            Err(out) => Err(self.external_abort(out, va, false)),
        }
    }

    /// A store of the low bytes of a value. A split one keeps the bytes before the lowest outside RAM. An error is a
    /// data abort of a write, as a load's.
    pub fn write(
        &mut self,
        base: u64,
        ram: &mut [u8],
        va: u64,
        width: Width,
        value: u64,
        work: &mut Work,
    ) -> Result<(), Stop>
        ensures core { record { core = self.new; answer = result }
            ≡ write_of self.old base ram.old va (bytes_in width) }
        ensures ram { ram.new ≡ ram_after_write self.old base ram.old va (bytes_in width) value }
        ensures work { work.new ≡ write_work self.old base ram.old va (bytes_in width) work.old }
    {
        let place = match self.translate_access(base, ram, va, width, Kind::Write, work) {
            Ok(place) => place,
            Err(at) => return Err(self.failed(base, ram, va, at, true)),
        };
        match bytes::store(base, ram, place, width, value) {
            Ok(()) => Ok(()),
            Err(out) => Err(self.external_abort(out, va, true)),
        }
    }

    // A translation of the access to va faulted. The lowest failing byte decides: one of the first page that lies
    // outside RAM comes before a fault of the second.
    fn failed(&mut self, base: u64, ram: &[u8], va: u64, at: FaultAt, write: bool) -> Stop
        ensures answer { result ≡ failed_access (first_part base (length ram.now) va at.first) at va write }
        ensures core { self.new ≡ record self.old
            { abort_pa = abort_after (first_part base (length ram.now) va at.first) self.old.abort_pa } }
    {
        match place::first_part(base, ram.len() as u64, va, at.first) {
            Ok(()) => data_abort(at.addr, write, at.fault),
            Err(out) => self.external_abort(out, va, write),
        }
    }

    // The access to va aborted at the byte that is outside: record where and say so.
    fn external_abort(&mut self, out: Outside, va: u64, write: bool) -> Stop
        ensures answer { result ≡ external_abort va out.index write }
        ensures core { self.new ≡ record self.old { abort_pa = out.pa } }
    {
        self.abort_pa = out.pa;
        data_abort(va.wrapping_add(out.index), write, external())
    }

    /// The instruction at va, by the fetch hint first: four bytes, never split. An error is an instruction abort at va.
    #[inline(always)]
    pub fn fetch(
        &mut self,
        base: u64,
        ram: &[u8],
        va: u64,
        work: &mut Work,
    ) -> Result<u32, Exception>
        ensures core { record { core = self.new; answer = result } ≡ fetch_of self.old base ram.now va }
        ensures work { work.new ≡ fetch_work self.old (word_at base ram.now 8) va work.old }
    {
        let at = self.translate_fetch(base, ram, va, work);
        let pa = at.map_err(|fault| Exception::InsnAbort(InsnAbort { addr: va, fault }))?;
        match bytes::insn_at(base, ram, pa) {
            Some(insn) => Ok(insn),
            None => Err(self.fetch_abort(pa, va)),
        }
    }

    // The instruction fetch aborted on the bus: record where and say so.
    fn fetch_abort(&mut self, pa: u64, va: u64) -> Exception
        ensures answer { result ≡ insn_abort_at va external }
        ensures core { self.new ≡ record self.old { abort_pa = pa } }
    {
        self.abort_pa = pa;
        Exception::InsnAbort(InsnAbort {
            addr: va,
            fault: external(),
        })
    }

    /// Where a fetch of va goes, by the same hint, which a new page refreshes.
    #[inline(always)]
    pub fn fetch_pa(&mut self, base: u64, ram: &[u8], va: u64, work: &mut Work) -> Option<u64>
        ensures core { record { core = self.new; answer = result } ≡ fetch_pa_of self.old (word_at base ram.now 8) va }
        ensures work { work.new ≡ fetch_work self.old (word_at base ram.now 8) va work.old }
    {
        self.translate_fetch(base, ram, va, work).ok()
    }

    /// Where a data read of va goes.
    #[inline(always)]
    pub fn data_pa(&mut self, base: u64, ram: &[u8], va: u64, work: &mut Work) -> Option<u64>
        ensures core { record { core = self.new; answer = result } ≡ data_pa_of self.old (word_at base ram.now 8) va }
        ensures work { work.new ≡ translate_work self.old (word_at base ram.now 8) va Read work.old }
    {
        self.translate(base, ram, va, Kind::Read, work).ok()
    }
}
