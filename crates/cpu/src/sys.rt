// System operations on the core. The descriptors that one reads are added to its `work`.
#![tactic(auto, unfolding(crate::specs::System::at_of, crate::specs::System::with_par, crate::specs::Work::at_work, crate::specs::System::tlbi_core, tlb::specs::Tlb::invalidated_of, crate::specs::Core::after_access, crate::specs::System::sys_of, crate::specs::System::sys_ram, crate::specs::Work::sys_work), using(crate::proofs::ZeroLaws::zero_steps))]

ghost use Rattle.std.specs.Prelude.{◌≡◌};
ghost use Rattle.word.specs.Bits.{align_down};
ghost use Rattle.word.specs.Ram.{word_at};
ghost use Rattle.cpu.specs.System.{at_of, tlbi_core, zero_of, zero_ram, sys_of, sys_ram};
ghost use Rattle.cpu.specs.Work.{at_work, zero_work, sys_work};

use crate::Core;
use exception::kind::{Exception, Stop};
use system::decode::{AtForm, Encoding, SysOp};
use system::{decode, par, tlbi};
use tlb::work::Work;
use word::ram::Width;

impl Core {
    /// AT: a fresh walk into PAR_EL1.
    #[inline(always)]
    pub fn at(&mut self, base: u64, ram: &[u8], form: AtForm, va: u64, work: &mut Work)
        ensures core { self.new ≡ at_of self.old (word_at base ram.now 8) form va }
        ensures work { work.new ≡ at_work self.old (word_at base ram.now 8) form va work.old }
    {
        let mair = self.sys.mair[form.regime.index()];
        let (par, reads) = par::at(&self.control, mair, form, va, base, ram);
        self.sys.par_el1 = par;
        work.add_reads(reads);
    }

    /// TLBI; the Inner Shareable forms reach the other cores.
    pub fn tlbi(&mut self, e: Encoding, x: u64)
        ensures { self.new ≡ tlbi_core self.old e.op1 e.crm e.op2 x }
    {
        let what = tlbi::tlbi(&self.control, e, x);
        self.tlb.invalidate(what);
        if e.crm == 3 {
            self.tlb.broadcast(what);
        }
    }

    // The n stores of a zeroing from va on, up to the first that stops.
    fn zero_from(
        &mut self,
        base: u64,
        ram: &mut [u8],
        va: u64,
        n: u64,
        work: &mut Work,
    ) -> Result<(), Stop>
        ensures value { record { core = self.new; answer = result } ≡ zero_of n self.old base ram.old va }
        ensures ram_after { ram.new ≡ zero_ram n self.old base ram.old va }
        ensures work { work.new ≡ zero_work n self.old base ram.old va work.old }
    {
        if n == 0 {
            return Ok(());
        }
        self.write(base, ram, va, Width::Double, 0, work)?;
        self.zero_from(base, ram, va.wrapping_add(8), n - 1, work)
    }

    /// DC ZVA: 64 bytes, aligned.
    #[inline(always)]
    pub fn zva(&mut self, base: u64, ram: &mut [u8], x: u64, work: &mut Work) -> Result<(), Stop>
        ensures value { record { core = self.new; answer = result } ≡ zero_of 8 self.old base ram.old (align_down x 6) }
        ensures ram_after { ram.new ≡ zero_ram 8 self.old base ram.old (align_down x 6) }
        ensures work { work.new ≡ zero_work 8 self.old base ram.old (align_down x 6) work.old }
    {
        self.zero_from(base, ram, x & !63, 8, work)
    }

    /// A system operation.
    #[inline(always)]
    pub fn sys(
        &mut self,
        base: u64,
        ram: &mut [u8],
        e: Encoding,
        work: &mut Work,
    ) -> Result<(), Stop>
        ensures value { record { core = self.new; answer = result }
            ≡ sys_of self.old base ram.old e.op1 e.crn e.crm e.op2 e.rt }
        ensures ram_after { ram.new ≡ sys_ram self.old base ram.old e.op1 e.crn e.crm e.op2 e.rt }
        ensures work { work.new ≡ sys_work self.old base ram.old e.op1 e.crn e.crm e.op2 e.rt work.old }
    {
        let x = self.reg(e.rt);
        match decode::decode(self.privilege.level, e) {
            SysOp::At(form) => self.at(base, ram, form, x, work),
            SysOp::Tlbi => self.tlbi(e, x),
            SysOp::Zva => return self.zva(base, ram, x, work),
            SysOp::Nothing => {}
            SysOp::Undefined => return Err(Stop::Exception(Exception::Undefined)),
            SysOp::Unimplemented => return Err(Stop::Unimplemented),
        }
        Ok(())
    }
}
