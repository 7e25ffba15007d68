// Register writes, settings and abort entry on the core.
#![tactic(auto, unfolding(crate::specs::System::refit_of, tlb::specs::Tlb::reshaped_of, tlb::specs::Tlb::retagged_of, crate::specs::System::after_register_write, crate::specs::System::applied_of, crate::specs::System::with_regs, crate::specs::Core::after_access, crate::specs::System::set_level, crate::specs::System::set_mark, crate::specs::System::abort_of))]

ghost use Rattle.std.specs.Prelude.{◌≡◌};
ghost use Rattle.cpu.specs.System.{refit_of, after_register_write, set_level, set_mark, abort_of};

use crate::Core;
use exception::enter;
use exception::kind::Exception;
use sysreg::regs::Control;
use sysreg::write;
use sysreg::write::WriteError;
use tlb::Tlb;

// What a register write does to the cache: where the shape changed, a flush; then, where the ASID differs from the
// cache's, a retag.
#[inline(always)]
fn refit(t: &mut Tlb, before: Control, after: Control)
    ensures { t.new ≡ refit_of t.old before after }
{
    if !before.same_shaping(&after) {
        t.flush();
    }
    let asid = after.asid();
    if t.asid != asid {
        t.retag(asid);
    }
}

impl Core {
    /// A register write: the register, then the cache. One that is not done changes nothing.
    #[inline(always)]
    pub fn write_reg(&mut self, key: u32, value: u64) -> Result<(), WriteError>
        ensures { record { core = self.new; answer = result } ≡ after_register_write self.old key value }
    {
        let before = self.control;
        write::write_reg(
            &mut self.control,
            &mut self.sys,
            self.privilege.level,
            key,
            value,
        )?;
        refit(&mut self.tlb, before, self.control);
        Ok(())
    }

    /// The level is set.
    pub fn set_level(&mut self, level: u8)
        ensures { self.new ≡ set_level self.old level }
    {
        self.privilege.level = level;
    }

    /// The mark is set or cleared.
    pub fn set_mark(&mut self, mark: bool)
        ensures { self.new ≡ set_mark self.old mark }
    {
        self.privilege.unprivileged = mark;
    }

    /// A synchronous exception at the PC is routed and taken.
    #[inline(always)]
    pub fn take_sync(&mut self, e: Exception)
        ensures { self.new ≡ abort_of self.old e }
    {
        enter::take_sync(
            &mut self.privilege.level,
            &mut self.flags,
            &mut self.pc,
            &mut self.sys,
            &self.control,
            e,
        );
    }
}
