#![tactic(auto)]
// The handles of a core and of a cluster: what a caller in another language holds of them, and the two places where a
// raw pointer is followed.
ghost use Rattle.std.specs.Prelude.{◌≡◌};
ghost use Rattle.std.specs.Borrow.{full_share};
ghost use Rattle.std.specs.Ptr.{lies_at};
ghost use types.Logic.{sem};
ghost use Rattle.cpu.specs.declared.Core.{Core};
ghost use Rattle.cpu.specs.contracts.Core.{the_row as core_row};

mod four;

use cpu::Core;
pub use four::ClusterHandle;
use std::marker::Model;

/// The address of a core in memory that the caller keeps. The core that lies there is the handle's own: nothing else
/// reads or writes it while the handle is in use.
#[repr(C)]
pub struct Handle {
    at: *mut Core,
    pub ghost core: { Core },
}

impl Model for Handle {
    ghost also_owns = { λ h. lies_at core_row full_share h.at h.core };
}

impl Handle {
    ghost use Rattle.handle.specs.Lending.{lends_core};

    /// The core, lent for as long as the handle is: what is written through the reference is the handle's core after.
    pub fn core(&mut self) -> &mut Core
        ensures* writes_back { sem 𝓛 (lends_core self.entry result) }
        ensures value { result.now ≡ self.old.core }
    {
        unsafe { &mut *self.at }
    }
}
