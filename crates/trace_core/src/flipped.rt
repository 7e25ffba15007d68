//! What a flip is answered.
ghost use Rattle.std.specs.Prelude.{◌≡◌};
ghost use Rattle.flip.specs.Flip.{flip_of};
ghost use Rattle.trace_core.specs.Flipped.{flip_told};

use cpu::Core;
use cpu::call::Reply;
use flip::flip;
use tlb::access::Kind;
use trace_text::answer::Answer;

/// The first bit of RAM whose flip changes the answer to an access, or the number of the check that the call misses.
pub fn answer(core: &Core, base: u64, ram: &mut [u8], va: u64, kind: Kind, user: bool) -> Answer
    ensures answer { result
        ≡ flip_told (flip_of core.now.control core.now.privilege.level base ram.old va kind user) }
    ensures ram { ram.new ≡ ram.old }
{
    match flip(core, base, ram, va, kind, user) {
        Ok(bit) => Answer::Flipped(bit),
        Err(check) => Answer::Reply(Reply::Refused(check.number())),
    }
}
