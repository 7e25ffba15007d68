// One call on the core.
ghost use Rattle.std.specs.Prelude.{◌≡◌};
ghost use Rattle.cpu.specs.Step.{run_of, ram_of, step_of, ram_after};
ghost use Rattle.cpu.specs.Work.{run_work, step_work};

use crate::call::{Call, Reply};
use crate::check::Check;
use crate::{Core, check};
use tlb::work::Work;
use word::ram::Width;

#[tactic(auto, unfolding(crate::specs::Step::run_of, crate::specs::Step::ram_of, crate::specs::Work::run_work, crate::specs::Step::step_of, crate::specs::Step::ram_after, crate::specs::Work::step_work))]
impl Core {
    // The operation that a call is.
    fn run(&mut self, base: u64, ram: &mut [u8], call: Call, work: &mut Work) -> Reply
        ensures core { record { core = self.new; reply = result } ≡ run_of self.old base ram.old call }
        ensures ram { ram.new ≡ ram_of self.old base ram.old call }
        ensures work { work.new ≡ run_work self.old base ram.old call work.old }
    {
        match call {
            Call::Translate(kind, va) => {
                Reply::translated(va, self.translate(base, ram, va, kind, work))
            }
            Call::DataPa(va) => Reply::reached(self.data_pa(base, ram, va, work)),
            Call::FetchPa(va) => Reply::reached(self.fetch_pa(base, ram, va, work)),
            Call::Load(va, size) => match Width::of_size(size) {
                Some(width) => Reply::from(self.read(base, ram, va, width, work)),
                None => Reply::from(Check::Size),
            },
            Call::Store(va, size, value) => match Width::of_size(size) {
                Some(width) => Reply::from(self.write(base, ram, va, width, value, work)),
                None => Reply::from(Check::Size),
            },
            Call::Fetch(va) => Reply::from(self.fetch(base, ram, va, work)),
            Call::System(e) => Reply::from(self.sys(base, ram, e, work)),
            Call::Register(key, value) => Reply::from(self.write_reg(key, value)),
            Call::Level(level) => {
                self.set_level((level % 4) as u8);
                Reply::Done
            }
            Call::Mark(mark) => {
                self.set_mark(mark);
                Reply::Done
            }
            Call::General(number, value) => {
                self.set_reg(number, value);
                Reply::Done
            }
            Call::Abort(e) => {
                self.take_sync(e);
                Reply::Done
            }
            Call::Census(_, _) | Call::Windows | Call::Flip(..) => Reply::Done,
        }
    }

    /// The number of the first check that the call misses, and then nothing changes; else the operation. The
    /// descriptors that it reads are added to `work`.
    pub fn step(&mut self, base: u64, ram: &mut [u8], call: Call, work: &mut Work) -> Reply
        ensures core { record { core = self.new; reply = result } ≡ step_of self.old base ram.old call }
        ensures ram { ram.new ≡ ram_after self.old base ram.old call }
        ensures work { work.new ≡ step_work self.old base ram.old call work.old }
    {
        match check::missed(self.privilege.level, base, ram.len() as u64, call) {
            Ok(()) => self.run(base, ram, call, work),
            Err(check) => Reply::from(check),
        }
    }
}
