#![tactic(auto)]
// A run of calls on a core that is lent, with faithfulness of the whole list in its contract.
ghost use Rattle.std.specs.Prelude.{◌≡◌, ◌+◌, ◌/◌, ◌≤◌, length};
ghost use Rattle.call_words.specs.Ops.{call_of};
ghost use Rattle.core_transparency.specs.Run.{eight, reached, RunPromise};

pub mod theorems;

use core_calls::step;
use cpu::Core;

// The eight words of a call.
fn op_at(ops: &[u64], at: usize) -> [u64; 8]
    requires { at + 8 ≤ length ops.now }
    ensures { result ≡ eight ops.now at }
{
    [
        ops[at],
        ops[at + 1],
        ops[at + 2],
        ops[at + 3],
        ops[at + 4],
        ops[at + 5],
        ops[at + 6],
        ops[at + 7],
    ]
}

// The core as after reset; then the calls of ops, eight words to a call, each on RAM as the last one left it; then
// one call more, whose number and answer are given. Whatever the calls were, the last one's answer is faithful.
pub fn run(
    core: &mut Core,
    ops: &[u64],
    last: &[u64; 8],
    base: u64,
    ram: &mut [u8],
    ans: &mut [u64; 5],
) -> u64
    ensures { RunPromise (call_of last.now)
        (reached (length ops.now / 8) ops.now base ram.old)
        base result ans.new ram.new core.new }
{
    *core = Core::new();
    let n = ops.len() / 8;
    let mut k: usize = 0;
    while k < n {
        let at = k * 8;
        let op = op_at(ops, at);
        step::step(core, &op, base, ram, ans);
        k += 1;
    }
    step::step(core, last, base, ram, ans)
}
