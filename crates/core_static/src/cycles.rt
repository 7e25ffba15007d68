// A number of cycles as sample frames. No core is asked.
ghost use Rattle.std.specs.Prelude.{◌≡◌, ◌*◌, ◌/◌, ◌%◌};
ghost use Rattle.frames.specs.declared.Rate.TheVariants.{Hz48000, Hz44100};
ghost use Rattle.frames.specs.Frames.{whole_of, rest_of};

use frames::Rate;

// The whole frames; in `left` what remains of the next.
#[inline]
fn split(rate: Rate, cycles: u64, left: &mut u64) -> u64
    ensures whole { result ≡ whole_of rate cycles }
    ensures rest { left.new ≡ rest_of rate cycles }
{
    let frames = rate.frames(cycles);
    *left = frames.rest;
    frames.whole
}

/// Whole frames at 48,000 a second; in `left` the cycles that remain of the next.
#[unsafe(no_mangle)]
pub extern "C" fn a72_frames_48000(cycles: u64, left: &mut u64) -> u64
    ensures whole { result ≡ whole_of Hz48000 cycles }
    ensures rest { left.new ≡ rest_of Hz48000 cycles }
    ensures frames { result ≡ cycles / 31250 }
    ensures remains { left.new ≡ cycles % 31250 }
{
    split(Rate::Hz48000, cycles, left)
}

/// Whole frames at 44,100 a second; in `left` the 147ths of a cycle that remain of the next.
#[unsafe(no_mangle)]
pub extern "C" fn a72_frames_44100(cycles: u64, left: &mut u64) -> u64
    ensures whole { result ≡ whole_of Hz44100 cycles }
    ensures rest { left.new ≡ rest_of Hz44100 cycles }
    ensures frames { result ≡ cycles * 147 / 5000000 }
    ensures remains { left.new ≡ cycles * 147 % 5000000 }
{
    split(Rate::Hz44100, cycles, left)
}
