#![tactic(auto)]
//! Replays recorded answers on the proved core: each argument names a record; each difference is shown, then what was
//! replayed. The status is 1 where there is a difference.
mod cases;
mod judge;
mod lines;
mod replay;
mod stop;
mod words;

use replay::Replay;
use std::io::BufWriter;
use std::process::ExitCode;
use std::{env, io};

fn main(rt: HostRuntime) -> io::Result<ExitCode> {
    let mut out = BufWriter::new(rt.alloc(), io::writer(&rt))?;
    let mut replay = Replay::new(&mut out, rt.alloc())?;
    for name in env::args(&rt)?.skip(1) {
        replay.file(&rt, name.as_str())?;
    }
    Ok(if replay.finish()? {
        ExitCode::SUCCESS
    } else {
        ExitCode::FAILURE
    })
}
