#![tactic(auto)]
// The static library over handles: each call under its name for C, on the core that the handle lends. A crate that
// others see exports nothing, so the exports stand alone here.
mod calls;
mod cycles;
mod parts;
mod state;
