#![tactic(auto)]
// The static library over handles of four cores: each call under its name for C, on the cluster that the handle lends.
// An object of its own, so that the code of a single core's calls is made as if there were no others.
mod calls;
mod state;
