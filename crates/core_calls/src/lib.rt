#![tactic(auto)]
// The calls on a core that is lent: numbers and words in and out. 0 done; 1 to 63 the number of the check that a call
// misses; 64 where words name nothing; 65 Undefined; 66 Unimplemented; 256 plus the status of a fault. From 1 to 255
// nothing is written: not the core, not RAM, not the answer; but for windows' 10, where their words tell the page.
pub mod inspect;
pub mod memory;
pub mod settings;
pub mod step;
pub mod theorems;
