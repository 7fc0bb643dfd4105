// The record that a supervisor keeps for each slot, and the steps that update it where it is kept. A record is
// numbers and nothing else, so every pattern of bytes is one; `record` says which state of the controller it spells.
#![tactic(auto)]

pub mod lines;
pub mod record;
pub mod step;
