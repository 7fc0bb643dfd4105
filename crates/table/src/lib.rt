// The ADMA2 descriptor table (000 section 1.13): lines within the lent memory, the fetch of one, the survey of all.
#![tactic(auto)]

pub mod fetch;
pub mod line;
pub mod memory;
pub mod survey;
pub mod written;
