// The register block of one slot (000 chapter 2): where an access goes, what each word stores and shows, the interrupt
// bits and the line, the resets. What lies outside the block is handed in as `Facts`.
#![tactic(auto)]

mod bits;
pub mod block;
pub mod interrupt;
pub mod place;
pub mod reset;
pub mod word;
