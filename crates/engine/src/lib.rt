// One use of the DAT side: turns that fetch lines and move bytes, blocks given and taken. By value: a step gives the next
// state. The one-block buffer is lent beside it.
#![tactic(auto)]

pub mod block;
mod buffer;
pub mod transfer;
pub mod turn;
