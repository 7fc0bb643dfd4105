// One slot by value: every entry of document 01. A step takes the slot and gives its value and the slot after it, or why it is refused; memory, the
// one-block buffer and the room of a taken block are lent beside it.
#![tactic(auto)]

pub mod access;
pub mod card;
pub mod command;
pub mod data;
pub mod slot;
