//! The slot table: eight slots with the apps' chains, and the questions about slots, chains and passwords.
#![tactic(auto)]

mod chain;
pub mod running;
pub mod slot;
pub mod slots;
