//! The guard: boot, and the calls of the executive and of the apps.
#![tactic(auto)]

pub mod console;
pub mod inspection;
pub mod tables;
pub mod turn;
