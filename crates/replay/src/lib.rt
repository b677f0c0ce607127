//! Performs lists of calls on a newly booted console, and tells what each was answered.
#![tactic(auto)]

pub mod call;
pub mod run;
pub mod stage;
