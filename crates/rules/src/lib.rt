//! The rules of the memory guard: what each call answers and leaves, and what holds of every run.
//!
//! The rules are definitions, under `specs/`, for the contracts of the other crates.
#![tactic(auto)]

pub mod theorems;
