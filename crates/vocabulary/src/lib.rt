//! The words that every layer of the guard shares: parameters, rights, accesses, where a password
//! was found, and refusals.
#![tactic(auto)]

pub mod access;
pub mod found;
pub mod parameter;
pub mod refusal;
