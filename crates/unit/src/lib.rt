//! The page fields, the reader of the boot table that sets them, and the protection unit that
//! checks each access by them.
#![tactic(auto)]

mod access;
pub mod fields;
pub mod reader;
mod row;
pub mod visit;
