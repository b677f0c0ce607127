//! Functions that carry the theorems about the rules: a function's contract is the statement, and its
//! result tells no more. They are alike in their bodies alone: each has a statement of its own.
pub mod conditions;
pub mod edges;
pub mod isolation;
pub mod worked_console;
