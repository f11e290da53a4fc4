// Texts of lines and fields: readers that hand out parts of a text, numbers, and what can be wrong.
#![tactic(auto)]

pub mod fault;
pub mod fields;
mod find;
pub mod lines;
pub mod number;
