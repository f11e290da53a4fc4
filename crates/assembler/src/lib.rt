// The assembler and the lister: from a text to words, and back.
#![tactic(auto)]

pub mod assembler;
mod keyword;
mod line;
pub mod lister;
mod listing;
mod operand;
mod writer;
