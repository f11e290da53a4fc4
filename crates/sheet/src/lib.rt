// Sheets: what an ended station is marked by.
#![tactic(auto)]

mod fields;
mod line;
pub mod mark;
pub mod refusal;
pub mod remains;
pub mod sheet;
