// A writable disk over a readable one: what is written stays in a table, and the disk below is only read.
#![tactic(auto)]

mod entry;
mod kept;
mod layer;

pub use layer::Overlay;
