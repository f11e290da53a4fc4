// The U5's processor: its registers, and what its next instruction does or asks.
#![tactic(auto)]

mod bytes;
mod decide;
pub mod ending;
pub mod outcome;
pub mod registers;
mod request;
mod step;
mod width;
