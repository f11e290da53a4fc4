// The library for callers in other languages: numbers and slices cross, and a whole history of calls is made at once.
#![tactic(auto)]

mod asked;
pub mod call;
pub mod exports;
mod replies;
mod serve;
mod single;
