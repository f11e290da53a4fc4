// The exam station: start, run, feed, collect and tally, over any disk and console.
#![tactic(auto)]

pub mod answer;
mod attempt;
mod device;
mod look;
mod queues;
mod run;
mod start;
mod tally;
pub mod unit;
