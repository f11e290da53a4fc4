// Sittings: a candidate's instructions, counted by a token that must be settled or voided.
#![tactic(auto)]

pub mod calls;
pub mod refusal;
pub mod token;
