// The U5's instructions: operations, operands, and the words that encode them.
#![tactic(auto)]

pub mod alias;
pub mod encoding;
pub mod instruction;
pub mod operand;
pub mod operation;
