// The instructions of RV32I and their decoding.
#![tactic(auto)]

pub mod decode;
mod fields;
pub mod instruction;
