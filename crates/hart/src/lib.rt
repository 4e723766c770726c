// One hart of RV32I: its registers, what instructions compute, and what the next instruction does.
#![tactic(auto)]

pub mod action;
mod alu;
pub mod plan;
pub mod state;
