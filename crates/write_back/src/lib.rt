// The write-back layer: a section memory over any other that holds back some writes to what the section has read.
#![tactic(auto)]

pub mod layer;
mod own_pairs;
pub mod pair;
pub mod piles;
