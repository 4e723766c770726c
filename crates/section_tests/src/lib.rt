// Piles of section memories, executed against a plain model.
#![tactic(auto)]

#[cfg(test)]
mod calls;
#[cfg(test)]
mod model;
#[cfg(test)]
mod own_memory;
#[cfg(test)]
mod piles;
#[cfg(test)]
mod rows;
