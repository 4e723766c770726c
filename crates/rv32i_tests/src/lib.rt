// RV32I: the machine beside an independent one, the decoder beside an independent assembler, and the stops.
#![tactic(auto)]

#[cfg(test)]
mod bench;
#[cfg(test)]
mod decodes;
#[cfg(test)]
mod executes;
#[cfg(test)]
mod rows;
#[cfg(test)]
mod states;
#[cfg(test)]
mod stops;
#[cfg(test)]
mod table;
#[cfg(test)]
mod words;
