//! Tests of whole calls of the program, each a row of a table. The crate holds nothing else.

#![tactic(auto)]

#[cfg(test)]
mod adapters;
#[cfg(test)]
mod answers;
#[cfg(test)]
mod audits;
#[cfg(test)]
mod case;
#[cfg(test)]
mod faults;
#[cfg(test)]
mod inputs;
#[cfg(test)]
mod joins;
#[cfg(test)]
mod limits;
#[cfg(test)]
mod memory;
#[cfg(test)]
mod opened;
#[cfg(test)]
mod replays;
#[cfg(test)]
mod reserves;
#[cfg(test)]
mod slips;
