//! The tests of the driver, of a node, of generated workloads, and of four nodes and their
//! messages.
#![tactic(auto)]

#[cfg(test)]
mod drive;
#[cfg(test)]
mod generate;
#[cfg(test)]
mod network;
#[cfg(test)]
mod node;
