//! The tests that take over 20 seconds if they are compiled without optimization.
#![tactic(auto)]

#[cfg(test)]
mod batches;
#[cfg(test)]
mod large_files;
#[cfg(test)]
mod signatures;
#[cfg(test)]
mod sizes;
#[cfg(test)]
mod wallets;
#[cfg(test)]
mod workloads;
