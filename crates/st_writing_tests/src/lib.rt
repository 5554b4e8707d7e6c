//! The tests of writing: batches, the wallet, the journal, workloads.
#![tactic(auto)]

#[cfg(test)]
mod batch;
#[cfg(test)]
mod journal;
#[cfg(test)]
mod wallet;
#[cfg(test)]
mod workload;
