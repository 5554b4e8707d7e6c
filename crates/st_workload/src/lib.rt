//! A workload made from a seed: identifiers, each with its own key and with the requests that
//! create it and update it in each round, and an order of events in which a node may receive the
//! results. The same seed makes the same workload, byte for byte.
#![tactic(auto)]

mod deltas;
mod identity;
mod keys;
mod order;
mod requests;

pub use identity::{Identity, all_identities};
pub use order::events;
