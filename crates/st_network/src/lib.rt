//! Four nodes in one process, and the messages between them: a message is delivered when a line
//! says so, also repeatedly or never. So the network between the nodes may lose, repeat and
//! reorder. A node receives a file by a message only if it wants it, by its own URI.
#![tactic(auto)]

mod command;
mod letters;
mod network;
mod steps;

pub use letters::Letter;
pub use network::{Network, exchange_law, run_exchange};
