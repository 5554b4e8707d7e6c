//! The wallet as a machine of lines over a disk: it makes a vault, gives its keys, writes requests
//! for operations, and signs messages with two levels. The counter of each signature was spent on
//! the disk before.
#![tactic(auto)]

mod command;
mod draft;
mod planning;
mod replies;
mod requests;
mod signing_vault;
mod wallet;

pub use command::LONGEST_LINE;
pub use signing_vault::WalletRefused;
pub use wallet::{Wallet, counters_law};
