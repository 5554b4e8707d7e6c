//! The ledger: entries of a height and a text, whose heights never fall, and the content of anchor
//! strings.
#![tactic(auto)]

mod anchor;
mod ledger;

pub use anchor::{Anchor, AnchorRule, read_anchor};
pub use ledger::{Entry, Ledger, LedgerRefused};
