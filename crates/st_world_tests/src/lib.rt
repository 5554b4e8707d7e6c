//! The tests of the ledger, of files by URI, of entries, and of messages between nodes.
#![tactic(auto)]

#[cfg(test)]
mod anchor;
#[cfg(test)]
mod content;
#[cfg(test)]
mod exchange;
#[cfg(test)]
mod ledger;
#[cfg(test)]
mod words;
