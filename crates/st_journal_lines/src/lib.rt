//! A machine of lines that survives stops: each line that changes it is recorded in a journal
//! before its reply, and replaying the records restores it.
#![tactic(auto)]

mod lines;
mod running;

pub use lines::{JournalLines, Replayable};
pub use running::{journal_law, run_journalled};
