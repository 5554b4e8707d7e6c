//! The batch writer: it queues a bounded number of requested operations, at most one for each
//! suffix, and a flush makes a batch of the first of them: an anchor string and its files (DIF
//! Sidetree v1.0.0, "File Structures").
#![tactic(auto)]

mod asked;
mod batch;
mod files;
mod groups;
mod queue;

pub use batch::{Batch, BatchFile, batch_laws};
pub use queue::{FlushRefused, MOST_QUEUED, Queue, SubmitRefused};
