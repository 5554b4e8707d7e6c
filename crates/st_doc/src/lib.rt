//! Documents of identifiers, and the deltas whose patches change them.
#![tactic(auto)]

mod action;
mod changes;
mod check;
mod delta;
mod document;
mod effects;
mod forms;
mod ids;
mod key;
mod patch;
mod service;

pub use changes::apply_all;
pub use delta::{Delta, DeltaRefused, check_delta, is_delta, read_delta};
pub use document::{Document, DocumentRefused};
pub use patch::{Patch, PatchRefused};
