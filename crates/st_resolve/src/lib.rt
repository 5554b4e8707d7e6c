//! Identifiers in their short and their long form, and the results of resolving them.
#![tactic(auto)]

mod document;
mod identifier;
mod keys;
mod metadata;
mod result;
mod services;

pub use identifier::{Did, DidRefused, LongForm, read_did};
pub use result::{RenderRefused, render};
