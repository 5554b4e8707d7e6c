//! The files that a node has received, by their URI. The first file of a URI stays.
#![tactic(auto)]

mod content;

pub use content::{Content, Put};
