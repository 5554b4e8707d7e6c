//! Items by key and place, and for each key the state that its items fold to. After changes are
//! folded, which takes few steps for each changed key, reading a state takes no step.
#![tactic(auto)]

mod index;
mod row;
mod rows;

pub use index::{Folder, Index};
