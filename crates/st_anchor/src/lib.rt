//! What is known about an entry of the ledger, from its text and the files received (DIF Sidetree
//! v1.0.0, "File Structures"), the states of its files' roles, and the operations it gives.
#![tactic(auto)]

mod binding;
mod bound;
mod branches;
mod files;
mod given;
mod part;

pub use bound::{Bound, entry_laws};
pub use given::Given;
pub use part::{RoleState, Rule};
