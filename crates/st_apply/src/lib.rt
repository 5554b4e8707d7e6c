//! The state of an identifier, the step by which an operation changes it, and the law that one step
//! for each operation, in the order of the ledger, equals resolution from nothing.
#![tactic(auto)]

mod applying;
mod comparing;
mod counting;
mod document;
mod laws;
mod opening;
mod state;

pub use applying::{apply, reveals};
pub use counting::counts_for;
pub use laws::{alike_law, anchored_law, given_law, resolution_laws};
pub use opening::{StateParts, open_applied, open_created};
pub use state::DidState;
