//! The observer: it keeps the ledger and the files received, what is known about each entry, which
//! files are wanted, and the operations and the state of each identifier (DIF Sidetree v1.0.0).
//! Each file is read once for an entry and a role, and a state is folded from the last stored one
//! before the place that changed.
#![tactic(auto)]

mod changes;
mod held;
mod kept;
mod observer;
mod waiting;

pub use held::Held;
pub use observer::{Observer, isolation_law};
