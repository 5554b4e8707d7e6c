//! Operations on identifiers, after DIF Sidetree v1.0.0, "DID Operations": their kinds, their
//! claims, and the requests for them. The rules are this project's own.
#![tactic(auto)]

mod claim;
mod forms;
mod operation;
mod request;
mod writing;

pub use claim::{Claim, claim_of};
pub use operation::{Operation, suffix};
pub use request::{RequestRefused, read_request};
pub use writing::{know_hashes, write_request};
