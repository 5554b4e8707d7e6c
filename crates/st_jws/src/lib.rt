//! LMS keys as JSON (RFC 7517) with their reveal values and commitments, and compact signed texts
//! (RFC 7515) with the algorithm LMS.
#![tactic(auto)]

mod commit;
mod jwk;
mod signed;
mod signing;

pub use commit::{commitment, commitment_with, meets, reveal, reveal_with};
pub use jwk::{BadJwk, Jwk};
pub use signed::{Signed, SignedRefused, open_signed};
pub use signing::{join_signed, signing_input};
