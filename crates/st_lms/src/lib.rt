//! LMS signatures (RFC 8554) with SHA-256: LM-OTS types 1 to 4, LMS types 5 and 6, strings of 32
//! bytes.
#![tactic(auto)]

mod digits;
mod one_time;
mod parameters;
mod public;
mod secret;
mod signer;
mod strings;
mod tree;
mod verification;

pub use public::{Public, PublicRefused};
pub use secret::{BadType, Secret};
pub use signer::{Signer, sign_at};
pub use verification::verify;
