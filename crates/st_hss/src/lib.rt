//! Signatures of two levels (HSS, RFC 8554, section 6): a top key signs 32 lower keys, each of
//! which signs 32 messages. All are derived from the key of a vault with 1,024 counters.
#![tactic(auto)]

mod public;
mod trees;
mod vault;

pub use public::{HssPublic, HssRefused, verify_hss};
pub use vault::{HssSignRefused, HssVault, HssVaultRefused, hss_laws};
