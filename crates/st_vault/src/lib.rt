//! A vault keeps an LMS secret key on a disk, and spends each of its counters there before it
//! releases it: a one-time key of RFC 8554 must not sign twice, whatever a stop leaves of the disk.
#![tactic(auto)]

mod child;
mod counter;
mod formatting;
mod layout;
mod opening;
mod vault;

pub use counter::{Counter, VaultSigner};
pub use formatting::{FormatRefused, format_vault};
pub use opening::{OpenRefused, open_vault};
pub use vault::{ReserveRefused, Vault, no_counter_comes_twice};
