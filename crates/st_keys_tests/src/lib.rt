//! The tests of keys: LMS signatures, vaults, two-level keys, keys as JSON and signed texts.
#![tactic(auto)]

#[cfg(test)]
mod hss;
#[cfg(test)]
mod jws;
#[cfg(test)]
mod lms;
#[cfg(test)]
mod vault;
