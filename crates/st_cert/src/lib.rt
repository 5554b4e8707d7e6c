//! The verdicts on the operations of an identifier, and certificates of its resolution: a checker
//! accepts one if and only if it is right, without trust in its maker.
#![tactic(auto)]

mod certificate;
mod checking;
mod standing;
mod verdict;

pub use certificate::{CertItem, Certificate, certify, places_ascend};
pub use checking::{certificate_laws, check_certificate, verdict_law};
pub use verdict::Verdict;
