//! JSON values in their canonical text (RFC 8785): they are found by scanning that text, without
//! building a tree. A reader of a file or of a request needs no memory but the text.
#![tactic(auto)]

mod brackets;
mod entries;
mod members;
mod root;
mod scanned;
mod texts;

pub use entries::{Entries, entries_in, only_of};
pub use members::Members;
pub use root::CanonicalText;
pub use scanned::{Scanned, is_object_of_lists_if_there};
