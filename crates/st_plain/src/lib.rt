//! JSON values with whole numbers and their canonical text (RFC 8785): it is made from JSON of any
//! spelling, and split where a value ends.
#![tactic(auto)]

mod appending;
mod canonical;
mod names;
mod numbers;
mod objects;
mod quoted;
mod respelling;
mod spans;
mod values;

pub use appending::{append_escaped, append_text};
pub use names::{compare, next_byte};
pub use numbers::Whole;
pub use quoted::{is_named, is_quoted};
pub use respelling::{ReadRefused, canonical_text};
pub use spans::split_span;
pub use values::{behind_first, opened, split_value, starts};
