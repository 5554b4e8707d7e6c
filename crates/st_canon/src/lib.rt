//! JSON values with whole numbers as trees: read from any spelling, edited by name, measured,
//! written as the canonical text of RFC 8785, and stored compactly as that text or as a part of a
//! file already in memory.
#![tactic(auto)]

mod equality;
mod measures;
mod object;
mod packed;
mod spelling;
mod trees;
mod value;

pub use equality::equal;
pub use measures::{depth, fits, size};
pub use packed::PackedJson;
pub use spelling::{append, append_comma, append_escaped, append_text, append_there, write};
pub use trees::{read, read_again, read_json};
pub use value::{
    Json, Object, entries_in, is_list_if_there, is_text_if_there, some_list, some_object,
};
