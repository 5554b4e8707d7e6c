//! The two index files of a batch (DIF Sidetree v1.0.0, "Core Index File" and "Provisional Index
//! File"): their content, their rules, and their canonical texts. Suffix data, the suffixes of
//! identifiers, and hash texts in JSON are here too. A file is read from its canonical text,
//! without building a tree.
#![tactic(auto)]

mod core_index;
mod core_writing;
mod entries;
mod members;
mod provisional_index;
mod suffix_data;

pub use core_index::{CoreIndex, CoreRefused, CoreRule, read_core};
pub use core_writing::write_core;
pub use entries::Target;
pub use members::{hash_in, hash_in_json, hash_json};
pub use provisional_index::{
    ProvisionalIndex, ProvisionalRefused, ProvisionalRule, read_provisional, write_provisional,
};
pub use suffix_data::{SuffixData, suffix_of};
