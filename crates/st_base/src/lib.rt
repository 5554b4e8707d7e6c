//! The values that every layer uses: lists, texts and bytes that contracts see as lists, shared and
//! boxed values, texts and parts of shared files, the words and numbers of lines and the replies to
//! them, out-of-memory errors, the refusals of files, copies, and counters of work.
#![tactic(auto)]

mod bytes;
mod copied;
mod errors;
mod kept_text;
mod list;
mod pointers;
mod words;
mod work;

pub use bytes::{Bytes, Text};
pub use copied::Copied;
pub use errors::{FileRefused, WantOfMemory};
pub use kept_text::{KeptText, Part};
pub use list::List;
pub use pointers::{Boxed, Shared};
pub use words::{cut_at, cut_word, push_word, read_number, reply};
pub use work::Work;
