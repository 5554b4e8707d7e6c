//! The messages of nodes about files: which they want, which they have, and the bytes of one; the
//! only encoding of each message, and a node's answer to it. A file is sent only if it was asked
//! for, and kept only if it is wanted.
#![tactic(auto)]

mod answering;
mod asking;
mod message;
mod peer;

pub use answering::answer;
pub use asking::ask;
pub use message::{Answer, DecodeRefused, LONGEST_BLOB, MOST_URIS, Message, decode, encode};
pub use peer::{Peer, Wants};
