//! Hash chains of SHA-256, eight side by side: each word of the eight computations is a vector,
//! with a lane for each chain.
//!
//! A step of a chain hashes 55 bytes, which fill one block with their padding: a head of 20 bytes,
//! the number of the chain in 2, a byte that differs at each step, and the previous value. So the
//! values stay words, in their lanes, for the whole chain.
#![tactic(auto)]

mod block;
mod chains;
mod rows;
mod words;

pub use chains::walk;
