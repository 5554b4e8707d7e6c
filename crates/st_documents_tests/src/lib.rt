//! The tests of documents: pointers and steps, patches and deltas.
#![tactic(auto)]

#[cfg(test)]
mod doc;
#[cfg(test)]
mod jsonpatch;
