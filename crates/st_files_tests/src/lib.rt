//! The tests of files and requests: index files, proof files, chunk files, operations.
#![tactic(auto)]

#[cfg(test)]
mod datafiles;
#[cfg(test)]
mod indexfiles;
#[cfg(test)]
mod ops;
#[cfg(test)]
mod words;
