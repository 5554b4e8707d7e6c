//! The tests of resolution: steps, the observer, results, certificates.
#![tactic(auto)]

#[cfg(test)]
mod apply;
#[cfg(test)]
mod cert;
#[cfg(test)]
mod made;
#[cfg(test)]
mod observer;
#[cfg(test)]
mod resolve;
#[cfg(test)]
mod words;
