//! The tests of the ground: lists and texts, devices, JSON, hashes, limits, folds by key.
#![tactic(auto)]

#[cfg(test)]
mod base;
#[cfg(test)]
mod canon;
#[cfg(test)]
mod hash;
#[cfg(test)]
mod io;
#[cfg(test)]
mod opindex;
#[cfg(test)]
mod params;
#[cfg(test)]
mod plain;
#[cfg(test)]
mod scan;
