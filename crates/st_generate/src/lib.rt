//! Tests a machine with a workload made from a seed: a node makes batches of its requests, another
//! receives them in another order, and a summary of both has nine lines.
#![tactic(auto)]

mod ends;
mod plan;
mod rounds;
mod summary;
mod talk;

pub use plan::{Plan, read_plan};
pub use summary::{generate, run_generate};
