//! The files that index files name (DIF Sidetree v1.0.0, "Core Proof File", "Provisional Proof
//! File" and "Chunk Files"): their content, their rules, and their canonical texts; and the roles
//! of an entry's files.
#![tactic(auto)]

mod chunk;
mod guess;
mod proof_files;
mod role;

pub use chunk::{ChunkRefused, ChunkRule, read_chunk, write_chunk};
pub use proof_files::{
    CoreProofs, ProofRefused, ProofRule, read_core_proof, read_provisional_proof, write_core_proof,
    write_provisional_proof,
};
pub use role::Role;
