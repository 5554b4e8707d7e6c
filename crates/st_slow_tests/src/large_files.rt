//! Proof files of the largest size, and of one byte more.

use st_base::{Bytes, FileRefused, Shared, WantOfMemory, Work};
use st_datafiles::{ProofRefused, read_core_proof, read_provisional_proof};
use st_params::{Params, Schedule};
use std::alloc::Global;
use std::test::Fail;

fn spaces(alloc: Global, count: usize) -> Result<Shared<Bytes>, WantOfMemory> {
    let bytes = vec![in alloc; b' '; count]?;
    Shared::new(alloc, Bytes::from_slice(alloc, bytes.as_slice())?)
}

fn is_rejected<Read: Drop>(answer: Result<Read, ProofRefused>, rule: &str) -> bool {
    match answer {
        Err(FileRefused::Rejected(found)) => found.name() == rule,
        _ => false,
    }
}

// Whether this rule rejects the file as a core proof file and as a provisional one.
fn is_rejected_as_both(
    alloc: Global,
    file: &Shared<Bytes>,
    params: &Params,
    rule: &str,
    work: &mut Work,
) -> bool {
    is_rejected(read_core_proof(alloc, file, 0, 1, params, work), rule)
        && is_rejected(read_provisional_proof(alloc, file, 1, params, work), rule)
}

// Whether this rule rejects files of this many spaces.
fn spaces_are(rt: &HostRuntime, size: usize, rule: &str) -> Result<bool, WantOfMemory> {
    let file = spaces(rt.alloc(), size)?;
    let params = Schedule::new().newest();
    Ok(is_rejected_as_both(rt.alloc(), &file, &params, rule, &mut Work::new(rt)))
}

#[test]
fn a_proof_file_has_a_largest_size(rt: HostRuntime) -> Result<(), Fail> {
    assert!(rt; spaces_are(&rt, 16_000_000, "Q2")?);
    assert!(rt; spaces_are(&rt, 16_000_001, "Q1")?);
    Ok(())
}
