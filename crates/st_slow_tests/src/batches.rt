//! Batches that end because a file would be too long. Another program computed how many operations
//! they take, and signed the update.
mod samples;

use crate::batches::samples::{LONG_CREATE, SIGNED_UPDATE};
use st_base::{WantOfMemory, Work};
use st_batch::Queue;
use st_hash::{hash_text, hash256};
use st_params::{Params, Schedule};
use std::alloc::Global;
use std::test::Fail;

// A request of a kind. Different numbers give different suffixes.
fn request(alloc: Global, kind: &str, number: u32) -> Result<String, WantOfMemory> {
    let text = hash_text(alloc, &hash256(&number.to_be_bytes()))?;
    Ok(kind.replace(alloc, "*", text.as_str())?)
}

// A queue of this many requests.
fn queue_of(
    rt: &HostRuntime,
    params: &Params,
    kind: &str,
    count: u32,
) -> Result<Queue, WantOfMemory> {
    let mut work = Work::new(rt);
    let mut queue = Queue::new(rt.alloc());
    for number in 0..count {
        let request = request(rt.alloc(), kind, number)?;
        let _answer = queue.submit(rt.alloc(), request.as_bytes(), params, &mut work);
    }
    Ok(queue)
}

// Whether a batch of this many requests of a kind, at the limits of version 2, has an anchor string
// with this prefix and this many files, and leaves this many queued.
fn cuts(
    rt: &HostRuntime,
    kind: &str,
    count: u32,
    start: &str,
    files: usize,
    stay: usize,
) -> Result<bool, WantOfMemory> {
    let params = Schedule::with_second(0).at(0);
    match queue_of(rt, &params, kind, count)?.flush(rt.alloc(), &params) {
        Ok((rest, batch)) => Ok(
            rest.len() == stay
                && batch.anchor.as_str().starts_with(start)
                && batch.files.len() == files,
        ),
        Err(_) => Ok(false),
    }
}

#[test]
fn the_chunk_file_cuts_a_batch(rt: HostRuntime) -> Result<(), Fail> {
    assert!(rt; cuts(&rt, LONG_CREATE, 5_001, "4997.", 3, 4)?);
    Ok(())
}

#[test]
fn the_provisional_proof_file_cuts_a_batch(rt: HostRuntime) -> Result<(), Fail> {
    assert!(rt; cuts(&rt, SIGNED_UPDATE, 1_352, "1348.", 4, 4)?);
    Ok(())
}
