//! Queues of many creates.

use st_base::{WantOfMemory, Work};
use st_batch::{Queue, SubmitRefused};
use st_hash::{SHA_256, SHA_512, hash_text, hash_with};
use st_params::Params;
use std::alloc::Global;

// The request for a create of this kind, with a commitment by SHA-512 if it is wide, else by
// SHA-256. Different numbers give different suffixes.
fn request(alloc: Global, kind: &str, wide: bool, number: u32) -> Result<String, WantOfMemory> {
    let code = if wide { SHA_512 } else { SHA_256 };
    let commitment = hash_text(alloc, &hash_with(&number.to_be_bytes(), code))?;
    Ok(kind.replace(alloc, "*", commitment.as_str())?)
}

/// Submits the create of this number.
pub(crate) fn submit_one(
    rt: &HostRuntime,
    queue: &mut Queue,
    params: &Params,
    kind: &str,
    wide: bool,
    number: u32,
) -> Result<(), SubmitRefused> {
    let mut work = Work::new(rt);
    match request(rt.alloc(), kind, wide, number) {
        Ok(request) => match queue.submit(rt.alloc(), request.as_bytes(), params, &mut work) {
            Ok(_) => Ok(()),
            Err(refused) => Err(refused),
        },
        Err(WantOfMemory) => Err(SubmitRefused::WantOfMemory),
    }
}

/// A queue of this many; refused requests are left out.
pub(crate) fn many(rt: &HostRuntime, params: &Params, kind: &str, wide: bool, count: u32) -> Queue {
    let mut queue = Queue::new(rt.alloc());
    for number in 0..count {
        let _answer = submit_one(rt, &mut queue, params, kind, wide, number);
    }
    queue
}
