//! Flushing queues. Another program computed the anchor strings, the lengths of files and how many
//! operations a batch takes.

use crate::batch::making::{many, submit_one};
use crate::batch::samples::{SHORT_CREATE, WIDE_CREATE};
use crate::batch::submit_all;
use st_base::Work;
use st_batch::{Batch, FlushRefused, Queue, SubmitRefused};
use st_datafiles::Role;
use st_params::{Params, Schedule};
use std::alloc::Global;

// The rest of a queue that gives a batch whose anchor string has this prefix, with this many files.
fn rest_after(
    alloc: Global,
    queue: Queue,
    params: &Params,
    start: &str,
    files: usize,
) -> Option<Queue> {
    match queue.flush(alloc, params) {
        Ok((rest, batch)) => {
            if batch.anchor.as_str().starts_with(start) && batch.files.len() == files {
                Some(rest)
            } else {
                None
            }
        }
        Err(_) => None,
    }
}

fn gives_nothing(alloc: Global, queue: Queue, params: &Params) -> bool {
    match queue.flush(alloc, params) {
        Err(FlushRefused::Nothing(queue)) => queue.len() == 0,
        _ => false,
    }
}

fn is_file(batch: &Batch, at: usize, role: Role, length: usize) -> bool {
    match batch.files.get(at) {
        Some(file) => file.role == role && file.bytes.as_slice().len() == length,
        None => false,
    }
}

fn is_batch(batch: &Batch, anchor: &str, files: usize) -> bool {
    batch.anchor.as_str() == anchor && batch.files.len() == files
}

// The batch of all these requests, at the limits of version 1.
fn batch_of(rt: &HostRuntime, requests: &str) -> Option<Batch> {
    let mut work = Work::new(rt);
    let mut queue = Queue::new(rt.alloc());
    let _answer = submit_all(rt, &mut queue, requests, &mut work);
    match queue.flush(rt.alloc(), &Schedule::new().at(0)) {
        Ok((_, batch)) => Some(batch),
        Err(_) => None,
    }
}

fn is_small_batch(batch: &Batch) -> bool {
    is_batch(batch, "1.EiAAyQ3gectCA4vge9lVOinoEdj0Yk81_JYUw0aBbAzZkg", 2)
        && is_file(batch, 0, Role::Core, 225)
        && is_file(batch, 1, Role::CoreProof, 2_084)
}

#[test]
fn a_batch_of_one_deactivate_has_two_files(rt: HostRuntime) {
    let is = match batch_of(&rt, "deactivate") {
        Some(batch) => is_small_batch(&batch),
        None => false,
    };
    assert!(rt; is);
}

fn is_whole_batch(batch: &Batch) -> bool {
    is_batch(batch, "4.EiBE_-p8kdFhqNHBa7LwnY4cEgLD0ad2vjj53lMO15Kpow", 5)
        && is_file(batch, 0, Role::Core, 597)
        && is_file(batch, 1, Role::CoreProof, 4_199)
        && is_file(batch, 2, Role::Provisional, 305)
        && is_file(batch, 3, Role::ProvisionalProof, 2_038)
        && is_file(batch, 4, Role::Chunk, 302)
}

#[test]
fn a_batch_has_its_operations_by_kind(rt: HostRuntime) {
    let is = match batch_of(&rt, "deactivate update create recover") {
        Some(batch) => is_whole_batch(&batch),
        None => false,
    };
    assert!(rt; is);
}

// Whether a queue gives a batch of the first 1,000, then one of the last, and then none.
fn takes_a_thousand(alloc: Global, queue: Queue, params: &Params) -> bool {
    match rest_after(alloc, queue, params, "1000.", 3) {
        Some(queue) => queue.len() == 1 && takes_the_last(alloc, queue, params),
        None => false,
    }
}

fn takes_the_last(alloc: Global, queue: Queue, params: &Params) -> bool {
    match rest_after(alloc, queue, params, "1.", 3) {
        Some(queue) => gives_nothing(alloc, queue, params),
        None => false,
    }
}

#[test]
fn a_batch_of_version_1_takes_a_thousand(rt: HostRuntime) {
    let params = Schedule::new().at(0);
    let queue = many(&rt, &params, SHORT_CREATE, false, 1_001);
    assert!(rt; takes_a_thousand(rt.alloc(), queue, &params));
}

// Whether one more request finds ten thousand queued, and leaves as many.
fn is_full(rt: &HostRuntime, params: &Params) -> bool {
    let mut queue = many(rt, params, SHORT_CREATE, false, 10_000);
    let before = queue.len();
    let answer = submit_one(rt, &mut queue, params, SHORT_CREATE, false, 10_000);
    before == 10_000 && answer == Err(SubmitRefused::QueueFull) && queue.len() == 10_000
}

#[test]
fn ten_thousand_are_queued_and_no_more(rt: HostRuntime) {
    assert!(rt; is_full(&rt, &Schedule::new().at(0)));
}

// Whether the core index file limits a batch of creates with wide hashes, at the limits of version
// 2.
fn is_cut(rt: &HostRuntime) -> bool {
    let params = Schedule::with_second(0).at(0);
    let queue = many(rt, &params, WIDE_CREATE, true, 4_400);
    match rest_after(rt.alloc(), queue, &params, "4309.", 3) {
        Some(rest) => rest.len() == 91,
        None => false,
    }
}

#[test]
fn the_core_index_cuts_a_batch(rt: HostRuntime) {
    assert!(rt; is_cut(&rt));
}
