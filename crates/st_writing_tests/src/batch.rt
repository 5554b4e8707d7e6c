mod flushing;
mod making;
mod samples;

use crate::batch::samples::named;
use st_base::Work;
use st_batch::{Queue, SubmitRefused};
use st_hash::{Hash, hash_text};
use st_params::Schedule;
use std::test::Fail;

/// Submits the requests of a line, in this order, at the limits of version 1. Returns the last
/// answer.
pub(crate) fn submit_all(
    rt: &HostRuntime,
    queue: &mut Queue,
    requests: &str,
    work: &mut Work,
) -> Result<(), SubmitRefused> {
    let params = Schedule::new().at(0);
    let mut answer = Ok(());
    for word in requests.split(' ') {
        answer = match queue.submit(rt.alloc(), named(word).as_bytes(), &params, work) {
            Ok(_) => Ok(()),
            Err(refused) => Err(refused),
        };
    }
    answer
}

fn word_of(answer: Result<(), SubmitRefused>) -> &'static str {
    match answer {
        Ok(()) => "queued",
        Err(SubmitRefused::NotJson) => "not-json",
        Err(SubmitRefused::NotWhole) => "not-whole",
        Err(SubmitRefused::BadForm) => "bad-form",
        Err(SubmitRefused::BadHash) => "bad-hash",
        Err(SubmitRefused::BadProof) => "bad-proof",
        Err(SubmitRefused::BadDelta) => "bad-delta",
        Err(SubmitRefused::AlreadyQueued) => "already-queued",
        Err(SubmitRefused::QueueFull) => "full",
        Err(SubmitRefused::WantOfMemory) => "no-memory",
    }
}

// The last answer to these requests, the number of operations then queued, and the number of proofs
// counted.
fn seen_after(rt: &HostRuntime, requests: &str) -> (&'static str, usize, u64) {
    let mut work = Work::new(rt);
    let mut queue = Queue::new(rt.alloc());
    let answer = submit_all(rt, &mut queue, requests, &mut work);
    (word_of(answer), queue.len(), work.proofs())
}

// Requests, and what is seen after they are submitted to an empty queue.
const LINES: &str = "{ => not-json 0 0
{\"a\":1.5} => not-whole 0 0
{} => bad-form 0 0
no-hash => bad-hash 0 0
other-suffix => bad-proof 0 1
other-delta => bad-delta 0 0
create create => already-queued 1 0
create => queued 1 0
deactivate update create recover => queued 4 3";

fn first_wrong(rt: &HostRuntime) -> Result<Option<&'static str>, Fail> {
    for line in LINES.lines() {
        let (requests, wanted) = line.split_once(" => ").ok_or("no answer")?;
        let (answer, queued, proofs) = seen_after(rt, requests);
        let seen = format!(in rt.alloc(); "{answer} {queued} {proofs}")?;
        if seen.as_str() != wanted {
            return Ok(Some(line));
        }
    }
    Ok(None)
}

#[test]
fn a_request_is_queued_or_refused_by_its_first_cause(rt: HostRuntime) -> Result<(), Fail> {
    match first_wrong(&rt)? {
        None => Ok(()),
        Some(line) => Err(Fail::from(line)),
    }
}

// The suffix of a request that is queued in an empty queue.
fn suffix_of(rt: &HostRuntime, request: &str) -> Option<Hash> {
    let mut work = Work::new(rt);
    let mut queue = Queue::new(rt.alloc());
    let params = Schedule::new().at(0);
    match queue.submit(rt.alloc(), named(request).as_bytes(), &params, &mut work) {
        Ok(suffix) => Some(suffix),
        Err(_) => None,
    }
}

// Whether it has this hash text.
fn suffix_is(rt: &HostRuntime, request: &str, wanted: &str) -> Result<bool, Fail> {
    match suffix_of(rt, request) {
        Some(suffix) => Ok(hash_text(rt.alloc(), &suffix)?.as_str() == wanted),
        None => Ok(false),
    }
}

#[test]
fn an_operation_is_queued_for_its_suffix(rt: HostRuntime) -> Result<(), Fail> {
    let create = suffix_is(
        &rt,
        "create",
        "EiCNA_edP2ZS7hJ_z7lDpDE8xR-dlL9ygjUmrf2IAn6ziQ",
    )?;
    let update = suffix_is(
        &rt,
        "update",
        "EiAH6kMDyuj_41tkoBLAV1kt1vB9nEM1U6KBsUUCwuffRg",
    )?;
    assert!(rt; create && update);
    Ok(())
}
