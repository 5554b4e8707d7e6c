//! A workload of several identifiers.
use st_base::{Bytes, WantOfMemory, Work};
use st_generate::{Plan, run_generate};
use st_hash::{hash_text, hash256};
use st_io::PlainSink;
use st_node::Node;
use st_workload::{Identity, all_identities};
use std::alloc::Global;
use std::test::Fail;

// The `submit` lines of another program for seed 1, three identifiers and four rounds of updates:
// the hash text of all of them, each with its line feed.
const REQUESTS: &str = "EiCsIS_sAEhfGHe0jhDNpFiTjn0CdmfM7QJjDQcIu9G8xw";

// Its summary, counted in the lines of that program's second node.
const SUMMARY: &str =
    "dids 3\nbatches 5\noperations 15\nanchors 7\nrollbacks 2\nfiles 19\nresolved 3\nagreed 3\nfilesWithin yes\n";

fn sums_up(alloc: Global, work: &mut Work) -> bool {
    let plan = Plan {
        seed: 1,
        dids: 3,
        rounds: 4,
    };
    let mut sink = PlainSink::new(alloc);
    run_generate::<Node, _>(alloc, plan, &mut sink, work) == 0
        && sink.written().as_slice() == SUMMARY.as_bytes()
}

fn push_request(
    alloc: Global,
    text: &mut Bytes,
    identity: &Identity,
    round: usize,
) -> Result<(), WantOfMemory> {
    if let Some(line) = identity.lines.get(round) {
        text.push_all(alloc, line.as_slice())?;
        text.push_all(alloc, b"\n")?;
    }
    Ok(())
}

// The requests of all rounds, in the order of the identifiers.
fn requests(alloc: Global) -> Result<Bytes, WantOfMemory> {
    let identities = all_identities(alloc, 1, 3, 4)?;
    let mut text = Bytes::new(alloc);
    for round in 0..5 {
        for identity in identities.as_slice() {
            push_request(alloc, &mut text, identity, round)?;
        }
    }
    Ok(text)
}

fn makes_the_requests(alloc: Global) -> Result<bool, WantOfMemory> {
    let text = requests(alloc)?;
    let sum = hash_text(alloc, &hash256(text.as_slice()))?;
    Ok(sum.as_str() == REQUESTS)
}

#[test]
fn the_second_node_gets_what_another_program_gave_its_own(rt: HostRuntime) {
    let mut work = Work::new(&rt);
    assert!(rt; sums_up(rt.alloc(), &mut work));
}

#[test]
fn a_seed_makes_the_requests_that_another_program_made_of_it(rt: HostRuntime) -> Result<(), Fail> {
    assert!(rt; makes_the_requests(rt.alloc())?);
    Ok(())
}
