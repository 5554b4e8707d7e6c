use super::{case_of, only, spelled};
use st_base::{Copied, FileRefused, List, Work};
use st_hash::{SHA_512, hash_with, hash256};
use st_indexfiles::{
    CoreIndex, ProvisionalIndex, SuffixData, Target, read_provisional, write_provisional,
};
use st_params::Schedule;
use std::alloc::Global;
use std::test::Fail;

// The version, the declared count, the answer, and the file, given a core index without operations.
const CASES: &str = r##"1 1 P2 {"a":1.5}
1 1 P3 []
1 1 P3 {"chunks":[~],"a":1}
1 1 P3 {"chunks":[~],"operations":{"create":[]}}
1 1 P3 {"chunks":[~],"operations":{"update":null}}
1 1 P4 {}
1 1 P4 {"chunks":[~,~]}
1 1 P4 {"chunks":[{"chunkFileUri":"*","a":1}]}
2 1 P4 {"chunks":[{"chunkFileUri":"#"}]}
1 1 P5 {"chunks":[~],"operations":{"update":[{}]}}
1 1 P5 {"chunks":[~],"provisionalProofFileUri":null}
2 1 P5 {"chunks":[~],"provisionalProofFileUri":"#","operations":{"update":[!]}}
1 1 P5 {"chunks":[~],"provisionalProofFileUri":"*","operations":{"update":[{"didSuffix":"*","revealValue":"#"}]}}
2 1 read {"chunks":[~],"provisionalProofFileUri":"*","operations":{"update":[{"didSuffix":"*","revealValue":"#"}]}}
1 2 P6 {"chunks":[~],"provisionalProofFileUri":"*","operations":{"update":[!,!]}}
1 1 P7 {"chunks":[~],"provisionalProofFileUri":"*","operations":{"update":[!,?]}}
1 2 read {"chunks":[~],"provisionalProofFileUri":"*","operations":{"update":[!,?]}}
1 1 P8 {"chunks":[~],"provisionalProofFileUri":"*"}
1 1 P8 {"chunks":[~],"operations":{"update":[!]}}
1 1 P9 {"chunks":[~]}
1 1 P9 {"chunks":[~],"operations":{"update":[]}}"##;

// An update of the suffix of a create.
const UPDATING: &str =
    r#"{"chunks":[~],"provisionalProofFileUri":"*","operations":{"update":[@]}}"#;

// A core index with these creates, and no other operations.
fn beside(alloc: Global, creates: List<SuffixData>) -> CoreIndex {
    CoreIndex {
        core_proof: None,
        provisional: None,
        creates,
        recovers: List::new(alloc),
        deactivates: List::new(alloc),
    }
}

// Whether this is the answer to a provisional index file: `read`, or the rule that rejects it.
fn is_answered(
    rt: &HostRuntime,
    file: &[u8],
    core: &CoreIndex,
    version: u32,
    count: u32,
    answer: &str,
) -> bool {
    let mut work = Work::new(rt);
    let params = Schedule::with_second(2).at(version);
    match read_provisional(rt.alloc(), file, core, count, &params, &mut work) {
        Ok(_) => answer == "read",
        Err(FileRefused::Rejected(rule)) => answer == rule.name(),
        Err(FileRefused::WantOfMemory) => false,
    }
}

fn comes_out(rt: &HostRuntime, core: &CoreIndex, line: &str) -> bool {
    match case_of(line) {
        Some((version, count, answer, short)) => match spelled(rt.alloc(), short) {
            Some(file) => is_answered(rt, file.as_bytes(), core, version, count, answer),
            None => false,
        },
        None => false,
    }
}

fn first_other_beside(rt: &HostRuntime, core: &CoreIndex) -> Option<&'static str> {
    for line in CASES.lines() {
        if !comes_out(rt, core, line) {
            return Some(line);
        }
    }
    None
}

fn first_other(rt: &HostRuntime) -> Option<&'static str> {
    let core = beside(rt.alloc(), List::new(rt.alloc()));
    first_other_beside(rt, &core)
}

#[test]
fn a_provisional_index_file_fails_its_first_rule(rt: HostRuntime) -> Result<(), Fail> {
    match first_other(&rt) {
        Some(line) => Err(Fail::from(line)),
        None => Ok(()),
    }
}

fn spaces_are(rt: &HostRuntime, core: &CoreIndex, size: usize, answer: &str) -> bool {
    match " ".repeat(rt.alloc(), size) {
        Ok(file) => is_answered(rt, file.as_bytes(), core, 1, 1, answer),
        Err(_) => false,
    }
}

fn are_bounded(rt: &HostRuntime) -> bool {
    let core = beside(rt.alloc(), List::new(rt.alloc()));
    spaces_are(rt, &core, 1_000_000, "P2") && spaces_are(rt, &core, 1_000_001, "P1")
}

#[test]
fn sizes_are_bounded(rt: HostRuntime) -> Result<(), Fail> {
    assert!(rt; are_bounded(&rt));
    Ok(())
}

fn is_read_beside(rt: &HostRuntime, file: &[u8]) -> bool {
    let core = beside(rt.alloc(), List::new(rt.alloc()));
    is_answered(rt, file, &core, 1, 1, "read")
}

fn created(alloc: Global) -> Option<List<SuffixData>> {
    let mut creates = List::new(alloc);
    let create = SuffixData {
        delta_hash: hash256(b"abc"),
        recovery_commitment: hash256(b""),
    };
    creates.push(alloc, create).ok()?;
    Some(creates)
}

fn is_rejected_beside_its_create(rt: &HostRuntime, file: &[u8]) -> bool {
    match created(rt.alloc()) {
        Some(creates) => {
            let core = beside(rt.alloc(), creates);
            is_answered(rt, file, &core, 1, 2, "P6")
        }
        None => false,
    }
}

// The same bytes are read with one core index, and rejected with another that creates the suffix.
fn turns_on_the_core_index(rt: &HostRuntime) -> bool {
    match spelled(rt.alloc(), UPDATING) {
        Some(file) => {
            is_read_beside(rt, file.as_bytes())
                && is_rejected_beside_its_create(rt, file.as_bytes())
        }
        None => false,
    }
}

#[test]
fn an_update_of_a_suffix_that_the_core_index_creates_is_rejected(
    rt: HostRuntime,
) -> Result<(), Fail> {
    assert!(rt; turns_on_the_core_index(&rt));
    Ok(())
}

// One update, whose reveal value is of SHA-512.
fn of_one_update(alloc: Global) -> Option<ProvisionalIndex> {
    let update = Target {
        suffix: hash256(b"one"),
        reveal: hash_with(b"key", SHA_512),
    };
    let updates = only(alloc, update)?;
    Some(ProvisionalIndex {
        proof: Some(hash256(b"proofs")),
        chunk: hash256(b"chunk"),
        updates,
    })
}

fn is_same(read: &ProvisionalIndex, index: &ProvisionalIndex) -> bool {
    read.proof == index.proof
        && read.chunk == index.chunk
        && read.updates.as_slice() == index.updates.as_slice()
}

// Whether the file is read as the index in version 2, by reading one file, and rejected in version
// 1.
fn is_read(rt: &HostRuntime, file: &[u8], index: &ProvisionalIndex) -> bool {
    let core = beside(rt.alloc(), List::new(rt.alloc()));
    let mut work = Work::new(rt);
    let params = Schedule::with_second(0).newest();
    match read_provisional(rt.alloc(), file, &core, 1, &params, &mut work) {
        Ok(read) => {
            is_same(&read, index) && work.files() == 1 && is_answered(rt, file, &core, 1, 1, "P5")
        }
        Err(_) => false,
    }
}

fn is_copied(rt: &HostRuntime, file: &[u8], index: &ProvisionalIndex) -> bool {
    match index.copy(rt.alloc()) {
        Ok(copied) => is_read(rt, file, &copied),
        Err(_) => false,
    }
}

fn is_written(rt: &HostRuntime, index: &ProvisionalIndex) -> bool {
    match write_provisional(rt.alloc(), index) {
        Ok(file) => is_copied(rt, file.as_slice(), index),
        Err(_) => false,
    }
}

fn one_update_is_written(rt: &HostRuntime) -> bool {
    match of_one_update(rt.alloc()) {
        Some(index) => is_written(rt, &index),
        None => false,
    }
}

#[test]
fn a_provisional_index_is_written_and_read_again(rt: HostRuntime) -> Result<(), Fail> {
    assert!(rt; one_update_is_written(&rt));
    Ok(())
}
