use super::{case_of, only, spelled, text_of};
use st_base::{Bytes, Copied, FileRefused, List, Work};
use st_canon::write;
use st_hash::{Hash, SHA_512, hash_text, hash_with, hash256};
use st_indexfiles::{CoreIndex, SuffixData, Target, read_core, suffix_of, write_core};
use st_params::Schedule;
use std::alloc::Global;
use std::test::Fail;

// The version, the declared count, the answer, and the file.
const CASES: &str = r##"1 1 C2 
1 1 C2 x
1 1 C2 {"x":9007199254740992}
1 1 C2 {"x":1.0}
1 1 C3 {"x":9007199254740991}
1 1 C3 []
1 1 C3 {"a":1}
1 1 C3 {"operations":[]}
1 1 C3 {"operations":null}
1 1 C3 {"operations":{"update":[]}}
1 1 C3 {"operations":{"create":{}}}
1 1 C4 {"writerLockId":7}
1 1 C4 {"coreProofFileUri":null}
1 1 C4 {"writerLockId":[]}
1 1 C4 {"provisionalIndexFileUri":"x"}
1 1 C4 {"provisionalIndexFileUri":"*\n"}
1 1 read {"provisionalIndexFileUri":"\u0045iC6eBa_jwHP6kFBQN5driIjsANho5YXepy0EP9h8gAVrQ"}
2 1 C4 {"coreProofFileUri":"#"}
1 1 C5 {"operations":{"create":[{}]}}
1 1 C5 {"operations":{"create":[{"suffixData":{"deltaHash":"*","recoveryCommitment":"^","type":"x"}}]}}
1 1 C5 {"operations":{"create":[{"suffixData":{"deltaHash":"#","recoveryCommitment":"^"}}]}}
2 1 read {"operations":{"create":[{"suffixData":{"deltaHash":"#","recoveryCommitment":"^"}}]}}
1 1 C6 {"operations":{"create":[+,+]}}
1 2 C7 {"operations":{"create":[+,+]}}
1 2 C7 {"coreProofFileUri":"*","operations":{"create":[+],"deactivate":[@]}}
1 2 C7 {"coreProofFileUri":"*","operations":{"recover":[!],"deactivate":[!]}}
1 2 read {"coreProofFileUri":"*","operations":{"recover":[!],"deactivate":[?]}}
1 1 C8 {"coreProofFileUri":"*"}
1 1 C8 {"operations":{"recover":[!]}}
1 1 read {"operations":{"create":[+],"recover":[]}}
1 1 read {}
1 1000 read {"writerLockId":"x","provisionalIndexFileUri":"*"}"##;

// Delta hash and recovery commitment, and the suffix, as another program computes it.
const SUFFIXES: &str = "abc nothing EiATdX8Q5MV_plJJmuNAF_0nOfwoAX70r-tP5eSOPf86vA
abc abc-512 EiAa33qKusQKI4OBuGyqKfht5V-cTt76PmOZJ7y3ec9AqA
abc-512 nothing E0AmwPrThr-UCJj8CIlEm1c8x3AZhnnWXtvJT3obZtMdfcZGLTWm3PTqh86gOMSQteVqJZjZtG4ps1qCFbmpiDm_";

// Whether this is the answer to a core index file: `read`, or the rule that rejects it.
fn is_answered(rt: &HostRuntime, file: &[u8], version: u32, count: u32, answer: &str) -> bool {
    let mut work = Work::new(rt);
    let params = Schedule::with_second(2).at(version);
    match read_core(rt.alloc(), file, count, &params, &mut work) {
        Ok(_) => answer == "read",
        Err(FileRefused::Rejected(rule)) => answer == rule.name(),
        Err(FileRefused::WantOfMemory) => false,
    }
}

fn comes_out(rt: &HostRuntime, line: &str) -> bool {
    match case_of(line) {
        Some((version, count, answer, short)) => match spelled(rt.alloc(), short) {
            Some(file) => is_answered(rt, file.as_bytes(), version, count, answer),
            None => false,
        },
        None => false,
    }
}

fn first_other(rt: &HostRuntime) -> Option<&'static str> {
    for line in CASES.lines() {
        if !comes_out(rt, line) {
            return Some(line);
        }
    }
    None
}

#[test]
fn a_core_index_file_fails_its_first_rule(rt: HostRuntime) -> Result<(), Fail> {
    match first_other(&rt) {
        Some(line) => Err(Fail::from(line)),
        None => Ok(()),
    }
}

fn spaces_are(rt: &HostRuntime, size: usize, answer: &str) -> bool {
    match " ".repeat(rt.alloc(), size) {
        Ok(file) => is_answered(rt, file.as_bytes(), 1, 1, answer),
        Err(_) => false,
    }
}

// A file whose lock id has this many bytes, each with this spelling.
fn locked(alloc: Global, byte: &str, size: usize) -> Option<String> {
    let id = byte.repeat(alloc, size).ok()?;
    r#"{"writerLockId":"%"}"#
        .replace(alloc, "%", id.as_str())
        .ok()
}

fn lock_is(rt: &HostRuntime, byte: &str, size: usize, answer: &str) -> bool {
    match locked(rt.alloc(), byte, size) {
        Some(file) => is_answered(rt, file.as_bytes(), 1, 1, answer),
        None => false,
    }
}

fn are_bounded(rt: &HostRuntime) -> bool {
    spaces_are(rt, 1_000_000, "C2")
        && spaces_are(rt, 1_000_001, "C1")
        && lock_is(rt, "x", 200, "read")
        && lock_is(rt, "x", 201, "C4")
        && lock_is(rt, "\\n", 200, "read")
        && lock_is(rt, "\\n", 201, "C4")
        && is_answered(rt, &[0x1f, 0x8b, 0x08], 1, 1, "C2")
}

#[test]
fn sizes_are_bounded(rt: HostRuntime) -> Result<(), Fail> {
    assert!(rt; are_bounded(&rt));
    Ok(())
}

// This many creates with different suffixes.
fn creates(alloc: Global, count: u32) -> Option<List<SuffixData>> {
    let mut creates = List::new(alloc);
    for number in 0..count {
        let create = SuffixData {
            delta_hash: hash256(&number.to_be_bytes()),
            recovery_commitment: hash256(b""),
        };
        creates.push(alloc, create).ok()?;
    }
    Some(creates)
}

fn of_creates(alloc: Global, count: u32) -> Option<CoreIndex> {
    let creates = creates(alloc, count)?;
    Some(CoreIndex {
        core_proof: None,
        provisional: Some(hash256(b"index")),
        creates,
        recovers: List::new(alloc),
        deactivates: List::new(alloc),
    })
}

// A create, a recover whose reveal value is of SHA-512, and a deactivate.
fn of_every_kind(alloc: Global) -> Option<CoreIndex> {
    let creates = creates(alloc, 1)?;
    let recover = Target {
        suffix: hash256(b"one"),
        reveal: hash_with(b"key", SHA_512),
    };
    let recovers = only(alloc, recover)?;
    let deactivate = Target {
        suffix: hash256(b"two"),
        reveal: hash256(b"key"),
    };
    let deactivates = only(alloc, deactivate)?;
    Some(CoreIndex {
        core_proof: Some(hash256(b"proofs")),
        provisional: None,
        creates,
        recovers,
        deactivates,
    })
}

fn is_same(read: &CoreIndex, index: &CoreIndex) -> bool {
    read.core_proof == index.core_proof
        && read.provisional == index.provisional
        && read.creates.as_slice() == index.creates.as_slice()
        && read.recovers.as_slice() == index.recovers.as_slice()
        && read.deactivates.as_slice() == index.deactivates.as_slice()
}

// Whether the file is read as the index in version 2, by reading one file.
fn is_read(rt: &HostRuntime, file: &[u8], index: &CoreIndex, count: u32) -> bool {
    let mut work = Work::new(rt);
    let params = Schedule::with_second(0).newest();
    match read_core(rt.alloc(), file, count, &params, &mut work) {
        Ok(read) => is_same(&read, index) && work.files() == 1,
        Err(_) => false,
    }
}

fn is_copied(rt: &HostRuntime, file: &[u8], index: &CoreIndex, count: u32) -> bool {
    match index.copy(rt.alloc()) {
        Ok(copied) => is_read(rt, file, &copied, count),
        Err(_) => false,
    }
}

fn many_are_read(rt: &HostRuntime, index: &CoreIndex) -> bool {
    match write_core(rt.alloc(), index) {
        Ok(file) => {
            is_answered(rt, file.as_slice(), 2, 1_000, "C6")
                && is_read(rt, file.as_slice(), index, 1_001)
        }
        Err(_) => false,
    }
}

fn a_thousand_and_one_are_read(rt: &HostRuntime) -> bool {
    match of_creates(rt.alloc(), 1_001) {
        Some(index) => many_are_read(rt, &index),
        None => false,
    }
}

#[test]
fn a_thousand_and_one_creates_are_read_where_so_many_are_declared(
    rt: HostRuntime,
) -> Result<(), Fail> {
    assert!(rt; a_thousand_and_one_are_read(&rt));
    Ok(())
}

fn has_suffixes(alloc: Global, index: &CoreIndex, count: usize) -> bool {
    match index.suffixes(alloc) {
        Ok(suffixes) => suffixes.len() == count,
        Err(_) => false,
    }
}

fn all_are_read(rt: &HostRuntime, index: &CoreIndex) -> bool {
    match write_core(rt.alloc(), index) {
        Ok(file) => {
            is_answered(rt, file.as_slice(), 1, 3, "C5")
                && is_copied(rt, file.as_slice(), index, 3)
                && has_suffixes(rt.alloc(), index, 3)
        }
        Err(_) => false,
    }
}

fn every_kind_is_read(rt: &HostRuntime) -> bool {
    match of_every_kind(rt.alloc()) {
        Some(index) => all_are_read(rt, &index),
        None => false,
    }
}

#[test]
fn a_core_index_of_every_kind_is_written_and_read_again(rt: HostRuntime) -> Result<(), Fail> {
    assert!(rt; every_kind_is_read(&rt));
    Ok(())
}

fn hash_named(name: &str) -> Hash {
    if name == "abc" {
        hash256(b"abc")
    } else if name == "abc-512" {
        hash_with(b"abc", SHA_512)
    } else {
        hash256(b"")
    }
}

fn is_suffix(alloc: Global, suffix_data: &SuffixData, text: &str) -> bool {
    match suffix_of(alloc, suffix_data) {
        Ok(suffix) => match hash_text(alloc, &suffix) {
            Ok(written) => written.as_str() == text,
            Err(_) => false,
        },
        Err(_) => false,
    }
}

fn is_read_again(alloc: Global, suffix_data: &SuffixData) -> bool {
    match suffix_data.json(alloc) {
        Ok(json) => match write(alloc, &json) {
            Ok(written) => is_read_from(alloc, &written, suffix_data),
            Err(_) => false,
        },
        Err(_) => false,
    }
}

fn is_read_from(alloc: Global, written: &Bytes, suffix_data: &SuffixData) -> bool {
    match text_of(alloc, written) {
        Some(text) => SuffixData::read(&text.root(), 2) == Some(*suffix_data),
        None => false,
    }
}

fn has_its_suffix(alloc: Global, line: &str) -> bool {
    let Some((delta_hash, rest)) = line.split_once(' ') else {
        return false;
    };
    let Some((recovery_commitment, text)) = rest.split_once(' ') else {
        return false;
    };
    let suffix_data = SuffixData {
        delta_hash: hash_named(delta_hash),
        recovery_commitment: hash_named(recovery_commitment),
    };
    is_suffix(alloc, &suffix_data, text) && is_read_again(alloc, &suffix_data)
}

fn first_other_suffix(alloc: Global) -> Option<&'static str> {
    for line in SUFFIXES.lines() {
        if !has_its_suffix(alloc, line) {
            return Some(line);
        }
    }
    None
}

#[test]
fn a_suffix_has_the_algorithm_of_its_delta_hash(rt: HostRuntime) -> Result<(), Fail> {
    match first_other_suffix(rt.alloc()) {
        Some(line) => Err(Fail::from(line)),
        None => Ok(()),
    }
}
