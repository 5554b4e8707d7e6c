use super::samples::request;
use crate::words::three;
use st_base::{WantOfMemory, Work};
use st_ops::{RequestRefused, read_request};
use st_params::{Params, Schedule};
use std::alloc::Global;
use std::test::Fail;

// The version, the replaced text and its replacement in the request, the answer, and the number of
// opened signed texts. The answer is `read`, or why it is refused.
const NO_FORM: &str = r#"1 {} { NotJson 0
1 {} [1.5, NotJson 0
1 {} {"a":1.5} NotWhole 0
1 {} {} BadForm 0
1 {} [] BadForm 0
1 {} null BadForm 0
1 {} {"type":"create"} BadForm 0"#;

const CREATE: &str = r#"1 x x read 0
2 x x read 0
1 "create" ["create"] BadForm 0
1 "create" "update" BadForm 0
1 "type" "kind" BadForm 0
1 "type" "a":null,"type" BadForm 0
1 "delta":{ "delta":1,"x":{ BadForm 0
1 "deltaHash":" "deltaHash":1,"x":" BadForm 0
1 "recoveryCommitment" "x" BadForm 0
1 "deltaHash":" "deltaHash":"x BadHash 0
2 "recoveryCommitment":" "recoveryCommitment":"x BadHash 0
1 "updateCommitment" "x" read 0"#;

const CREATE_512: &str = "1 x x BadHash 0
2 x x read 0";

const UPDATE: &str = r#"1 ! ! read 1
1 "delta" "x" BadForm 0
1 "signedData":" "signedData":"! BadProof 1
1 "update" "recover" BadProof 1
1 SkU" SkQ" BadProof 1
1 "EiB9sQsc2_aA_kOMUDsj8SSqrzasgJlJ-KD6_L6B4viiaw" "EiAH6kMDyuj_41tkoBLAV1kt1vB9nEM1U6KBsUUCwuffRg" BadProof 1
1 "EiAH6kMDyuj_41tkoBLAV1kt1vB9nEM1U6KBsUUCwuffRg" "EiB9sQsc2_aA_kOMUDsj8SSqrzasgJlJ-KD6_L6B4viiaw" read 1
1 "EiB9sQsc2_aA_kOMUDsj8SSqrzasgJlJ-KD6_L6B4viiaw" "x" BadHash 0
1 "EiAH6kMDyuj_41tkoBLAV1kt1vB9nEM1U6KBsUUCwuffRg" "x" BadHash 0"#;

const DEACTIVATE: &str = r#"1 ! ! read 1
1 "type" "delta":{},"type" BadForm 0
1 "EiAF0rgxtvIcDJ8HJ_H_5NfzyhiztYSW8FxAi2K_Wtd9_g" "EiBqITJeLK6ZzYWolZ-PyLXxadxc2JbcDeILj9l7GhGiYA" BadProof 1"#;

const UPDATE_512: &str = "1 ! ! BadHash 0
2 ! ! read 1";

fn word(refused: RequestRefused) -> &'static str {
    match refused {
        RequestRefused::NotJson => "NotJson",
        RequestRefused::NotWhole => "NotWhole",
        RequestRefused::BadForm => "BadForm",
        RequestRefused::BadHash => "BadHash",
        RequestRefused::BadProof => "BadProof",
        RequestRefused::WantOfMemory => "WantOfMemory",
    }
}

// The answer to bytes at these limits: `read`, or why they are refused.
fn answer_of(alloc: Global, bytes: &[u8], params: &Params, work: &mut Work) -> &'static str {
    match read_request(alloc, bytes, params, work) {
        Ok(_) => "read",
        Err(refused) => word(refused),
    }
}

// Whether this is the answer to bytes at the limits of this version, with this many opened signed
// texts.
fn is_answered(rt: &HostRuntime, bytes: &[u8], version: u32, answer: &str, opened: u64) -> bool {
    let params = Schedule::with_second(2).at(version);
    let mut work = Work::new(rt);
    answer_of(rt.alloc(), bytes, &params, &mut work) == answer && work.proofs() == opened
}

// Whether the answer to the request of this name is that of the case.
fn is_so(rt: &HostRuntime, name: &str, case: &str) -> Result<bool, WantOfMemory> {
    let Some((version, old, rest)) = three(case) else {
        return Ok(false);
    };
    let Some((new, answer, opened)) = three(rest) else {
        return Ok(false);
    };
    let version = if version == "1" { 1 } else { 2 };
    let opened = if opened == "1" { 1 } else { 0 };
    let changed = request(name).replace(rt.alloc(), old, new)?;
    Ok(is_answered(rt, changed.as_bytes(), version, answer, opened))
}

// The first case of the request with another answer.
fn first_other(
    rt: &HostRuntime,
    name: &str,
    cases: &'static str,
) -> Result<&'static str, WantOfMemory> {
    for case in cases.lines() {
        if !is_so(rt, name, case)? {
            return Ok(case);
        }
    }
    Ok("none")
}

#[test]
fn bytes_of_no_form_are_refused(rt: HostRuntime) -> Result<(), Fail> {
    assert_eq!(rt; first_other(&rt, "empty", NO_FORM)?, "none");
    Ok(())
}

#[test]
fn a_create_is_refused_for_its_form_and_then_for_its_hashes(rt: HostRuntime) -> Result<(), Fail> {
    assert_eq!(rt; first_other(&rt, "create", CREATE)?, "none");
    assert_eq!(rt; first_other(&rt, "create-512", CREATE_512)?, "none");
    Ok(())
}

#[test]
fn what_is_signed_is_refused_last_for_its_proof(rt: HostRuntime) -> Result<(), Fail> {
    assert_eq!(rt; first_other(&rt, "update", UPDATE)?, "none");
    assert_eq!(rt; first_other(&rt, "deactivate", DEACTIVATE)?, "none");
    assert_eq!(rt; first_other(&rt, "update-512", UPDATE_512)?, "none");
    Ok(())
}
