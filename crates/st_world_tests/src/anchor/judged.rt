use super::files::{FULL, FULL_TEXT, LONE, LONE_TEXT, SHARED};
use super::stands;
use crate::words::three;
use st_base::WantOfMemory;
use std::test::Fail;

// An anchor string, the first rule that fails, and the core index file.
const CASES: &str = r#"0.EiBEE2-jVbNnihFGrRb36GSelPtPwh_nfoMQwGD2HKr_ig A2 {}
01.EiBEE2-jVbNnihFGrRb36GSelPtPwh_nfoMQwGD2HKr_ig A2 {}
1000.EiBEE2-jVbNnihFGrRb36GSelPtPwh_nfoMQwGD2HKr_ig read {}
1001.EiBEE2-jVbNnihFGrRb36GSelPtPwh_nfoMQwGD2HKr_ig A2 {}
1.x A3 {}
x A1 {}
1.EiDpteJ2qE7C77I3EjrZICMvtx5enGD2CqLNP3W4ItuWKA C3 {"x":9007199254740991}
1.EiCXmddR9reNGdfS3-GziJAH6y3lbDSpLpmDiXlbJssU0w C2 {"x":9007199254740992}
1.EiC_MvViNomeE-9U24ddE2xsvMZSREZIKcVJEaqQabCuJQ C2 {"x":1.0}
1.EiBPU82hjCuqDANUu1-aPsvl7RKrTY4Ruoc8LxEWEgK5RQ C3 []"#;

// Whether these are the states of the entry. A bad anchor string needs no file.
fn is_judged(rt: &HostRuntime, case: &str) -> Result<bool, WantOfMemory> {
    let Some((text, rule, file)) = three(case) else {
        return Ok(false);
    };
    let files = if rule.starts_with('A') { 0 } else { 1 };
    let others = "unneeded unneeded unneeded unneeded";
    stands(rt, text, &[file], rule, others, (files, 0))
}

#[test]
fn an_anchor_string_or_a_core_file_fails_its_first_rule(rt: HostRuntime) -> Result<(), Fail> {
    for case in CASES.lines() {
        assert!(rt; is_judged(&rt, case)?, "{case}");
    }
    Ok(())
}

// Whether these are its states after the files of both entries were received.
fn stands_among(
    rt: &HostRuntime,
    text: &str,
    core: &str,
    others: &str,
) -> Result<bool, WantOfMemory> {
    stands(rt, text, &[LONE, FULL, SHARED], core, others, (2, 0))
}

#[test]
fn one_file_is_read_in_one_entry_and_rejected_in_another(rt: HostRuntime) -> Result<(), Fail> {
    assert!(rt; stands_among(&rt, LONE_TEXT, "read", "unneeded read missing missing")?);
    assert!(rt; stands_among(&rt, FULL_TEXT, "read", "unneeded P6 unneeded unneeded")?);
    Ok(())
}
