ghost use Rattle.st_ops.specs.Operation.{plain_operation};
ghost use Rattle.st_ops.specs.Request.{IsComplete};

use super::samples::request;
use crate::words::three;
use st_base::{Copied, WantOfMemory, Work};
use st_hash::{Hash, hash_text};
use st_ops::{Claim, Operation, claim_of, read_request, suffix, write_request};
use st_params::{Params, Schedule};
use std::alloc::Global;
use std::test::Fail;

// The request, the version, the suffix, and the claim: its kind and its hash texts.
const CASES: &str = "create 1 EiCNA_edP2ZS7hJ_z7lDpDE8xR-dlL9ygjUmrf2IAn6ziQ nothing
create-512 2 E0BU5udGEOhciHGa9whkTaN3zzd2-MnYD4Zxe7oEvkE4XhvEXgkxCI9TrU2sFmDwIoO-lu_gxmmFA78eEEiGmH2W nothing
update 1 EiAH6kMDyuj_41tkoBLAV1kt1vB9nEM1U6KBsUUCwuffRg update EiAFVaEKQhfrDXww-lhjTt9v9HTTsll0ixxr4YErfHBcKQ
recover 2 EiAmxTT81V_zzETxbIsACL_nND9i9vDvWf67C8ovvFd8RQ recover EiDj8TJCFVfC8U7rRZ1jcYsHsVM5yijDbO9IJCH3NTUAZw EiAP9Q9xrEccLEEyUdAyHDcWuVjFIwbFa2abURZRkg1f4Q
deactivate 1 EiAF0rgxtvIcDJ8HJ_H_5NfzyhiztYSW8FxAi2K_Wtd9_g deactivate
update-512 2 E0AiFcF0fFHkcn_bY4FO2tcAowb91XKJYFIZ5LLe48C7BQAZKi6LKGlziXGQ3dtXP8Uvnex2LhuUUT5xtiTf0fh6 update E0Dlh29iui8za7SIkACJ_q-hXiUSYg5BW_ud18FZDqnqIKHxJOzvTFQd2MgX7igorlS-dNVN7O8ttCQXqfCekMS0";

fn is(alloc: Global, hash: &Hash, text: &str) -> Result<bool, WantOfMemory> {
    Ok(hash_text(alloc, hash)?.as_str() == text)
}

fn is_update(alloc: Global, delta_hash: &Hash, words: &str) -> Result<bool, WantOfMemory> {
    match words.strip_prefix("update ") {
        Some(text) => is(alloc, delta_hash, text),
        None => Ok(false),
    }
}

fn is_recover(
    alloc: Global,
    recovery_commitment: &Hash,
    delta_hash: &Hash,
    words: &str,
) -> Result<bool, WantOfMemory> {
    match three(words) {
        Some((kind, first, second)) => Ok(
            kind == "recover"
                && is(alloc, recovery_commitment, first)?
                && is(alloc, delta_hash, second)?,
        ),
        None => Ok(false),
    }
}

fn is_claim(alloc: Global, claim: &Option<Claim>, words: &str) -> Result<bool, WantOfMemory> {
    match claim {
        None => Ok(words == "nothing"),
        Some(Claim::Deactivate) => Ok(words == "deactivate"),
        Some(Claim::Update { delta_hash }) => is_update(alloc, delta_hash, words),
        Some(
            Claim::Recover {
                recovery_commitment,
                delta_hash,
            },
        ) => is_recover(alloc, recovery_commitment, delta_hash, words),
    }
}

// Whether these are the suffix and the claim of an operation, and it is written as the request.
fn is_shown(
    alloc: Global,
    operation: &Operation,
    params: &Params,
    request: &str,
    words: &str,
) -> Result<bool, WantOfMemory>
    requires { IsComplete (plain_operation operation.now) }
{
    let Some((named, claim)) = words.split_once(' ') else {
        return Ok(false);
    };
    Ok(
        is(alloc, &suffix(alloc, operation)?, named)?
            && is_claim(alloc, &claim_of(alloc, operation, params)?, claim)?
            && write_request(alloc, operation)?.as_slice() == request.as_bytes(),
    )
}

// The same for a copy of the operation.
fn is_copied(
    alloc: Global,
    operation: &Operation,
    params: &Params,
    request: &str,
    words: &str,
) -> Result<bool, WantOfMemory>
    requires { IsComplete (plain_operation operation.now) }
{
    let copied = operation.copy(alloc)?;
    is_shown(alloc, &copied, params, request, words)
}

// Whether the operation of the request is that of the case.
fn is_so(rt: &HostRuntime, case: &str) -> Result<bool, WantOfMemory> {
    let Some((name, version, words)) = three(case) else {
        return Ok(false);
    };
    let version = if version == "1" { 1 } else { 2 };
    let params = Schedule::with_second(2).at(version);
    let bytes = request(name).as_bytes();
    match read_request(rt.alloc(), bytes, &params, &mut Work::new(rt)) {
        Ok(operation) => is_copied(rt.alloc(), &operation, &params, request(name), words),
        Err(_) => Ok(false),
    }
}

#[test]
fn requests_are_read_and_written(rt: HostRuntime) -> Result<(), Fail> {
    for case in CASES.lines() {
        assert!(rt; is_so(&rt, case)?, "{case}");
    }
    Ok(())
}
