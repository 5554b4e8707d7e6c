use super::case_of;
use st_base::{Bytes, Copied, FileRefused, Shared, WantOfMemory, Work};
use st_canon::{PackedJson, equal, read, write};
use st_datafiles::{Role, read_chunk, write_chunk};
use st_params::Schedule;
use std::alloc::Global;
use std::test::Fail;

// The wanted number of deltas, the answer, and the file: the rule that rejects it, or `read` and
// each delta as its canonical text after a comma.
const CASES: &str = r#"1 K2 x
1 K2 {"deltas":[1.5]}
3 K2 {"deltas":[1]}}
3 K2 {"deltas":[1
1 K3 {}
1 K3 []
3 K3 [1]
1 K3 {"deltas":{}}
1 K3 {"deltas":null}
1 K3 {"deltas":[null],"a":1}
3 K3 {"deltas":[1],"more":[]}
3 K3 {"other":[1]}
1 K4 {"deltas":[]}
1 K4 {"deltas":[null,null]}
3 K4 {"deltas":[null,null]}
3 K4 {"deltas":[1,2,3,4]}
1 read,null {"deltas":[null]}
1 read,{"a":2,"b":1} {"deltas":[0], "deltas":[{"b":1,"a":2}]}
0 read {"deltas":[]}
3 read,{"a":1,"b":"x"},null,[] {"deltas":[{"a":1,"b":"x"},null,[]]}
2 read,{"a":1,"b":"x"},[2] {"deltas": [ {"a":1, "b":"\u0078"},[ 2 ] ] }
2 read,{"a":1,"b":"x"},[2] {"deltas": [ {"b":"\u0078" , "a":1},[ 2 ] ] }"#;

fn are_shown(alloc: Global, deltas: &[PackedJson], texts: &str) -> Result<bool, WantOfMemory> {
    let mut shown = Bytes::new(alloc);
    for delta in deltas {
        let text = write(alloc, &delta.unpack(alloc)?)?;
        shown.push_all(alloc, b",")?;
        shown.push_all(alloc, text.as_slice())?;
    }
    Ok(shown.as_slice() == texts.as_bytes())
}

// Whether this is the answer to the file if this many deltas are wanted.
fn is_answered(
    rt: &HostRuntime,
    file: Bytes,
    wanted: usize,
    answer: &str,
) -> Result<bool, WantOfMemory> {
    let alloc = rt.alloc();
    let file = Shared::new(alloc, file)?;
    let params = Schedule::new().newest();
    match read_chunk(alloc, &file, wanted, &params, &mut Work::new(rt)) {
        Ok(deltas) => match answer.strip_prefix("read") {
            Some(texts) => are_shown(alloc, deltas.as_slice(), texts),
            None => Ok(false),
        },
        Err(FileRefused::Rejected(rule)) => Ok(rule.name() == answer),
        Err(FileRefused::WantOfMemory) => Err(WantOfMemory),
    }
}

fn is_so(rt: &HostRuntime, case: &str) -> Result<bool, WantOfMemory> {
    match case_of(case) {
        Some((wanted, answer, file)) => {
            let file = Bytes::from_slice(rt.alloc(), file.as_bytes())?;
            is_answered(rt, file, wanted, answer)
        }
        None => Ok(false),
    }
}

#[test]
fn a_chunk_file_fails_its_first_rule(rt: HostRuntime) -> Result<(), Fail> {
    for case in CASES.lines() {
        assert!(rt; is_so(&rt, case)?, "{case}");
    }
    Ok(())
}

fn spaces(alloc: Global, count: usize) -> Result<Bytes, WantOfMemory> {
    let bytes = vec![in alloc; b' '; count]?;
    Bytes::from_slice(alloc, bytes.as_slice())
}

#[test]
fn a_chunk_file_has_a_largest_size(rt: HostRuntime) -> Result<(), Fail> {
    assert!(rt; is_answered(&rt, spaces(rt.alloc(), 10_000_000)?, 1, "K2")?);
    assert!(rt; is_answered(&rt, spaces(rt.alloc(), 10_000_001)?, 1, "K1")?);
    Ok(())
}

// Whether these deltas are written as their canonical text, and the first of them as it is read.
fn are_written(alloc: Global, deltas: &[PackedJson]) -> Result<bool, WantOfMemory> {
    let written = write_chunk(alloc, deltas)?;
    Ok(
        written.as_slice() == b"{\"deltas\":[{\"a\":-1,\"b\":[null]},\"x\"]}".as_slice()
            && is_first(alloc, deltas, b"{\"a\":-1,\"b\":[null]}")?,
    )
}

fn are_written_again(rt: &HostRuntime) -> Result<bool, WantOfMemory> {
    let alloc = rt.alloc();
    let file = Bytes::from_slice(alloc, b"{\"deltas\":[{\"b\":[null],\"a\":-1},\"x\"]}")?;
    let file = Shared::new(alloc, file)?;
    let params = Schedule::new().newest();
    let mut work = Work::new(rt);
    match read_chunk(alloc, &file, 2, &params, &mut work) {
        Ok(packed) => Ok(are_written(alloc, packed.as_slice())? && work.files() == 1),
        Err(_) => Ok(false),
    }
}

fn is_first(alloc: Global, deltas: &[PackedJson], text: &[u8]) -> Result<bool, WantOfMemory> {
    match read(alloc, text) {
        Ok(value) => match deltas.first() {
            Some(first) => Ok(equal(&first.unpack(alloc)?, &value)),
            None => Ok(false),
        },
        Err(_) => Ok(false),
    }
}

#[test]
fn deltas_are_written_and_read_again_in_their_order(rt: HostRuntime) -> Result<(), Fail> {
    assert!(rt; are_written_again(&rt)?);
    assert!(rt; write_chunk(rt.alloc(), &[])?.as_slice() == b"{}".as_slice());
    Ok(())
}

// Whether a role is before another, and equals its copy.
fn is_before(alloc: Global, first: Role, second: Role) -> Result<bool, WantOfMemory> {
    Ok(first < second && first.copy(alloc)? == first)
}

#[test]
fn roles_stand_in_their_order(rt: HostRuntime) -> Result<(), Fail> {
    let alloc = rt.alloc();
    assert!(rt;
        is_before(alloc, Role::Core, Role::CoreProof)?
            && is_before(alloc, Role::CoreProof, Role::Provisional)?
            && is_before(alloc, Role::Provisional, Role::ProvisionalProof)?
            && is_before(alloc, Role::ProvisionalProof, Role::Chunk)?
    );
    Ok(())
}
