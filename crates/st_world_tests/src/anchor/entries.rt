use super::files::{
    ALL, ALL_TEXT, BELOW, CORE, DELTAS, PROOF, PROOFS, PROVISIONAL, SHORT_CHUNK, TEXT, UPDATES,
};
use super::{after, stands};
use st_anchor::{Bound, entry_laws};
use st_base::{Bytes, WantOfMemory, Work};
use st_canon::{PackedJson, write};
use st_ops::Operation;
use std::alloc::Global;
use std::test::Fail;

// Whether these are the states of the entry of a recover and an update after these files were
// received.
fn serves(rt: &HostRuntime, files: &[&str]) -> Result<bool, WantOfMemory> {
    stands(rt, TEXT, files, "read", "Q3 read read K4", (5, 1))
}

// One file serves as both proof files: it is rejected as the first and read as the second.
#[test]
fn files_come_in_any_order_and_may_serve_two_roles(rt: HostRuntime) -> Result<(), Fail> {
    assert!(rt;
        serves(&rt, &[CORE, BELOW, PROOF, SHORT_CHUNK])?
            && serves(&rt, &[SHORT_CHUNK, PROOF, BELOW, CORE])?
            && serves(&rt, &[PROOF, CORE, SHORT_CHUNK, BELOW])?
    );
    Ok(())
}

fn with_delta(
    alloc: Global,
    name: &str,
    delta: &Option<PackedJson>,
) -> Result<Bytes, WantOfMemory> {
    let mut line = Bytes::from_slice(alloc, name.as_bytes())?;
    if let Some(delta) = delta {
        let text = write(alloc, &delta.unpack(alloc)?)?;
        line.push_all(alloc, text.as_slice())?;
    }
    Ok(line)
}

// The kind of an operation, and its delta.
fn line(alloc: Global, operation: &Operation) -> Result<Bytes, WantOfMemory> {
    match operation {
        Operation::Create { delta, .. } => with_delta(alloc, " create ", delta),
        Operation::Update { delta, .. } => with_delta(alloc, " update ", delta),
        Operation::Recover { delta, .. } => with_delta(alloc, " recover ", delta),
        Operation::Deactivate { .. } => Bytes::from_slice(alloc, b" deactivate"),
    }
}

fn given(alloc: Global, bound: &Bound) -> Result<Bytes, WantOfMemory> {
    let mut text = Bytes::new(alloc);
    for given in bound.give(alloc)?.as_slice() {
        let line = line(alloc, &given.operation)?;
        text.push_all(alloc, line.as_slice())?;
    }
    Ok(text)
}

// Whether the entry of all kinds gives this after these files were received.
fn gives(rt: &HostRuntime, files: &[&str], wanted: &str) -> Result<bool, WantOfMemory> {
    let bound = after(rt.alloc(), ALL_TEXT, files, &mut Work::new(rt))?;
    let found = given(rt.alloc(), &bound)?;
    Ok(found.as_slice() == wanted.as_bytes())
}

#[test]
fn an_entry_gives_what_its_files_allow(rt: HostRuntime) -> Result<(), Fail> {
    entry_laws();
    let all = " create 1 recover 2 deactivate update 3";
    assert!(rt;
        gives(&rt, &[UPDATES, DELTAS, PROOFS], "")?
            && gives(&rt, &[ALL, UPDATES], " create ")?
            && gives(&rt, &[ALL, UPDATES, PROVISIONAL], " create  update ")?
            && gives(
                &rt,
                &[ALL, UPDATES, PROVISIONAL, DELTAS],
                " create 1 update 3"
            )?
            && gives(&rt, &[PROOFS, ALL, UPDATES, PROVISIONAL, DELTAS], all)?
    );
    Ok(())
}
