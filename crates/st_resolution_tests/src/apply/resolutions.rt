use super::walking::walk;
use crate::made::{committed, operation};
use crate::words::three;
use st_apply::{DidState, StateParts, alike_law, anchored_law, apply, given_law, resolution_laws};
use st_base::{Copied, List, WantOfMemory, Work};
use st_canon::Json;
use st_doc::Document;
use st_hash::Hash;
use st_ops::Operation;
use st_params::Schedule;
use std::alloc::Global;
use std::test::Fail;

// The state after operations: the keys of its recovery and its update commitment, and its services.
// After the bar: the operations in the order of their places.
const CASES: &str = "active r v (bd)|update u - v a;create - r u b;create - r u c;update u - v d
active q v (b)|create - r u a;recover r q v b;recover r p w c
active r v (ac)|create - r u a;update v - w b;update u - v c
active q y (ce)|create - r u a;update u - v b;recover r q w c;update v - p d;update w - y e
active r w (ab)|create - r u a;update u - v x;update v - w b
active q none ()|create - r u x;recover r q v -;update u - w b
active r w (ac)|create - r u a;update u - v -;unproved u - v b;update u - w c
active r u (a)|create - r u a;recover u q v b;update r - v c
deactivated|create - r u a;deactivate r - - -;recover r q v b;create - r u a
absent|deactivate r - - -;recover r q v b";

// The number of operations counted when the state is opened, and after the bar the operations.
// Opening reads the delta of a create, unless an update has read it before.
const OPENED: &str = "0|
1|create - r u a
0|create - r u a;update u - v b";

// It is the commitment to the key of this name.
fn is_of_key(alloc: Global, commitment: &Hash, name: &str) -> bool {
    committed(alloc, name) == Some(*commitment)
}

fn is_update(alloc: Global, update: &Option<Hash>, name: &str) -> bool {
    match update {
        Some(commitment) => is_of_key(alloc, commitment, name),
        None => name == "none",
    }
}

fn id_of(service: &Json) -> &str {
    match service.member("id") {
        Some(id) => match id.as_text() {
            Some(text) => text,
            None => "no text",
        },
        None => "no id",
    }
}

// The ids of the services, one after another, in parentheses.
fn has_services(document: &Document, ids: &str) -> bool {
    let Some(mut rest) = ids.strip_prefix("(") else {
        return false;
    };
    for service in document.services() {
        match rest.strip_prefix(id_of(service)) {
            Some(more) => rest = more,
            None => return false,
        }
    }
    rest == ")"
}

fn is_active(
    alloc: Global,
    recovery: &Hash,
    update: &Option<Hash>,
    document: &Document,
    words: &str,
) -> bool {
    let Some((name, next, ids)) = three(words) else {
        return false;
    };
    is_of_key(alloc, recovery, name)
        && is_update(alloc, update, next)
        && has_services(document, ids)
}

fn are_shown(alloc: Global, parts: &StateParts, expected: &str) -> bool {
    match parts {
        StateParts::Absent => expected == "absent",
        StateParts::Deactivated => expected == "deactivated",
        StateParts::Active {
            recovery,
            update,
            document,
        } => match expected.strip_prefix("active ") {
            Some(words) => is_active(alloc, recovery, update, document.get(), words),
            None => false,
        },
    }
}

fn is_shown(rt: &HostRuntime, state: &DidState, expected: &str) -> Result<bool, WantOfMemory> {
    let parts = state.open(rt.alloc(), &mut Work::new(rt))?;
    Ok(are_shown(rt.alloc(), &parts, expected))
}

fn operations(alloc: Global, lines: &str) -> Option<List<Operation>> {
    let mut operations = List::new(alloc);
    for line in lines.split(';') {
        if !line.is_empty() {
            operations.push(alloc, operation(alloc, line)?).ok()?;
        }
    }
    Some(operations)
}

// The state after one step for each operation.
fn folded(
    alloc: Global,
    operations: &[Operation],
    work: &mut Work,
) -> Result<DidState, WantOfMemory> {
    let params = Schedule::new().at(0);
    let mut state = DidState::absent();
    for operation in operations {
        state = apply(alloc, &state, operation, &params, work)?;
    }
    Ok(state)
}

// Each operation counts once. Copied or packed it is the same state.
fn is_folded(
    rt: &HostRuntime,
    operations: &[Operation],
    expected: &str,
) -> Result<bool, WantOfMemory> {
    let mut work = Work::new(rt);
    let state = folded(rt.alloc(), operations, &mut work)?;
    Ok(
        work.applies() == operations.len() as u64
            && is_shown(rt, &state.copy(rt.alloc())?, expected)?
            && is_shown(rt, &state.pack(rt.alloc())?, expected)?,
    )
}

// The state by following commitments over all of them.
fn is_walked(
    rt: &HostRuntime,
    operations: &[Operation],
    expected: &str,
) -> Result<bool, WantOfMemory> {
    let params = Schedule::new().at(0);
    let state = walk(rt.alloc(), operations, &params, &mut Work::new(rt))?;
    is_shown(rt, &state, expected)
}

fn is_so(rt: &HostRuntime, case: &str) -> Result<bool, WantOfMemory> {
    let Some((expected, lines)) = case.split_once('|') else {
        return Ok(false);
    };
    match operations(rt.alloc(), lines) {
        Some(operations) => Ok(
            is_folded(rt, operations.as_slice(), expected)?
                && is_walked(rt, operations.as_slice(), expected)?,
        ),
        None => Ok(false),
    }
}

#[test]
fn operations_resolve_to_a_state(rt: HostRuntime) -> Result<(), Fail> {
    resolution_laws::<Hash, u8, u64>();
    alike_law::<Hash, u8, u64, u32>();
    given_law::<u8, u64>();
    anchored_law();
    for case in CASES.lines() {
        assert!(rt; is_so(&rt, case)?, "{case}");
    }
    Ok(())
}

// The number of operations counted when the state is opened; its parts can be copied.
fn counted(rt: &HostRuntime, operations: &[Operation]) -> Result<u64, WantOfMemory> {
    let state = folded(rt.alloc(), operations, &mut Work::new(rt))?;
    let mut work = Work::new(rt);
    let parts = state.open(rt.alloc(), &mut work)?;
    let _same = parts.copy(rt.alloc())?;
    Ok(work.applies())
}

fn is_counted(rt: &HostRuntime, case: &str) -> Result<bool, WantOfMemory> {
    let Some((expected, lines)) = case.split_once('|') else {
        return Ok(false);
    };
    match operations(rt.alloc(), lines) {
        Some(operations) => {
            Ok(counted(rt, operations.as_slice())? == if expected == "1" { 1 } else { 0 })
        }
        None => Ok(false),
    }
}

#[test]
fn opening_counts_a_delta_that_was_not_looked_at(rt: HostRuntime) -> Result<(), Fail> {
    for case in OPENED.lines() {
        assert!(rt; is_counted(&rt, case)?, "{case}");
    }
    Ok(())
}
