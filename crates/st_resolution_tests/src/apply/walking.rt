//! Resolution from nothing by hand: by searches over all operations, from the first create along
//! recovers and deactivates, and then along the updates after the last of these.

use st_apply::{DidState, StateParts, apply, counts_for};
use st_base::{WantOfMemory, Work};
use st_hash::Hash;
use st_jws::meets;
use st_ops::{Claim, Operation, claim_of};
use st_params::Params;
use std::alloc::Global;

fn is_full_for(
    alloc: Global,
    operation: &Operation,
    commitment: &Hash,
    params: &Params,
) -> Result<bool, WantOfMemory> {
    let reveal = match operation {
        Operation::Recover { reveal, .. } => reveal,
        Operation::Deactivate { reveal, .. } => reveal,
        _ => return Ok(false),
    };
    let claim = claim_of(alloc, operation, params)?;
    Ok(claim.is_some() && meets(reveal, commitment))
}

fn is_update_for(
    alloc: Global,
    operation: &Operation,
    commitment: &Hash,
    params: &Params,
) -> Result<bool, WantOfMemory> {
    let Operation::Update { reveal, delta, .. } = operation else {
        return Ok(false);
    };
    let claim = claim_of(alloc, operation, params)?;
    match &claim {
        Some(Claim::Update { delta_hash }) => {
            let counts = counts_for(alloc, params, delta_hash, delta)?;
            Ok(counts && meets(reveal, commitment))
        }
        _ => Ok(false),
    }
}

fn recovery_in(
    alloc: Global,
    state: &DidState,
    work: &mut Work,
) -> Result<Option<Hash>, WantOfMemory> {
    let parts = state.open(alloc, work)?;
    match &parts {
        StateParts::Active { recovery, .. } => Ok(Some(*recovery)),
        _ => Ok(None),
    }
}

fn update_in(
    alloc: Global,
    state: &DidState,
    work: &mut Work,
) -> Result<Option<Hash>, WantOfMemory> {
    let parts = state.open(alloc, work)?;
    match &parts {
        StateParts::Active { update, .. } => Ok(*update),
        _ => Ok(None),
    }
}

// The first recover or deactivate after a place that meets the recovery commitment, and its place.
fn next_full<'a>(
    alloc: Global,
    operations: &'a [Operation],
    after: usize,
    state: &DidState,
    params: &Params,
    work: &mut Work,
) -> Result<Option<(usize, &'a Operation)>, WantOfMemory> {
    let Some(commitment) = recovery_in(alloc, state, work)? else {
        return Ok(None);
    };
    for (at, operation) in operations.iter().enumerate() {
        if at > after && is_full_for(alloc, operation, &commitment, params)? {
            return Ok(Some((at, operation)));
        }
    }
    Ok(None)
}

// The first update after a place that meets the update commitment and whose delta counts.
fn next_update<'a>(
    alloc: Global,
    operations: &'a [Operation],
    after: usize,
    state: &DidState,
    params: &Params,
    work: &mut Work,
) -> Result<Option<(usize, &'a Operation)>, WantOfMemory> {
    let Some(commitment) = update_in(alloc, state, work)? else {
        return Ok(None);
    };
    for (at, operation) in operations.iter().enumerate() {
        if at > after && is_update_for(alloc, operation, &commitment, params)? {
            return Ok(Some((at, operation)));
        }
    }
    Ok(None)
}

// The first create, and its place.
fn start(operations: &[Operation]) -> Option<(usize, &Operation)> {
    for (at, operation) in operations.iter().enumerate() {
        if let Operation::Create { .. } = operation {
            return Some((at, operation));
        }
    }
    None
}

/// The resolution of the operations. The place of each is its index in the list.
pub(crate) fn walk(
    alloc: Global,
    operations: &[Operation],
    params: &Params,
    work: &mut Work,
) -> Result<DidState, WantOfMemory> {
    let mut state = DidState::absent();
    let Some((mut place, create)) = start(operations) else {
        return Ok(state);
    };
    state = apply(alloc, &state, create, params, work)?;
    for _turn in operations {
        let Some((next, operation)) = next_full(alloc, operations, place, &state, params, work)?
        else {
            break;
        };
        state = apply(alloc, &state, operation, params, work)?;
        place = next;
    }
    for _turn in operations {
        let Some((next, operation)) = next_update(alloc, operations, place, &state, params, work)?
        else {
            break;
        };
        state = apply(alloc, &state, operation, params, work)?;
        place = next;
    }
    Ok(state)
}
