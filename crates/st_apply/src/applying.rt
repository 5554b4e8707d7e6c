ghost use Rattle.std.specs.Prelude.{◌≡◌, IfOk, true, unwrap_or};
ghost use Rattle.st_apply.specs.Applied.{applied, beginning_at, reveal_meets, seen_as, seen_at, sidetree, change_by, begun, step};
ghost use Rattle.st_apply.specs.inside.Applied.{is_awaited};
ghost use Rattle.st_apply.specs.Codes.{absent};
ghost use Rattle.st_apply.specs.Laws.{shown_active, shown_begun};
ghost use Rattle.st_apply.specs.inside.Shown.{shown_updated};
ghost use Rattle.st_base.specs.Work.{one_apply};
ghost use Rattle.st_doc.specs.Delta.{plain_delta};
ghost use Rattle.st_ops.specs.Operation.{plain_operation};

use crate::counting::{changed_document, counted_delta};
use crate::state::{Active, Begun, DidState, Kept, copy_delta};
use st_base::{Copied, WantOfMemory, Work};
use st_canon::PackedJson;
use st_doc::Delta;
use st_hash::Hash;
use st_jws::meets;
use st_ops::{Claim, Operation, claim_of};
use st_params::Params;
use std::alloc::Global;

/// The state after an operation at these limits, by one step of resolution, after DIF Sidetree
/// v1.0.0, "Operation Compilation"; the rules are this project's own. It counts as one operation
/// applied, also if it runs out of memory. If no step has read the delta of the previous create or
/// recover, this call reads it under the same count.
///
/// Before a create has acted, only a create acts. After it, a recover or a deactivate acts if its
/// reveal value meets the recovery commitment, and an update if its reveal value meets the update
/// commitment and its delta counts; each of the three only if it has a claim at these limits. After
/// a deactivate nothing acts. An operation that does not act leaves the state unchanged.
#[tactic(auto, unfolding(crate::specs::Applied::applied))]
pub fn apply(
    alloc: Global,
    state: &DidState,
    operation: &Operation,
    params: &Params,
    work: &mut Work,
) -> Result<DidState, WantOfMemory>
    ensures state { IfOk result (λ next. next ≡ applied params.now state.now (plain_operation operation.now)) }
    ensures work { work.new ≡ one_apply work.old }
{
    work.tick_applies();
    match &state.kept {
        Kept::Absent => on_absent(alloc, operation, params),
        Kept::Begun(begun) => match on_begun(alloc, begun, operation, params)? {
            Some(next) => Ok(next),
            None => state.copy(alloc),
        },
        Kept::Active(active) => match on_active(alloc, active, operation, params)? {
            Some(next) => Ok(next),
            None => state.copy(alloc),
        },
        Kept::Deactivated => state.copy(alloc),
    }
}

// The state after an operation, if no create has acted.
fn on_absent(
    alloc: Global,
    operation: &Operation,
    params: &Params,
) -> Result<DidState, WantOfMemory>
    ensures { IfOk result (λ next. next ≡ step sidetree absent (seen_at params.now (plain_operation operation.now))) }
{
    match operation {
        Operation::Create { suffix_data, delta } => begin(
            alloc,
            params,
            &suffix_data.recovery_commitment,
            &suffix_data.delta_hash,
            delta,
        ),
        _ => Ok(DidState::absent()),
    }
}

// The state after an operation on the result of a create or a recover. `None` if the operation does
// not act and this is known without reading the delta.
fn on_begun(
    alloc: Global,
    begun: &Begun,
    operation: &Operation,
    params: &Params,
) -> Result<Option<DidState>, WantOfMemory>
    ensures { IfOk result (λ next. unwrap_or next (shown_begun begun.now)
        ≡ step sidetree (shown_begun begun.now) (seen_at params.now (plain_operation operation.now))) }
{
    if let Operation::Create { .. } = operation {
        return Ok(None);
    }
    let active = begun.judged(alloc)?;
    match on_active(alloc, &active, operation, params)? {
        Some(next) => Ok(Some(next)),
        None => Ok(Some(DidState::active(active))),
    }
}

// The state after an operation on an active state; `None` if it does not act.
#[tactic(auto, using(crate::proofs::WalkLemmas::unawaited_leaves))]
fn on_active(
    alloc: Global,
    active: &Active,
    operation: &Operation,
    params: &Params,
) -> Result<Option<DidState>, WantOfMemory>
    ensures { IfOk result (λ next. unwrap_or next (shown_active active.now)
        ≡ step sidetree (shown_active active.now) (seen_at params.now (plain_operation operation.now))) }
{
    // Its reveal value is tested before its claim, which costs more.
    if !is_awaited(active, operation) {
        return Ok(None);
    }
    let claim = claim_of(alloc, operation, params)?;
    act(alloc, active, operation, &claim, params)
}

// Whether the operation's reveal value meets the commitment of the state that its kind reveals.
fn is_awaited(active: &Active, operation: &Operation) -> bool
    ensures { result ≡ is_awaited active.now.recovery active.now.update (plain_operation operation.now) }
{
    match operation {
        Operation::Create { .. } => false,
        Operation::Update { reveal, .. } => match &active.update {
            Some(commitment) => reveals(reveal, commitment),
            None => false,
        },
        Operation::Recover { reveal, .. } => reveals(reveal, &active.recovery),
        Operation::Deactivate { reveal, .. } => reveals(reveal, &active.recovery),
    }
}

// The state after an operation that an active state awaits, with this claim; `None` if it does not
// act.
fn act(
    alloc: Global,
    active: &Active,
    operation: &Operation,
    claim: &Option<Claim>,
    params: &Params,
) -> Result<Option<DidState>, WantOfMemory>
    requires { is_awaited active.now.recovery active.now.update (plain_operation operation.now) ≡ true }
    ensures { IfOk result (λ next. unwrap_or next (shown_active active.now)
        ≡ step sidetree (shown_active active.now) (seen_as params.now (plain_operation operation.now) claim.now)) }
{
    match (operation, claim) {
        (
            Operation::Recover { delta, .. },
            Some(
                Claim::Recover {
                    recovery_commitment,
                    delta_hash,
                },
            ),
        ) => {
            let next = begin(alloc, params, recovery_commitment, delta_hash, delta)?;
            Ok(Some(next))
        }
        (Operation::Deactivate { .. }, Some(Claim::Deactivate)) => {
            Ok(Some(DidState::deactivated()))
        }
        (Operation::Update { delta, .. }, Some(Claim::Update { delta_hash })) => {
            match counted_delta(alloc, params, delta_hash, delta)? {
                Some(delta) => Ok(Some(updated(alloc, active, delta, params)?)),
                None => Ok(None),
            }
        }
        _ => Ok(None),
    }
}

// The state after an update whose delta counts.
fn updated(
    alloc: Global,
    active: &Active,
    delta: Delta,
    params: &Params,
) -> Result<DidState, WantOfMemory>
    ensures { IfOk result (λ next. next ≡ shown_updated (change_by params.now (plain_delta delta)) active.now) }
{
    let update = delta.update;
    let document = changed_document(alloc, params, &active.document, delta)?;
    Ok(DidState::active(Active {
        recovery: active.recovery,
        update: Some(update),
        document,
    }))
}

// The state after a create or a recover, by its recovery commitment, its delta hash and its delta.
fn begin(
    alloc: Global,
    params: &Params,
    recovery: &Hash,
    delta_hash: &Hash,
    delta: &Option<PackedJson>,
) -> Result<DidState, WantOfMemory>
    ensures { IfOk result (λ next. next ≡ begun sidetree
        (beginning_at params.now recovery.now delta_hash.now delta.now)) }
{
    Ok(DidState::begun(Begun {
        params: *params,
        recovery: *recovery,
        delta_hash: *delta_hash,
        delta: copy_delta(alloc, delta)?,
    }))
}

/// Whether the reveal value meets the commitment.
#[tactic(auto, using(crate::proofs::WalkLemmas::meets_is))]
pub fn reveals(reveal: &Hash, commitment: &Hash) -> bool
    ensures { result ≡ reveal_meets reveal.now commitment.now }
{
    meets(reveal, commitment)
}
