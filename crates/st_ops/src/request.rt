ghost use Rattle.std.specs.List.{flat_map};
ghost use Rattle.std.specs.Prelude.{◌≡◌, ◌≢◌, ◌≤◌, ℕ, List, codes, if◌then◌else◌, IfNone, IfOk, IfSome, Some, Ok, Err};
ghost use Rattle.st_base.specs.Answers.{GivesAs};
ghost use Rattle.st_base.specs.Work.{WorkValue, ProofsAtMost};
ghost use Rattle.st_plain.specs.Plain.{escape};
ghost use Rattle.st_plain.specs.Shapes.{member_in, text_at};
ghost use Rattle.st_ops.specs.Operation.{CountsOpening, plain_operation};
ghost use Rattle.st_ops.specs.Request.{asked, create_asked, create_of, deactivate_asked, recover_asked, refusal_of, request_of, update_asked, with_claim, IsComplete, IsDeltaWithin, IsReadAgain};
ghost use Rattle.st_ops.specs.declared.request.RequestRefused.TheVariants.{BadProof};

use crate::claim::claim_of;
use crate::forms::{
    CreateParts, create_parts, is_change_form, is_deactivate_form, parts_in_turn, proof_in,
    target_in,
};
use crate::operation::Operation;
use st_base::{WantOfMemory, Work};
use st_canon::PackedJson;
use st_indexfiles::SuffixData;
use st_params::Params;
use st_plain::ReadRefused;
use st_scan::{CanonicalText, Scanned};
use std::alloc::Global;
use thiserror::Error;

/// Why bytes are not a request: the first of these that holds, in this order.
#[derive(Clone, Copy, Debug, Drop, PartialEq, Eq, Error)]
pub enum RequestRefused {
    /// The bytes are not JSON.
    #[error("not JSON")]
    NotJson,
    /// A number in them is not whole.
    #[error("a number is not whole")]
    NotWhole,
    /// They are not an object with exactly the members of the kind named by `type`, each a text or
    /// an object as required.
    #[error("not the form of a request")]
    BadForm,
    /// A text that must be a hash text of the version is none.
    #[error("not a hash text")]
    BadHash,
    /// The signed text does not open, or the operation has no claim.
    #[error("not a proof of the operation")]
    BadProof,
    /// Out of memory.
    #[error("out of memory")]
    WantOfMemory,
}

impl From<WantOfMemory> for RequestRefused {
    ghost use Rattle.std.specs.Prelude.{◌≡◌};
    ghost use Rattle.st_ops.specs.declared.request.RequestRefused.TheVariants.{WantOfMemory};

    ghost from_gives = { λ _ refused. refused ≡ WantOfMemory };

    fn from(_want: WantOfMemory) -> RequestRefused {
        RequestRefused::WantOfMemory
    }
}

const CREATE: &[u8] = b"create";

const UPDATE: &[u8] = b"update";

const RECOVER: &[u8] = b"recover";

const DEACTIVATE: &[u8] = b"deactivate";

/// The operation of a request at these limits. Opening its signed text counts as one proof.
///
/// A refusal other than `WantOfMemory` is returned if and only if it is the first, in the order of
/// `RequestRefused`, that holds.
pub fn read_request(
    alloc: Global,
    bytes: &[u8],
    params: &Params,
    work: &mut Work,
) -> Result<Operation, RequestRefused>
    ensures value { GivesAs plain_operation refusal_of (request_of params.now bytes.now) result }
    ensures counted { ProofsAtMost 1 work.old work.new }
    // It is counted if and only if the signed text was opened.
    ensures exact { CountsOpening result work.old work.new }
    // The proof and the delta are there, if the kind has them.
    ensures complete { IfOk result (λ operation. IsComplete (plain_operation operation)) }
    // The text that `write_request` writes for it is read again, if the delta does not nest too
    // deep.
    ensures again { IfOk result (λ operation. IsDeltaWithin 125 (plain_operation operation)
        → IsReadAgain params.now (plain_operation operation)) }
{
    match CanonicalText::read(alloc, bytes) {
        Ok(text) => asked(alloc, &text.root(), params, work),
        Err(ReadRefused::NotJson) => Err(RequestRefused::NotJson),
        Err(ReadRefused::NotWhole) => Err(RequestRefused::NotWhole),
        Err(ReadRefused::WantOfMemory) => Err(RequestRefused::WantOfMemory),
    }
}

// By the type of the request. Creates, which are most requests, are recognized in one walk.
#[tactic(auto, unfolding(crate::specs::Request::asked))]
fn asked(
    alloc: Global,
    request: &Scanned<'_>,
    params: &Params,
    work: &mut Work,
) -> Result<Operation, RequestRefused>
    ensures value { GivesAs plain_operation refusal_of (asked params.now request.now) result }
    ensures counted { ProofsAtMost 1 work.old work.new }
    ensures exact { CountsOpening result work.old work.new }
{
    if let Some(parts) = parts_in_turn(request) {
        return create_of(alloc, &parts, params);
    }
    let Some(kind) = kind_in(request) else {
        return Err(RequestRefused::BadForm);
    };
    if kind == CREATE {
        create_asked(alloc, request, params)
    } else if kind == UPDATE {
        update_asked(alloc, request, params, work)
    } else if kind == RECOVER {
        recover_asked(alloc, request, params, work)
    } else if kind == DEACTIVATE {
        deactivate_asked(alloc, request, params, work)
    } else {
        Err(RequestRefused::BadForm)
    }
}

// The text of the type, if none of its bytes is escaped; no valid type has escaped bytes.
fn kind_in<'a>(request: &Scanned<'a>) -> Option<&'a [u8]>
    ensures some { IfSome result (λ kind. text_at (codes "type") (Some request.now) ≡ Some kind.now) }
    ensures none { IfNone result ((kind : List ℕ) → text_at (codes "type") (Some request.now)
        ≡ Some kind → flat_map escape kind ≢ kind) }
{
    match request.member("type") {
        Some(kind) => kind.bare_text(),
        None => None,
    }
}

fn create_asked(
    alloc: Global,
    request: &Scanned<'_>,
    params: &Params,
) -> Result<Operation, RequestRefused>
    ensures value { GivesAs plain_operation refusal_of (create_asked params.now (Some request.now)) result }
    ensures exact { (work : WorkValue) → CountsOpening result work work }
{
    match create_parts(request) {
        Some(parts) => create_of(alloc, &parts, params),
        None => Err(RequestRefused::BadForm),
    }
}

fn create_of(
    alloc: Global,
    parts: &CreateParts<'_>,
    params: &Params,
) -> Result<Operation, RequestRefused>
    ensures value { GivesAs plain_operation refusal_of
        (create_of params.now (Some parts.now.suffix_data) (Some parts.now.delta)) result }
    ensures exact { (work : WorkValue) → CountsOpening result work work }
{
    let Some(suffix_data) = SuffixData::read(&parts.suffix_data, params.version()) else {
        return Err(RequestRefused::BadHash);
    };
    let delta = Some(PackedJson::keep(alloc, parts.delta.as_slice())?);
    Ok(Operation::Create { suffix_data, delta })
}

#[tactic(auto, using(crate::proofs::RequestLemmas::change_signed))]
fn update_asked(
    alloc: Global,
    request: &Scanned<'_>,
    params: &Params,
    work: &mut Work,
) -> Result<Operation, RequestRefused>
    ensures value { GivesAs plain_operation refusal_of (update_asked params.now (Some request.now)) result }
    ensures counted { ProofsAtMost 1 work.old work.new }
    ensures exact { CountsOpening result work.old work.new }
{
    if !is_change_form(request) {
        return Err(RequestRefused::BadForm);
    }
    let Some(target) = target_in(request, params.version()) else {
        return Err(RequestRefused::BadHash);
    };
    let Some(proof) = proof_in(alloc, request, params.max_signed(), work)? else {
        return Err(RequestRefused::BadProof);
    };
    let operation = Operation::Update {
        suffix: target.suffix,
        reveal: target.reveal,
        proof: Some(proof),
        delta: delta_in(alloc, request)?,
    };
    if has_claim(alloc, &operation, params)? {
        Ok(operation)
    } else {
        Err(RequestRefused::BadProof)
    }
}

#[tactic(auto, using(crate::proofs::RequestLemmas::change_signed))]
fn recover_asked(
    alloc: Global,
    request: &Scanned<'_>,
    params: &Params,
    work: &mut Work,
) -> Result<Operation, RequestRefused>
    ensures value { GivesAs plain_operation refusal_of (recover_asked params.now (Some request.now)) result }
    ensures counted { ProofsAtMost 1 work.old work.new }
    ensures exact { CountsOpening result work.old work.new }
{
    if !is_change_form(request) {
        return Err(RequestRefused::BadForm);
    }
    let Some(target) = target_in(request, params.version()) else {
        return Err(RequestRefused::BadHash);
    };
    let Some(proof) = proof_in(alloc, request, params.max_signed(), work)? else {
        return Err(RequestRefused::BadProof);
    };
    let operation = Operation::Recover {
        suffix: target.suffix,
        reveal: target.reveal,
        proof: Some(proof),
        delta: delta_in(alloc, request)?,
    };
    if has_claim(alloc, &operation, params)? {
        Ok(operation)
    } else {
        Err(RequestRefused::BadProof)
    }
}

#[tactic(auto, using(crate::proofs::RequestLemmas::deactivate_signed))]
fn deactivate_asked(
    alloc: Global,
    request: &Scanned<'_>,
    params: &Params,
    work: &mut Work,
) -> Result<Operation, RequestRefused>
    ensures value { GivesAs plain_operation refusal_of (deactivate_asked params.now (Some request.now)) result }
    ensures counted { ProofsAtMost 1 work.old work.new }
    ensures exact { CountsOpening result work.old work.new }
{
    if !is_deactivate_form(request) {
        return Err(RequestRefused::BadForm);
    }
    let Some(target) = target_in(request, params.version()) else {
        return Err(RequestRefused::BadHash);
    };
    let Some(proof) = proof_in(alloc, request, params.max_signed(), work)? else {
        return Err(RequestRefused::BadProof);
    };
    let operation = Operation::Deactivate {
        suffix: target.suffix,
        reveal: target.reveal,
        proof: Some(proof),
    };
    if has_claim(alloc, &operation, params)? {
        Ok(operation)
    } else {
        Err(RequestRefused::BadProof)
    }
}

fn delta_in(alloc: Global, request: &Scanned<'_>) -> Result<Option<PackedJson>, WantOfMemory>
    ensures { IfOk result (λ delta. delta ≡ member_in (codes "delta") (Some request.now)) }
{
    match request.member("delta") {
        Some(delta) => Ok(Some(PackedJson::keep(alloc, delta.as_slice())?)),
        None => Ok(None),
    }
}

#[tactic(auto, unfolding(crate::specs::Request::with_claim))]
fn has_claim(alloc: Global, operation: &Operation, params: &Params) -> Result<bool, WantOfMemory>
    ensures { IfOk result (λ has. with_claim params.now (plain_operation operation.now)
        ≡ (if has then Ok (plain_operation operation.now) else Err BadProof)) }
{
    Ok(claim_of(alloc, operation, params)?.is_some())
}
