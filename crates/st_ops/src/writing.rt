ghost use Rattle.std.specs.Prelude.{◌≡◌, ℕ, List, IfOk, Ok, option_map};
ghost use Rattle.std.specs.Option.{option_copied};
ghost use Rattle.st_plain.specs.Objects.{some_listed};
ghost use Rattle.st_plain.specs.Plain.{object, text};
ghost use Rattle.st_canon.specs.View.{plain, plain_members};
ghost use Rattle.st_hash.specs.Hash.{IsHash};
ghost use Rattle.st_ops.specs.Operation.{HasHashes, creating, plain_operation, plain_proof};
ghost use Rattle.st_ops.specs.Request.{request_of, IsComplete, named_members, proof_json, request_json, request_text, signed_json, IsDeltaWithin};
ghost use Rattle.st_params.specs.ParamsValue.{ParamsValue};

use crate::operation::Operation;
use st_base::{Bytes, Shared, Text, WantOfMemory};
use st_canon::{Json, Object, PackedJson, write};
use st_hash::Hash;
use st_indexfiles::{SuffixData, hash_json};
use st_jws::Signed;
use std::alloc::Global;

/// The canonical text of the request for an operation, which has its proof and its delta if its
/// kind has them.
pub fn write_request(alloc: Global, operation: &Operation) -> Result<Bytes, WantOfMemory>
    requires { IsComplete (plain_operation operation.now) }
    ensures text { IfOk result (λ text. text ≡ request_text (plain_operation operation.now)) }
    // All limits that accept the operation read it again, if its delta does not nest too deep.
    ensures read { IfOk result (λ text. (limits : ParamsValue) (bytes : List ℕ)
        → request_of limits bytes ≡ Ok (plain_operation operation.now)
        → IsDeltaWithin 125 (plain_operation operation.now)
        → request_of limits text ≡ Ok (plain_operation operation.now)) }
{
    know_hashes(operation);
    let request = request_json(alloc, operation)?;
    Ok(write(alloc, &request)?)
}

/// For proofs: the hashes of an operation satisfy the rules of hashes, so their texts are read
/// again. Nothing is done.
pub fn know_hashes(operation: &Operation)
    ensures { HasHashes (plain_operation operation.now) }
{
    match operation {
        Operation::Create { suffix_data, .. } => {
            know_hash(&suffix_data.delta_hash);
            know_hash(&suffix_data.recovery_commitment);
        }
        Operation::Update { suffix, reveal, .. } => {
            know_hash(suffix);
            know_hash(reveal);
        }
        Operation::Recover { suffix, reveal, .. } => {
            know_hash(suffix);
            know_hash(reveal);
        }
        Operation::Deactivate { suffix, reveal, .. } => {
            know_hash(suffix);
            know_hash(reveal);
        }
    }
}

fn know_hash(hash: &Hash)
    ensures { IsHash hash.now }
{
    let _code = hash.code();
}

fn request_json(alloc: Global, operation: &Operation) -> Result<Json, WantOfMemory>
    ensures { IfOk result (λ json. plain json ≡ request_json (plain_operation operation.now)) }
{
    Ok(Json::Object(request_members(alloc, operation)?))
}

fn request_members(alloc: Global, operation: &Operation) -> Result<Object, WantOfMemory>
    ensures { IfOk result (λ members. object (plain_members members) ≡ request_json (plain_operation operation.now)) }
{
    match operation {
        Operation::Create { suffix_data, delta } => create_members(alloc, suffix_data, delta),
        Operation::Update {
            suffix,
            reveal,
            proof,
            delta,
        } => signed_members(alloc, "update", suffix, reveal, proof, delta.as_ref()),
        Operation::Recover {
            suffix,
            reveal,
            proof,
            delta,
        } => signed_members(alloc, "recover", suffix, reveal, proof, delta.as_ref()),
        Operation::Deactivate {
            suffix,
            reveal,
            proof,
        } => signed_members(alloc, "deactivate", suffix, reveal, proof, None),
    }
}

#[tactic(auto, unfolding(st_plain::specs::Objects::put_some))]
fn create_members(
    alloc: Global,
    suffix_data: &SuffixData,
    delta: &Option<PackedJson>,
) -> Result<Object, WantOfMemory>
    ensures { IfOk result (λ members. object (plain_members members) ≡ request_json (creating suffix_data.now delta.now)) }
{
    let mut members = Object::new(alloc);
    let kind = text_json(alloc, "create")?;
    members.set(alloc, "type", kind)?;
    let suffix_data = suffix_data.json(alloc)?;
    members.set(alloc, "suffixData", suffix_data)?;
    let delta = delta_json(alloc, delta.as_ref())?;
    members.set_some(alloc, "delta", delta)?;
    Ok(members)
}

fn signed_members(
    alloc: Global,
    kind: &str,
    suffix: &Hash,
    reveal: &Hash,
    proof: &Option<Shared<Signed>>,
    delta: Option<&PackedJson>,
) -> Result<Object, WantOfMemory>
    ensures { IfOk result (λ members. object (plain_members members)
        ≡ signed_json kind.now (record { suffix = suffix.now; reveal = reveal.now }) (option_map plain_proof proof.now) (option_copied delta.entry)) }
{
    let mut members = named_members(alloc, kind, suffix, reveal)?;
    let signed = proof_json(alloc, proof)?;
    members.set_some(alloc, "signedData", signed)?;
    let delta = delta_json(alloc, delta)?;
    members.set_some(alloc, "delta", delta)?;
    Ok(members)
}

#[tactic(auto, unfolding(st_plain::specs::Objects::put_some))]
fn named_members(
    alloc: Global,
    kind: &str,
    suffix: &Hash,
    reveal: &Hash,
) -> Result<Object, WantOfMemory>
    ensures { IfOk result (λ members. plain_members members
        ≡ some_listed (named_members kind.now (record { suffix = suffix.now; reveal = reveal.now }))) }
{
    let mut members = Object::new(alloc);
    let kind = text_json(alloc, kind)?;
    members.set(alloc, "type", kind)?;
    let suffix = hash_json(alloc, suffix)?;
    members.set(alloc, "didSuffix", suffix)?;
    let reveal = hash_json(alloc, reveal)?;
    members.set(alloc, "revealValue", reveal)?;
    Ok(members)
}

fn text_json(alloc: Global, bytes: &str) -> Result<Json, WantOfMemory>
    ensures { IfOk result (λ json. plain json ≡ text bytes.now) }
{
    Ok(Json::Text(Text::from_text(alloc, bytes)?))
}

fn proof_json(alloc: Global, proof: &Option<Shared<Signed>>) -> Result<Option<Json>, WantOfMemory>
    ensures { IfOk result (λ json. option_map plain json ≡ option_map proof_json (option_map plain_proof proof.now)) }
{
    match proof {
        Some(proof) => Ok(Some(text_json(alloc, proof.get().text.as_str())?)),
        None => Ok(None),
    }
}

fn delta_json(alloc: Global, delta: Option<&PackedJson>) -> Result<Option<Json>, WantOfMemory>
    ensures { IfOk result (λ json. option_map plain json ≡ option_copied delta.entry) }
{
    match delta {
        Some(delta) => Ok(Some(delta.unpack(alloc)?)),
        None => Ok(None),
    }
}
