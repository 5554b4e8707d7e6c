ghost use Rattle.std.specs.Prelude.{◌≡◌, ◌≤◌, IfOk, option_map};
ghost use Rattle.st_canon.specs.View.{plain};
ghost use Rattle.st_ops.specs.Claim.{claim_of, deactivate_claim, is_revealed, recover_claim, revealed, update_claim};
ghost use Rattle.st_ops.specs.Operation.{plain_operation, plain_proof};

use crate::operation::Operation;
use st_base::{Shared, WantOfMemory};
use st_canon::Json;
use st_hash::Hash;
use st_indexfiles::hash_in_json;
use st_jws::{Jwk, Signed, reveal_with};
use st_params::Params;
use std::alloc::Global;

/// The claim of an operation's signed text, besides its key.
#[derive(Clone, Copy, Debug, PartialEq, Eq)]
pub enum Claim {
    /// The hash of the delta of an update.
    Update {
        delta_hash: Hash,
    },
    /// The next recovery commitment, and the hash of the delta, of a recover.
    Recover {
        recovery_commitment: Hash,
        delta_hash: Hash,
    },
    /// The end of the identifier.
    Deactivate,
}

/// The claim of an operation's signed text at these limits.
///
/// `None` if and only if the operation is a create, has no proof, its proof's key has another
/// reveal value, its payload is not made of exactly the members of the kind with hash texts of the
/// version, or it is a deactivate that names another suffix.
pub fn claim_of(
    alloc: Global,
    operation: &Operation,
    params: &Params,
) -> Result<Option<Claim>, WantOfMemory>
    ensures { IfOk result (λ claim. claim ≡ claim_of params.now (plain_operation operation.now)) }
{
    let version = params.version();
    match operation {
        Operation::Create { .. } => Ok(None),
        Operation::Update { reveal, proof, .. } => match revealed(alloc, reveal, proof)? {
            Some(payload) => Ok(update_claim(&payload, version)),
            None => Ok(None),
        },
        Operation::Recover { reveal, proof, .. } => match revealed(alloc, reveal, proof)? {
            Some(payload) => Ok(recover_claim(&payload, version)),
            None => Ok(None),
        },
        Operation::Deactivate {
            suffix,
            reveal,
            proof,
        } => match revealed(alloc, reveal, proof)? {
            Some(payload) => Ok(deactivate_claim(&payload, suffix, version)),
            None => Ok(None),
        },
    }
}

// The payload of the proof, if its key has this reveal value.
fn revealed(
    alloc: Global,
    reveal: &Hash,
    proof: &Option<Shared<Signed>>,
) -> Result<Option<Json>, WantOfMemory>
    ensures { IfOk result (λ payload. option_map plain payload ≡ revealed reveal.now (option_map plain_proof proof.now)) }
{
    let Some(proof) = proof else {
        return Ok(None);
    };
    let signed = proof.get();
    if is_revealed(alloc, reveal, &signed.key)? {
        Ok(Some(signed.payload.unpack(alloc)?))
    } else {
        Ok(None)
    }
}

fn is_revealed(alloc: Global, reveal: &Hash, key: &Jwk) -> Result<bool, WantOfMemory>
    ensures { IfOk result (λ is. is ≡ is_revealed reveal.now key.now) }
{
    let found = reveal_with(alloc, key, reveal.code())?;
    Ok(found == *reveal)
}

fn update_claim(payload: &Json, version: u8) -> Option<Claim>
    requires first { 1 ≤ version }
    requires last { version ≤ 2 }
    ensures { result ≡ update_claim version (plain payload.now) }
{
    if !payload.is_object_of(&["updateKey", "deltaHash"]) {
        return None;
    }
    payload.member("updateKey")?;
    let delta_hash = hash_in_json(payload.member("deltaHash"), version)?;
    Some(Claim::Update { delta_hash })
}

fn recover_claim(payload: &Json, version: u8) -> Option<Claim>
    requires first { 1 ≤ version }
    requires last { version ≤ 2 }
    ensures { result ≡ recover_claim version (plain payload.now) }
{
    if !payload.is_object_of(&["recoveryKey", "recoveryCommitment", "deltaHash"]) {
        return None;
    }
    payload.member("recoveryKey")?;
    let recovery_commitment = hash_in_json(payload.member("recoveryCommitment"), version)?;
    let delta_hash = hash_in_json(payload.member("deltaHash"), version)?;
    Some(Claim::Recover {
        recovery_commitment,
        delta_hash,
    })
}

fn deactivate_claim(payload: &Json, suffix: &Hash, version: u8) -> Option<Claim>
    requires first { 1 ≤ version }
    requires last { version ≤ 2 }
    ensures { result ≡ deactivate_claim version suffix.now (plain payload.now) }
{
    if !payload.is_object_of(&["recoveryKey", "didSuffix"]) {
        return None;
    }
    payload.member("recoveryKey")?;
    let named = hash_in_json(payload.member("didSuffix"), version)?;
    if named == *suffix {
        Some(Claim::Deactivate)
    } else {
        None
    }
}
