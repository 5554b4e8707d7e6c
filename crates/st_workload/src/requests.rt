ghost use Rattle.std.specs.Prelude.{◌≡◌, ◌≤◌, ◌-◌, ◌++◌, codes, IfOk};
ghost use Rattle.st_plain.specs.Plain.{object};
ghost use Rattle.st_canon.specs.View.{plain, plain_members};
ghost use Rattle.st_workload.specs.Identifier.{create, create_delta, key, payload, request, signed, submit_line, did_suffix, did_suffix_data, update, update_delta, update_jwk, updating_with};
ghost use Rattle.st_ops.specs.Operation.{plain_operation};
ghost use Rattle.st_ops.specs.Request.{IsComplete, request_text};

use crate::deltas::{delta, delta_hash, patches};
use crate::keys::{recovery_jwk, update_jwk};
use st_base::{Bytes, KeptText, List, Shared, Text, WantOfMemory};
use st_canon::{Json, Object, PackedJson};
use st_hash::Hash;
use st_indexfiles::{SuffixData, hash_json};
use st_jws::{Jwk, Signed, commitment, join_signed, reveal, signing_input};
use st_ops::{Operation, write_request};
use st_vault::{Counter, VaultSigner};
use std::alloc::Global;

// ---- round 0

/// The delta of an identifier's create.
pub(crate) fn create_delta(
    alloc: Global,
    signer: &VaultSigner,
    seed: u64,
    number: u32,
) -> Result<Json, WantOfMemory>
    requires { signer.now ≡ key seed number }
    ensures { IfOk result (λ json. plain json ≡ create_delta seed number) }
{
    let next = update_jwk(signer, seed, number, 0);
    let delta = delta(alloc, List::new(alloc), &next)?;
    Ok(delta)
}

/// The suffix data of its create.
#[tactic(auto, unfolding(crate::specs::Identifier::did_suffix_data))]
pub(crate) fn suffix_data(
    alloc: Global,
    signer: &VaultSigner,
    seed: u64,
    number: u32,
    delta: &Json,
) -> Result<SuffixData, WantOfMemory>
    requires key { signer.now ≡ key seed number }
    requires delta { plain delta.now ≡ create_delta seed number }
    ensures { IfOk result (λ suffix_data. suffix_data ≡ did_suffix_data seed number) }
{
    let delta_hash = delta_hash(alloc, delta)?;
    let recovery = recovery_jwk(signer, seed, number);
    let recovery_commitment = commitment(alloc, &recovery)?;
    Ok(SuffixData {
        delta_hash,
        recovery_commitment,
    })
}

/// The line that submits the create of this delta with this suffix data.
#[tactic(auto, unfolding(crate::specs::Identifier::request))]
pub(crate) fn create_line(
    alloc: Global,
    seed: u64,
    number: u32,
    suffix_data: &SuffixData,
    delta: &Json,
) -> Result<Bytes, WantOfMemory>
    requires suffix_data { suffix_data.now ≡ did_suffix_data seed number }
    requires delta { plain delta.now ≡ create_delta seed number }
    ensures { IfOk result (λ line. line ≡ submit_line seed 0 number) }
{
    let delta = PackedJson::pack(alloc, delta)?;
    let create = Operation::Create {
        suffix_data: *suffix_data,
        delta: Some(delta),
    };
    Ok(submit_line(alloc, &create)?)
}

// ---- the rounds after

/// The line that submits the update of a round, signed at this counter.
#[tactic(auto, unfolding(crate::specs::Identifier::request))]
pub(crate) fn update_line(
    alloc: Global,
    seed: u64,
    number: u32,
    signer: &VaultSigner,
    suffix: &Hash,
    round: u32,
    counter: Counter,
) -> Result<Bytes, WantOfMemory>
    requires key { signer.now ≡ key seed number }
    requires suffix { suffix.now ≡ did_suffix seed number }
    requires first { 1 ≤ round }
    requires last { round ≤ 30 }
    requires counter_key { counter.key ≡ key seed number }
    requires counter_number { counter.number ≡ round - 1 }
    ensures { IfOk result (λ line. line ≡ submit_line seed round number) }
{
    let revealed = update_jwk(signer, seed, number, round - 1);
    let next = update_jwk(signer, seed, number, round);
    let patches = patches(alloc, seed, number, round)?;
    let delta = delta(alloc, patches, &next)?;
    let update = update(alloc, signer, suffix, &revealed, counter, &delta)?;
    Ok(submit_line(alloc, &update)?)
}

// An update that reveals this key, signed at this counter.
fn update(
    alloc: Global,
    signer: &VaultSigner,
    suffix: &Hash,
    revealed: &Jwk,
    counter: Counter,
    delta: &Json,
) -> Result<Operation, WantOfMemory>
    requires { signer.now ≡ counter.key }
    ensures { IfOk result (λ update. plain_operation update ≡ updating_with suffix.now revealed.now
        (signed counter.key counter.number (payload revealed.now (plain delta.now))) (plain delta.now)) }
{
    let payload = payload(alloc, revealed, delta)?;
    let text = KeptText::new(signed(alloc, signer, counter, &payload)?);
    let payload = PackedJson::pack(alloc, &payload)?;
    let proof = Shared::new(
        alloc,
        Signed {
            text,
            payload,
            key: *revealed,
        },
    )?;
    let reveal = reveal(alloc, revealed)?;
    let delta = PackedJson::pack(alloc, delta)?;
    Ok(Operation::Update {
        suffix: *suffix,
        reveal,
        proof: Some(proof),
        delta: Some(delta),
    })
}

// The signed payload: the revealed key, and the hash of the delta.
fn payload(alloc: Global, revealed: &Jwk, delta: &Json) -> Result<Json, WantOfMemory>
    ensures { IfOk result (λ json. plain json ≡ payload revealed.now (plain delta.now)) }
{
    Ok(Json::Object(payload_members(alloc, revealed, delta)?))
}

#[tactic(auto, unfolding(crate::specs::Identifier::payload, st_plain::proofs::NameLemmas::names_on_literals))]
fn payload_members(alloc: Global, revealed: &Jwk, delta: &Json) -> Result<Object, WantOfMemory>
    ensures { IfOk result (λ members. object (plain_members members) ≡ payload revealed.now (plain delta.now)) }
{
    let key = revealed.json(alloc)?;
    let hash = delta_hash(alloc, delta)?;
    let hash = hash_json(alloc, &hash)?;
    let mut members = Object::new(alloc);
    members.set(alloc, "updateKey", key)?;
    members.set(alloc, "deltaHash", hash)?;
    Ok(members)
}

#[tactic(auto, unfolding(crate::specs::Identifier::signed))]
fn signed(
    alloc: Global,
    signer: &VaultSigner,
    counter: Counter,
    payload: &Json,
) -> Result<Text, WantOfMemory>
    requires { signer.now ≡ counter.key }
    ensures { IfOk result (λ text. text ≡ signed counter.key counter.number (plain payload.now)) }
{
    let input = signing_input(alloc, payload)?;
    let signature = counter.sign_with(alloc, signer, input.as_slice())?;
    Ok(join_signed(alloc, &input, &signature)?)
}

// ---- lines

fn submit_line(alloc: Global, operation: &Operation) -> Result<Bytes, WantOfMemory>
    requires { IsComplete (plain_operation operation.now) }
    ensures { IfOk result (λ line. line ≡ codes "submit " ++ request_text (plain_operation operation.now)) }
{
    let request = write_request(alloc, operation)?;
    let mut line = Bytes::from_slice(alloc, b"submit ")?;
    line.push_all(alloc, request.as_slice())?;
    Ok(line)
}
