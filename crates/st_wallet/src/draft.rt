ghost use Rattle.std.specs.Prelude.{◌≡◌, IfOk};
ghost use Rattle.st_base.specs.Answers.{Gives, GivesAs};
ghost use Rattle.st_canon.specs.View.{plain};
ghost use Rattle.st_lms.specs.Signature.{public_of};
ghost use Rattle.st_ops.specs.Operation.{plain_operation};
ghost use Rattle.st_ops.specs.Request.{IsComplete};
ghost use Rattle.st_wallet.specs.Drafts.{deactivate_payload, recover_payload, update_payload, delta_asked, delta_hash, json_asked, suffix_asked, create_asked, deactivate_asked, draft_of, recover_asked, update_asked};
ghost use Rattle.st_wallet.specs.inside.Drafts.{refusal_of, HasInput};

use crate::command::Nonce;
use crate::signing_vault::SigningVault;
use st_base::{Bytes, WantOfMemory};
use st_canon::{Json, Object, PackedJson, write};
use st_doc::is_delta;
use st_hash::{Hash, hash256, read_hash};
use st_indexfiles::{SuffixData, Target, hash_json};
use st_jws::{Jwk, commitment, reveal, signing_input};
use st_ops::Operation;
use st_params::Schedule;
use st_plain::ReadRefused;
use st_scan::CanonicalText;
use std::alloc::Global;

/// The signed payload of an update: its key, and the hash of its delta.
#[tactic(auto, unfolding(st_plain::proofs::NameLemmas::names_on_literals))]
pub(crate) fn update_payload(alloc: Global, key: &Jwk, delta: &Hash) -> Result<Json, WantOfMemory>
    ensures { IfOk result (λ json. plain json ≡ update_payload key.now delta.now) }
{
    let mut members = Object::new(alloc);
    let key = key.json(alloc)?;
    members.set(alloc, "updateKey", key)?;
    let delta = hash_json(alloc, delta)?;
    members.set(alloc, "deltaHash", delta)?;
    Ok(Json::Object(members))
}

/// The signed payload of a recover: its key, the next recovery commitment, and the hash of its
/// delta.
#[tactic(auto, unfolding(st_plain::proofs::NameLemmas::names_on_literals))]
pub(crate) fn recover_payload(
    alloc: Global,
    key: &Jwk,
    next: &Hash,
    delta: &Hash,
) -> Result<Json, WantOfMemory>
    ensures { IfOk result (λ json. plain json ≡ recover_payload key.now next.now delta.now) }
{
    let mut members = Object::new(alloc);
    let key = key.json(alloc)?;
    members.set(alloc, "recoveryKey", key)?;
    let next = hash_json(alloc, next)?;
    members.set(alloc, "recoveryCommitment", next)?;
    let delta = hash_json(alloc, delta)?;
    members.set(alloc, "deltaHash", delta)?;
    Ok(Json::Object(members))
}

/// The signed payload of a deactivate: its key, and the suffix.
#[tactic(auto, unfolding(st_plain::proofs::NameLemmas::names_on_literals))]
pub(crate) fn deactivate_payload(
    alloc: Global,
    key: &Jwk,
    suffix: &Hash,
) -> Result<Json, WantOfMemory>
    ensures { IfOk result (λ json. plain json ≡ deactivate_payload key.now suffix.now) }
{
    let mut members = Object::new(alloc);
    let key = key.json(alloc)?;
    members.set(alloc, "recoveryKey", key)?;
    let suffix = hash_json(alloc, suffix)?;
    members.set(alloc, "didSuffix", suffix)?;
    Ok(Json::Object(members))
}

/// The suffix in a text.
pub(crate) fn read_suffix(text: &[u8]) -> Result<Hash, DraftRefused>
    ensures { Gives refusal_of (suffix_asked text.now) result }
{
    match read_hash(text) {
        Ok(hash) => Ok(hash),
        Err(_) => Err(DraftRefused::BadHash),
    }
}

/// The delta in bytes.
pub(crate) fn read_delta(alloc: Global, bytes: &[u8]) -> Result<PackedJson, DraftRefused>
    ensures { Gives refusal_of (delta_asked bytes.now) result }
{
    let text = read_text(alloc, bytes)?;
    let params = Schedule::new().newest();
    if !is_delta(alloc, &text.root(), &params)? {
        return Err(DraftRefused::BadDelta);
    }
    Ok(PackedJson::keep(alloc, text.root().as_slice())?)
}

fn read_text<'a>(alloc: Global, bytes: &'a [u8]) -> Result<CanonicalText<'a>, DraftRefused>
    ensures { Gives refusal_of (json_asked bytes.now) result }
{
    match CanonicalText::read(alloc, bytes) {
        Ok(text) => Ok(text),
        Err(ReadRefused::NotJson) => Err(DraftRefused::NotJson),
        Err(ReadRefused::NotWhole) => Err(DraftRefused::NotWhole),
        Err(ReadRefused::WantOfMemory) => Err(DraftRefused::WantOfMemory),
    }
}

/// The hash of a delta's canonical text.
pub(crate) fn delta_hash(alloc: Global, delta: &PackedJson) -> Result<Hash, WantOfMemory>
    ensures { IfOk result (λ hash. hash ≡ delta_hash delta.now) }
{
    if let Some(text) = delta.text() {
        return Ok(hash256(text));
    }
    let value = delta.unpack(alloc)?;
    let text = write(alloc, &value)?;
    Ok(hash256(text.as_slice()))
}

/// An operation that is signed next: everything except its signature.
#[derive(Drop)]
pub(crate) struct Draft {
    /// Its suffix, and the reveal value of its key.
    pub(crate) target: Target,
    /// The key that it reveals.
    pub(crate) key: Jwk,
    /// The claim.
    pub(crate) payload: PackedJson,
    /// The input of the signature: a header and the payload.
    pub(crate) input: Bytes,
    /// Its change.
    pub(crate) change: Change,
}

/// The change of a signed operation.
#[derive(Drop)]
pub(crate) enum Change {
    /// The document, by this delta.
    Update(PackedJson),
    /// Everything, by this delta.
    Recover(PackedJson),
    /// The identifier ends.
    Deactivate,
}

/// A create of an identifier whose recovery key has this nonce.
pub(crate) fn create(
    alloc: Global,
    vault: &mut SigningVault,
    nonce: Nonce,
    delta: &[u8],
) -> Result<Operation, DraftRefused>
    ensures value { GivesAs plain_operation refusal_of
        (create_asked (public_of vault.old.key) nonce delta.now) result }
    ensures complete { IfOk result (λ operation. IsComplete (plain_operation operation)) }
    ensures same { vault.new ≡ vault.old }
{
    let delta = read_delta(alloc, delta)?;
    let delta_hash = delta_hash(alloc, &delta)?;
    let public = vault.public(alloc)?;
    let recovery_commitment = commitment(alloc, &Jwk { public, nonce })?;
    let suffix_data = SuffixData {
        delta_hash,
        recovery_commitment,
    };
    Ok(Operation::Create {
        suffix_data,
        delta: Some(delta),
    })
}

/// An update under the key with this nonce.
pub(crate) fn draft_update(
    alloc: Global,
    vault: &mut SigningVault,
    suffix: &[u8],
    nonce: Nonce,
    delta: &[u8],
) -> Result<Draft, DraftRefused>
    ensures value { Gives refusal_of
        (update_asked (public_of vault.old.key) suffix.now nonce delta.now) result }
    ensures input { IfOk result HasInput }
    ensures same { vault.new ≡ vault.old }
{
    let suffix = read_suffix(suffix)?;
    let delta = read_delta(alloc, delta)?;
    let delta_hash = delta_hash(alloc, &delta)?;
    let public = vault.public(alloc)?;
    let key = Jwk { public, nonce };
    let payload = update_payload(alloc, &key, &delta_hash)?;
    let draft = draft_of(alloc, key, suffix, &payload, Change::Update(delta))?;
    Ok(draft)
}

/// A recover under the key with this nonce, with a commitment to the key with the next one.
pub(crate) fn draft_recover(
    alloc: Global,
    vault: &mut SigningVault,
    suffix: &[u8],
    nonce: Nonce,
    next: Nonce,
    delta: &[u8],
) -> Result<Draft, DraftRefused>
    ensures value { Gives refusal_of
        (recover_asked (public_of vault.old.key) suffix.now nonce next delta.now) result }
    ensures input { IfOk result HasInput }
    ensures same { vault.new ≡ vault.old }
{
    let suffix = read_suffix(suffix)?;
    let delta = read_delta(alloc, delta)?;
    let delta_hash = delta_hash(alloc, &delta)?;
    let public = vault.public(alloc)?;
    let key = Jwk { public, nonce };
    let next_key = Jwk {
        public,
        nonce: next,
    };
    let next_commitment = commitment(alloc, &next_key)?;
    let payload = recover_payload(alloc, &key, &next_commitment, &delta_hash)?;
    let draft = draft_of(alloc, key, suffix, &payload, Change::Recover(delta))?;
    Ok(draft)
}

/// A deactivate under the key with this nonce.
pub(crate) fn draft_deactivate(
    alloc: Global,
    vault: &mut SigningVault,
    suffix: &[u8],
    nonce: Nonce,
) -> Result<Draft, DraftRefused>
    ensures value { Gives refusal_of
        (deactivate_asked (public_of vault.old.key) suffix.now nonce) result }
    ensures input { IfOk result HasInput }
    ensures same { vault.new ≡ vault.old }
{
    let suffix = read_suffix(suffix)?;
    let public = vault.public(alloc)?;
    let key = Jwk { public, nonce };
    let payload = deactivate_payload(alloc, &key, &suffix)?;
    let draft = draft_of(alloc, key, suffix, &payload, Change::Deactivate)?;
    Ok(draft)
}

// The draft from a suffix, a key, a claim and a change. It keeps no JSON tree.
fn draft_of(
    alloc: Global,
    key: Jwk,
    suffix: Hash,
    payload: &Json,
    change: Change,
) -> Result<Draft, WantOfMemory>
    ensures value { IfOk result (λ draft.
        draft ≡ draft_of key suffix (plain payload.now) change) }
    ensures input { IfOk result HasInput }
{
    let reveal = reveal(alloc, &key)?;
    let input = signing_input(alloc, payload)?;
    let payload = PackedJson::pack(alloc, payload)?;
    Ok(Draft {
        target: Target { suffix, reveal },
        key,
        payload,
        input,
        change,
    })
}

/// Why an operation is not drafted: the first of these that holds, in this order.
#[derive(Clone, Copy, Debug, Drop, PartialEq, Eq)]
pub(crate) enum DraftRefused {
    /// The suffix is not a hash text.
    BadHash,
    /// The delta is not JSON.
    NotJson,
    /// The delta is JSON with a number that is not whole.
    NotWhole,
    /// The value is not a delta.
    BadDelta,
    /// Out of memory.
    WantOfMemory,
}

impl From<WantOfMemory> for DraftRefused {
    ghost use Rattle.std.specs.Prelude.{◌≡◌};
    ghost use Rattle.st_wallet.specs.declared.draft.DraftRefused.TheVariants.{WantOfMemory};

    ghost from_gives = { λ _ refused. refused ≡ WantOfMemory };

    fn from(_want: WantOfMemory) -> DraftRefused {
        DraftRefused::WantOfMemory
    }
}
