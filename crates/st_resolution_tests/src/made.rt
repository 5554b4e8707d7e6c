//! Operations made by hand. Each key is named by a letter, the first character of its nonce.
//! Nothing here is signed, since a step uses only claims.

use crate::words::three;
use st_base::{KeptText, Shared, Text};
use st_canon::{Json, PackedJson, read};
use st_hash::{Hash, hash_text, hash256};
use st_indexfiles::SuffixData;
use st_jws::{Jwk, Signed, commitment, reveal};
use st_ops::Operation;
use std::alloc::Global;

// The public key is that of the first test of RFC 8554, appendix F.
const KEY: &str =
    r#"{"alg":"LMS","kty":"LMS","nonce":"KEYAAAAAAAAAAAAAAAAAAAAA","pub":"AAAABQAAAARhpdV9N_Xka_t1IIBrB6G4UGUOOzH-Snc-opoH8Jzy6jDlefDfWO-OKY2gQ0yyuHg"}"#;

// It adds a service.
const DELTA: &str =
    r#"{"patches":[{"action":"add-services","services":[{"id":"ID","serviceEndpoint":"e","type":"T"}]}],"updateCommitment":"UPDATE"}"#;

// Its second patch fails.
const FAILING: &str =
    r#"{"patches":[{"action":"add-services","services":[{"id":"x","serviceEndpoint":"e","type":"T"}]},{"action":"ietf-json-patch","patches":[{"op":"remove","path":"/services/9"}]}],"updateCommitment":"UPDATE"}"#;

const UPDATE: &str = r#"{"deltaHash":"DELTA","updateKey":KEY}"#;

const RECOVER: &str = r#"{"deltaHash":"DELTA","recoveryCommitment":"RECOVERY","recoveryKey":KEY}"#;

const DEACTIVATE: &str = r#"{"didSuffix":"SUFFIX","recoveryKey":KEY}"#;

fn value(alloc: Global, text: &str) -> Option<Json> {
    read(alloc, text.as_bytes()).ok()
}

fn key_text(alloc: Global, name: &str) -> Option<String> {
    KEY.replace(alloc, "KEY", name).ok()
}

fn key(alloc: Global, name: &str) -> Option<Jwk> {
    let text = key_text(alloc, name)?;
    let value = value(alloc, text.as_str())?;
    Jwk::read(&value).ok()
}

/// The commitment to a key.
pub(crate) fn committed(alloc: Global, name: &str) -> Option<Hash> {
    let key = key(alloc, name)?;
    commitment(alloc, &key).ok()
}

fn revealed(alloc: Global, name: &str) -> Option<Hash> {
    let key = key(alloc, name)?;
    reveal(alloc, &key).ok()
}

fn with_hash(alloc: Global, text: &str, word: &str, hash: &Hash) -> Option<String> {
    let hash = hash_text(alloc, hash).ok()?;
    text.replace(alloc, word, hash.as_str()).ok()
}

// The delta that commits to a key and adds a service of this name, or fails if that is `x`.
fn delta_text(alloc: Global, update: &str, adds: &str) -> Option<String> {
    let commitment = committed(alloc, update)?;
    let delta = if adds == "x" { FAILING } else { DELTA };
    let named = delta.replace(alloc, "ID", adds).ok()?;
    with_hash(alloc, named.as_str(), "UPDATE", &commitment)
}

/// The packed JSON of this text.
pub(crate) fn packed(alloc: Global, text: &str) -> Option<PackedJson> {
    let value = value(alloc, text)?;
    PackedJson::pack(alloc, &value).ok()
}

fn payload(alloc: Global, template: &str, name: &str, delta: &str) -> Option<PackedJson> {
    let key_text = key_text(alloc, name)?;
    let with_key = template.replace(alloc, "KEY", key_text.as_str()).ok()?;
    let delta_hash = hash256(delta.as_bytes());
    let text = with_hash(alloc, with_key.as_str(), "DELTA", &delta_hash)?;
    packed(alloc, text.as_str())
}

// A signed text as if the key had signed it.
fn signed(alloc: Global, template: &str, name: &str, delta: &str) -> Option<Shared<Signed>> {
    let payload = payload(alloc, template, name, delta)?;
    let key = key(alloc, name)?;
    let text = KeptText::new(Text::from_text(alloc, "not opened").ok()?);
    let signed = Signed { text, payload, key };
    Shared::new(alloc, signed).ok()
}

fn suffix() -> Hash {
    hash256(b"suffix")
}

fn create(
    alloc: Global,
    recovery: &str,
    text: &str,
    delta: Option<PackedJson>,
) -> Option<Operation> {
    let suffix_data = SuffixData {
        delta_hash: hash256(text.as_bytes()),
        recovery_commitment: committed(alloc, recovery)?,
    };
    Some(Operation::Create { suffix_data, delta })
}

fn update(
    alloc: Global,
    name: &str,
    proof: Option<Shared<Signed>>,
    delta: Option<PackedJson>,
) -> Option<Operation> {
    let reveal = revealed(alloc, name)?;
    Some(Operation::Update {
        suffix: suffix(),
        reveal,
        proof,
        delta,
    })
}

fn recover(
    alloc: Global,
    name: &str,
    recovery: &str,
    text: &str,
    delta: Option<PackedJson>,
) -> Option<Operation> {
    let reveal = revealed(alloc, name)?;
    let commitment = committed(alloc, recovery)?;
    let template = with_hash(alloc, RECOVER, "RECOVERY", &commitment)?;
    let proof = Some(signed(alloc, template.as_str(), name, text)?);
    Some(Operation::Recover {
        suffix: suffix(),
        reveal,
        proof,
        delta,
    })
}

fn deactivate(alloc: Global, name: &str) -> Option<Operation> {
    let reveal = revealed(alloc, name)?;
    let template = with_hash(alloc, DEACTIVATE, "SUFFIX", &suffix())?;
    let proof = Some(signed(alloc, template.as_str(), name, "")?);
    Some(Operation::Deactivate {
        suffix: suffix(),
        reveal,
        proof,
    })
}

// The operation of this kind, with a delta of this text unless it adds `-`.
fn with_delta(
    alloc: Global,
    kind: &str,
    name: &str,
    recovery: &str,
    text: &str,
    adds: &str,
) -> Option<Operation> {
    let delta = if adds == "-" {
        None
    } else {
        Some(packed(alloc, text)?)
    };
    match kind {
        "create" => create(alloc, recovery, text, delta),
        "update" => update(alloc, name, Some(signed(alloc, UPDATE, name, text)?), delta),
        "unproved" => update(alloc, name, None, delta),
        _ => recover(alloc, name, recovery, text, delta),
    }
}

/// The operation of a line: its kind, the key that it reveals, the keys of its recovery commitment
/// and of the update commitment of its delta, and the service that this adds. A delta that adds `x`
/// fails, and there is none if it adds `-`.
pub(crate) fn operation(alloc: Global, line: &str) -> Option<Operation> {
    let (kind, name, rest) = three(line)?;
    let (recovery, next, adds) = three(rest)?;
    if kind == "deactivate" {
        return deactivate(alloc, name);
    }
    let text = delta_text(alloc, next, adds)?;
    with_delta(alloc, kind, name, recovery, text.as_str(), adds)
}
