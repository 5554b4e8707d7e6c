ghost use Rattle.std.specs.Prelude.{◌≡◌, ◌≤◌, ◌++◌, ◌∷◌, [], codes, map, IfOk};
ghost use Rattle.std.specs.Fmt.{decimal};
ghost use Rattle.std.specs.Int.{w32, to_be_bytes};
ghost use Rattle.hex.specs.Hex.{encode_lower};
ghost use Rattle.st_plain.specs.Plain.{canonical, object, text};
ghost use Rattle.st_canon.specs.View.{plain, plain_members};
ghost use Rattle.st_workload.specs.Identifier.{delta, endpoint, patch, service};
ghost use Rattle.st_hash.specs.Hash.{hash_of};

use crate::keys::word;
use itoa::Buffer;
use st_base::{List, Text, WantOfMemory};
use st_canon::{Json, Object, write};
use st_hash::{Hash, hash256};
use st_indexfiles::hash_json;
use st_jws::{Jwk, commitment};
use std::alloc::Global;

/// A delta with these patches and a commitment to this key.
pub(crate) fn delta(alloc: Global, patches: List<Json>, next: &Jwk) -> Result<Json, WantOfMemory>
    ensures { IfOk result (λ json. plain json ≡ delta (map plain patches) next.now) }
{
    Ok(Json::Object(delta_members(alloc, patches, next)?))
}

#[tactic(auto, unfolding(crate::specs::Identifier::delta, st_plain::proofs::NameLemmas::names_on_literals))]
fn delta_members(alloc: Global, patches: List<Json>, next: &Jwk) -> Result<Object, WantOfMemory>
    ensures { IfOk result (λ members. object (plain_members members) ≡ delta (map plain patches) next.now) }
{
    let next = commitment(alloc, next)?;
    let next = hash_json(alloc, &next)?;
    let mut members = Object::new(alloc);
    members.set(alloc, "patches", Json::List(patches))?;
    members.set(alloc, "updateCommitment", next)?;
    Ok(members)
}

/// The patches of a round: one, which adds its service.
pub(crate) fn patches(
    alloc: Global,
    seed: u64,
    number: u32,
    round: u32,
) -> Result<List<Json>, WantOfMemory>
    requires { round ≤ 30 }
    ensures { IfOk result (λ patches. map plain patches ≡ patch seed number round ∷ []) }
{
    let mut patches = List::new(alloc);
    let patch = patch(alloc, seed, number, round)?;
    patches.push(alloc, patch)?;
    Ok(patches)
}

fn patch(alloc: Global, seed: u64, number: u32, round: u32) -> Result<Json, WantOfMemory>
    requires { round ≤ 30 }
    ensures { IfOk result (λ json. plain json ≡ patch seed number round) }
{
    Ok(Json::Object(patch_members(alloc, seed, number, round)?))
}

#[tactic(auto, unfolding(crate::specs::Identifier::patch, st_plain::proofs::NameLemmas::names_on_literals))]
fn patch_members(alloc: Global, seed: u64, number: u32, round: u32) -> Result<Object, WantOfMemory>
    requires { round ≤ 30 }
    ensures { IfOk result (λ members. object (plain_members members) ≡ patch seed number round) }
{
    let services = services(alloc, seed, number, round)?;
    let action = text_json(alloc, "add-services")?;
    let mut members = Object::new(alloc);
    members.set(alloc, "action", action)?;
    members.set(alloc, "services", Json::List(services))?;
    Ok(members)
}

fn services(alloc: Global, seed: u64, number: u32, round: u32) -> Result<List<Json>, WantOfMemory>
    requires { round ≤ 30 }
    ensures { IfOk result (λ services. map plain services ≡ service seed number round ∷ []) }
{
    let mut services = List::new(alloc);
    let service = service(alloc, seed, number, round)?;
    services.push(alloc, service)?;
    Ok(services)
}

fn service(alloc: Global, seed: u64, number: u32, round: u32) -> Result<Json, WantOfMemory>
    requires { round ≤ 30 }
    ensures { IfOk result (λ json. plain json ≡ service seed number round) }
{
    Ok(Json::Object(service_members(alloc, seed, number, round)?))
}

#[tactic(auto, unfolding(crate::specs::Identifier::service, st_plain::proofs::NameLemmas::names_on_literals))]
fn service_members(
    alloc: Global,
    seed: u64,
    number: u32,
    round: u32,
) -> Result<Object, WantOfMemory>
    requires { round ≤ 30 }
    ensures { IfOk result (λ members. object (plain_members members) ≡ service seed number round) }
{
    let id = id_json(alloc, round)?;
    let kind = text_json(alloc, "T")?;
    let endpoint = endpoint_json(alloc, word(seed, number, u64::from(19 + 5 * round)))?;
    let mut members = Object::new(alloc);
    members.set(alloc, "id", id)?;
    members.set(alloc, "type", kind)?;
    members.set(alloc, "serviceEndpoint", endpoint)?;
    Ok(members)
}

fn id_json(alloc: Global, round: u32) -> Result<Json, WantOfMemory>
    ensures { IfOk result (λ json. plain json ≡ text (codes "s" ++ decimal round)) }
{
    let mut id = String::from_str(alloc, "s")?;
    id.push_str(Buffer::new().format(round))?;
    Ok(Json::Text(Text::from_string(id)))
}

fn endpoint_json(alloc: Global, w: u32) -> Result<Json, WantOfMemory>
    ensures { IfOk result (λ json. plain json
        ≡ text (codes "https://example.com/" ++ encode_lower (to_be_bytes w32 w))) }
{
    let mut endpoint = String::from_str(alloc, "https://example.com/")?;
    let digits = hex::encode(alloc, w.to_be_bytes())?;
    endpoint.push_str(digits.as_str())?;
    Ok(Json::Text(Text::from_string(endpoint)))
}

fn text_json(alloc: Global, bytes: &str) -> Result<Json, WantOfMemory>
    ensures { IfOk result (λ json. plain json ≡ text bytes.now) }
{
    Ok(Json::Text(Text::from_text(alloc, bytes)?))
}

/// The hash of the canonical text of a delta.
pub(crate) fn delta_hash(alloc: Global, delta: &Json) -> Result<Hash, WantOfMemory>
    ensures { IfOk result (λ hash. hash ≡ hash_of (canonical (plain delta.now))) }
{
    let text = write(alloc, delta)?;
    Ok(hash256(text.as_slice()))
}
