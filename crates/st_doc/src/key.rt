ghost use Rattle.std.specs.Prelude.{◌≡◌, true, codes, is_some, IfOk, IfSome, Some};
ghost use Rattle.std.specs.List.{list_all};
ghost use Rattle.st_plain.specs.Shapes.{is_object_of, member_in};
ghost use Rattle.st_doc.specs.Document.{are_purposes, are_purposes_if_there, is_key, is_purpose, key_names};

use crate::forms::{
    is_id_text, is_object, is_short_text, is_short_text_if_there, list_in, texts_in,
};
use crate::ids::texts_stand_once;
use st_base::WantOfMemory;
use st_scan::{Entries, Scanned};
use std::alloc::Global;

/// Whether this is a key of a document.
#[tactic(auto, unfolding(crate::specs::Document::is_key))]
fn is_key(alloc: Global, key: &Scanned<'_>) -> Result<bool, WantOfMemory>
    ensures { IfOk result (λ is. is ≡ is_key key.now) }
{
    let Some(parts) = parts_of(key) else {
        return Ok(false);
    };
    if !is_id_text(alloc, &parts.id)? {
        return Ok(false);
    }
    if !is_short_text(alloc, &parts.kind, 100)? {
        return Ok(false);
    }
    if !is_object(&parts.jwk) {
        return Ok(false);
    }
    if !are_purposes_if_there(alloc, parts.purposes)? {
        return Ok(false);
    }
    is_short_text_if_there(alloc, &parts.controller, 200)
}

#[derive(Drop)]
struct Parts<'a> {
    controller: Option<Scanned<'a>>,
    id: Option<Scanned<'a>>,
    jwk: Option<Scanned<'a>>,
    purposes: Option<Scanned<'a>>,
    kind: Option<Scanned<'a>>,
}

// The members of an object that has no members except those of a key.
fn parts_of<'a>(key: &Scanned<'a>) -> Option<Parts<'a>>
    ensures form { is_some result ≡ is_object_of key_names (Some key.now) }
    ensures controller { IfSome result (λ parts. member_in (codes "controller") (Some key.now) ≡ parts.controller) }
    ensures id { IfSome result (λ parts. member_in (codes "id") (Some key.now) ≡ parts.id) }
    ensures jwk { IfSome result (λ parts. member_in (codes "publicKeyJwk") (Some key.now) ≡ parts.jwk) }
    ensures purposes { IfSome result (λ parts. member_in (codes "purposes") (Some key.now) ≡ parts.purposes) }
    ensures kind { IfSome result (λ parts. member_in (codes "type") (Some key.now) ≡ parts.kind) }
{
    if let Some(parts) = parts_in_turn(key) {
        return Some(parts);
    }
    if !key.is_object_of(&["id", "type", "publicKeyJwk", "purposes", "controller"]) {
        return None;
    }
    Some(Parts {
        controller: key.member("controller"),
        id: key.member("id"),
        jwk: key.member("publicKeyJwk"),
        purposes: key.member("purposes"),
        kind: key.member("type"),
    })
}

// The same, if they are in order and none that a key must have is missing.
fn parts_in_turn<'a>(key: &Scanned<'a>) -> Option<Parts<'a>>
    ensures form { IfSome result (λ _. is_object_of key_names (Some key.now) ≡ true) }
    ensures controller { IfSome result (λ parts. member_in (codes "controller") (Some key.now) ≡ parts.controller) }
    ensures id { IfSome result (λ parts. member_in (codes "id") (Some key.now) ≡ parts.id) }
    ensures jwk { IfSome result (λ parts. member_in (codes "publicKeyJwk") (Some key.now) ≡ parts.jwk) }
    ensures purposes { IfSome result (λ parts. member_in (codes "purposes") (Some key.now) ≡ parts.purposes) }
    ensures kind { IfSome result (λ parts. member_in (codes "type") (Some key.now) ≡ parts.kind) }
{
    let mut members = key.members()?;
    let controller = members.next_named("controller");
    let id = members.next_named("id")?;
    let jwk = members.next_named("publicKeyJwk")?;
    let purposes = members.next_named("purposes");
    let kind = members.next_named("type")?;
    if !members.is_empty() {
        return None;
    }
    Some(Parts {
        controller,
        id: Some(id),
        jwk: Some(jwk),
        purposes,
        kind: Some(kind),
    })
}

/// Whether each of these is a key.
pub(crate) fn are_keys(alloc: Global, keys: Entries<'_>) -> Result<bool, WantOfMemory>
    ensures { IfOk result (λ are. are ≡ list_all is_key keys.entry) }
{
    let mut left = keys;
    'keys: while let Some(key) = left.next() {
        if !is_key(alloc, &key)? {
            return Ok(false);
        }
    }
    Ok(true)
}

fn are_purposes_if_there(alloc: Global, there: Option<Scanned<'_>>) -> Result<bool, WantOfMemory>
    ensures { IfOk result (λ are. are ≡ are_purposes_if_there there.entry) }
{
    let Some(value) = there else {
        return Ok(true);
    };
    match list_in(value) {
        Some(purposes) => are_purposes(alloc, purposes),
        None => Ok(false),
    }
}

fn are_purposes(alloc: Global, purposes: Entries<'_>) -> Result<bool, WantOfMemory>
    ensures { IfOk result (λ are. are ≡ are_purposes purposes.entry) }
{
    if !are_all_purposes(purposes.again()) {
        return Ok(false);
    }
    let texts = texts_in(alloc, purposes)?;
    texts_stand_once(alloc, texts.as_slice())
}

fn are_all_purposes(purposes: Entries<'_>) -> bool
    ensures { result ≡ list_all is_purpose purposes.entry }
{
    let mut left = purposes;
    'purposes: while let Some(purpose) = left.next() {
        if !is_purpose(&purpose) {
            return false;
        }
    }
    true
}

fn is_purpose(value: &Scanned<'_>) -> bool
    ensures { result ≡ is_purpose value.now }
{
    value.is_text_of("authentication")
        || (value.is_text_of("assertionMethod")
            || (value.is_text_of("keyAgreement")
                || (value.is_text_of("capabilityInvocation")
                    || value.is_text_of("capabilityDelegation"))))
}
