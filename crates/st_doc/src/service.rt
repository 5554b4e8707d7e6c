ghost use Rattle.std.specs.Prelude.{◌≡◌, true, codes, is_some, IfOk, IfSome, Some};
ghost use Rattle.std.specs.List.{list_all};
ghost use Rattle.st_plain.specs.Shapes.{is_object_of, member_in};
ghost use Rattle.st_doc.specs.Document.{is_endpoint, is_service, service_names};

use crate::forms::{is_id_text, is_object, is_short_text};
use st_base::WantOfMemory;
use st_scan::{Entries, Scanned};
use std::alloc::Global;

/// Whether this is a service of a document.
#[tactic(auto, unfolding(crate::specs::Document::is_service))]
fn is_service(alloc: Global, service: &Scanned<'_>) -> Result<bool, WantOfMemory>
    ensures { IfOk result (λ is. is ≡ is_service service.now) }
{
    let Some(parts) = parts_of(service) else {
        return Ok(false);
    };
    if !is_id_text(alloc, &parts.id)? {
        return Ok(false);
    }
    if !is_short_text(alloc, &parts.kind, 30)? {
        return Ok(false);
    }
    is_endpoint(alloc, &parts.endpoint)
}

#[derive(Drop)]
struct Parts<'a> {
    id: Option<Scanned<'a>>,
    endpoint: Option<Scanned<'a>>,
    kind: Option<Scanned<'a>>,
}

// The members of an object that has no members except those of a service.
fn parts_of<'a>(service: &Scanned<'a>) -> Option<Parts<'a>>
    ensures form { is_some result ≡ is_object_of service_names (Some service.now) }
    ensures id { IfSome result (λ parts. member_in (codes "id") (Some service.now) ≡ parts.id) }
    ensures endpoint { IfSome result (λ parts. member_in (codes "serviceEndpoint") (Some service.now) ≡ parts.endpoint) }
    ensures kind { IfSome result (λ parts. member_in (codes "type") (Some service.now) ≡ parts.kind) }
{
    if let Some(parts) = parts_in_turn(service) {
        return Some(parts);
    }
    if !service.is_object_of(&["id", "type", "serviceEndpoint"]) {
        return None;
    }
    Some(Parts {
        id: service.member("id"),
        endpoint: service.member("serviceEndpoint"),
        kind: service.member("type"),
    })
}

// The same, if they are in order and none is missing.
fn parts_in_turn<'a>(service: &Scanned<'a>) -> Option<Parts<'a>>
    ensures form { IfSome result (λ _. is_object_of service_names (Some service.now) ≡ true) }
    ensures id { IfSome result (λ parts. member_in (codes "id") (Some service.now) ≡ parts.id) }
    ensures endpoint { IfSome result (λ parts. member_in (codes "serviceEndpoint") (Some service.now) ≡ parts.endpoint) }
    ensures kind { IfSome result (λ parts. member_in (codes "type") (Some service.now) ≡ parts.kind) }
{
    let mut members = service.members()?;
    let id = members.next_named("id")?;
    let endpoint = members.next_named("serviceEndpoint")?;
    let kind = members.next_named("type")?;
    if !members.is_empty() {
        return None;
    }
    Some(Parts {
        id: Some(id),
        endpoint: Some(endpoint),
        kind: Some(kind),
    })
}

fn is_endpoint(alloc: Global, there: &Option<Scanned<'_>>) -> Result<bool, WantOfMemory>
    ensures { IfOk result (λ is. is ≡ is_endpoint there.now) }
{
    Ok(is_short_text(alloc, there, 100)? || is_object(there))
}

/// Whether each of these is a service.
pub(crate) fn are_services(alloc: Global, services: Entries<'_>) -> Result<bool, WantOfMemory>
    ensures { IfOk result (λ are. are ≡ list_all is_service services.entry) }
{
    let mut left = services;
    'services: while let Some(service) = left.next() {
        if !is_service(alloc, &service)? {
            return Ok(false);
        }
    }
    Ok(true)
}
