ghost use Rattle.std.specs.Prelude.{◌≡◌, ◌&&◌, option_map, IfOk};
ghost use Rattle.std.specs.List.{list_all};
ghost use Rattle.st_plain.specs.Measures.{fits};
ghost use Rattle.st_canon.specs.View.{plain};
ghost use Rattle.st_doc.specs.Document.{document_in, if_document, keeps_rules, may_have_names, plain_document, is_name};

use crate::document::Document;
use crate::forms::{is_name, text_of, texts_in};
use crate::ids::{ids_stand_once, texts_stand_once};
use crate::key::are_keys;
use crate::service::are_services;
use st_base::{Text, WantOfMemory};
use st_canon::{Json, fits};
use st_params::Params;
use st_scan::{Scanned, entries_in};
use std::alloc::Global;

/// Whether documents of this version may have names.
pub(crate) fn may_have_names(version: u8) -> bool
    ensures { result ≡ may_have_names version }
{
    version == 2
}

/// The document, if it is one at these parameters. Its JSON takes over the lists, is measured, is
/// checked in its text, and gives them back.
pub(crate) fn if_document(
    alloc: Global,
    document: Document,
    params: &Params,
) -> Result<Option<Document>, WantOfMemory>
    ensures { IfOk result (λ next. option_map plain_document next ≡ if_document params.now (plain_document document)) }
{
    let json = document.into_json(alloc)?;
    if !is_right(alloc, &json, params)? {
        return Ok(None);
    }
    Ok(Some(Document::from_json(alloc, json)?))
}

// Whether the document's JSON is within the bounds, and the document keeps the rules.
fn is_right(alloc: Global, json: &Json, params: &Params) -> Result<bool, WantOfMemory>
    ensures { IfOk result (λ is. is ≡ (fits params.now.max_depth params.now.max_document (plain json.now)
        && keeps_rules params.now.version (document_in (plain json.now)))) }
{
    // For proofs: the limits are those of their version.
    let version = params.version();
    if !fits(json, params.max_depth(), params.max_document()) {
        return Ok(false);
    }
    let text = text_of(alloc, json)?;
    keeps_rules(alloc, &text.root(), version)
}

// The rules of the keys, services and names.
#[tactic(auto, unfolding(crate::specs::Document::keeps_rules))]
fn keeps_rules(alloc: Global, document: &Scanned<'_>, version: u8) -> Result<bool, WantOfMemory>
    ensures { IfOk result (λ holds. holds ≡ keeps_rules version (document_in document.now)) }
{
    let keys = entries_in(document.member("publicKeys"));
    let services = entries_in(document.member("services"));
    let names = texts_in(alloc, entries_in(document.member("alsoKnownAs")))?;
    if !(may_have_names(version) || names.as_slice().is_empty()) {
        return Ok(false);
    }
    if !are_keys(alloc, keys.again())? {
        return Ok(false);
    }
    if !are_services(alloc, services.again())? {
        return Ok(false);
    }
    if !are_names(names.as_slice()) {
        return Ok(false);
    }
    if !ids_stand_once(alloc, keys)? {
        return Ok(false);
    }
    if !ids_stand_once(alloc, services)? {
        return Ok(false);
    }
    texts_stand_once(alloc, names.as_slice())
}

pub(crate) fn are_names(names: &[Text]) -> bool
    ensures { result ≡ list_all is_name names.now }
{
    for name in names {
        if !is_name(name.as_str()) {
            return false;
        }
    }
    true
}
