ghost use Rattle.std.specs.Prelude.{◌≡◌, map, IfOk, option_map};
ghost use Rattle.st_base.specs.Answers.{GivesAs};
ghost use Rattle.st_canon.specs.View.{plain};
ghost use Rattle.st_jsonpatch.specs.Step.{plain_step};
ghost use Rattle.st_doc.specs.Patch.{after_patch, after_steps, added, added_names, removed, removed_names, plain_patch};
ghost use Rattle.st_doc.specs.Document.{plain_document};
ghost use Rattle.st_doc.specs.Patched.{blamed, patched};

use crate::check::if_document;
use crate::delta::Delta;
use crate::document::{Document, take_document};
use crate::effects::{add_entries, add_names, remove_entries, remove_names};
use crate::patch::{Patch, PatchRefused};
use st_base::{List, Text, WantOfMemory};
use st_canon::Json;
use st_jsonpatch::{Step, StepsRefused, apply_steps};
use st_params::Params;
use std::alloc::Global;

pub(crate) fn with_keys(
    alloc: Global,
    document: Document,
    new: List<Json>,
) -> Result<Document, WantOfMemory>
    ensures { IfOk result (λ next. plain_document next
        ≡ (let old = plain_document document in record old { keys = added (map plain new) old.keys })) }
{
    let Document {
        keys,
        services,
        names,
    } = document;
    let keys = add_entries(alloc, keys, new)?;
    Ok(Document {
        keys,
        services,
        names,
    })
}

pub(crate) fn without_keys(document: Document, ids: &[Text]) -> Document
    ensures { let old = plain_document document in plain_document result ≡ record old { keys = removed ids.now old.keys } }
{
    let Document {
        keys,
        services,
        names,
    } = document;
    Document {
        keys: remove_entries(keys, ids),
        services,
        names,
    }
}

pub(crate) fn with_services(
    alloc: Global,
    document: Document,
    new: List<Json>,
) -> Result<Document, WantOfMemory>
    ensures { IfOk result (λ next. plain_document next
        ≡ (let old = plain_document document in record old { services = added (map plain new) old.services })) }
{
    let Document {
        keys,
        services,
        names,
    } = document;
    let services = add_entries(alloc, services, new)?;
    Ok(Document {
        keys,
        services,
        names,
    })
}

pub(crate) fn without_services(document: Document, ids: &[Text]) -> Document
    ensures { let old = plain_document document in plain_document result
        ≡ record old { services = removed ids.now old.services } }
{
    let Document {
        keys,
        services,
        names,
    } = document;
    Document {
        keys,
        services: remove_entries(services, ids),
        names,
    }
}

pub(crate) fn with_names(
    alloc: Global,
    document: Document,
    new: &[Text],
) -> Result<Document, WantOfMemory>
    ensures { IfOk result (λ next. plain_document next
        ≡ (let old = plain_document document in record old { names = added_names new.now old.names })) }
{
    let Document {
        keys,
        services,
        names,
    } = document;
    let names = add_names(alloc, names, new)?;
    Ok(Document {
        keys,
        services,
        names,
    })
}

pub(crate) fn without_names(document: Document, gone: &[Text]) -> Document
    ensures { let old = plain_document document in plain_document result
        ≡ record old { names = removed_names gone.now old.names } }
{
    let Document {
        keys,
        services,
        names,
    } = document;
    Document {
        keys,
        services,
        names: remove_names(names, gone),
    }
}

/// The document after the patches of the delta. It takes over both: a document that replaces
/// another, and entries added to an empty list, are moved, not copied.
///
/// The result is `PatchFailed(i)` if and only if patch `i`, counted from 0, is the first that
/// fails: its result is not a document at these parameters, or a step of it fails.
pub fn apply_all(
    alloc: Global,
    document: Document,
    delta: Delta,
    params: &Params,
) -> Result<Document, PatchRefused>
    ensures { let says = patched params.now 0 (map plain_patch delta.patches) (plain_document document) in
        GivesAs plain_document blamed says result }
{
    let Delta { patches, update: _ } = delta;
    let mut now = document;
    let mut at = 0;
    'patches: for patch in patches.into_vec() {
        match apply(alloc, now, patch, params)? {
            Some(next) => now = next,
            None => return Err(PatchRefused::PatchFailed(at)),
        }
        at += 1;
    }
    Ok(now)
}

// The document after the patch, if the patch does not fail.
fn apply(
    alloc: Global,
    document: Document,
    patch: Patch,
    params: &Params,
) -> Result<Option<Document>, WantOfMemory>
    ensures { IfOk result (λ next. option_map plain_document next
        ≡ after_patch params.now (plain_patch patch) (plain_document document)) }
{
    let next = match patch {
        Patch::AddKeys(keys) => with_keys(alloc, document, keys)?,
        Patch::RemoveKeys(ids) => without_keys(document, ids.as_slice()),
        Patch::AddServices(services) => with_services(alloc, document, services)?,
        Patch::RemoveServices(ids) => without_services(document, ids.as_slice()),
        Patch::Replace(new) => new,
        Patch::Steps(steps) => return after_steps(alloc, document, steps.as_slice(), params),
        Patch::AddNames(names) => with_names(alloc, document, names.as_slice())?,
        Patch::RemoveNames(names) => without_names(document, names.as_slice()),
    };
    if_document(alloc, next, params)
}

// The steps applied to the document's JSON, if none fails and the result is a document.
fn after_steps(
    alloc: Global,
    document: Document,
    steps: &[Step],
    params: &Params,
) -> Result<Option<Document>, WantOfMemory>
    ensures { IfOk result (λ next. option_map plain_document next
        ≡ after_steps params.now (map plain_step steps.now) (plain_document document)) }
{
    let json = document.into_json(alloc)?;
    match apply_steps(
        alloc,
        &json,
        steps,
        params.max_depth(),
        params.max_document(),
    ) {
        Ok(value) => take_document(alloc, value, params),
        Err(StepsRefused::Failed(_)) => Ok(None),
        Err(StepsRefused::WantOfMemory) => Err(WantOfMemory),
    }
}
