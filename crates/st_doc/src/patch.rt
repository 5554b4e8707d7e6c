ghost use Rattle.std.specs.List.{list_all};
ghost use Rattle.std.specs.Prelude.{◌≡◌, map, option_map, IfOk};
ghost use Rattle.std.specs.Result.{result_ok};
ghost use Rattle.st_base.specs.Lists.{each_of};
ghost use Rattle.st_canon.specs.View.{plain};
ghost use Rattle.st_jsonpatch.specs.Step.{plain_step, step_of};
ghost use Rattle.st_doc.specs.Document.{is_id};
ghost use Rattle.st_doc.specs.Patch.{add_keys_of, add_names_of, add_services_of, beside_action, ids_in, names_in, patch_of, plain_patch, remove_keys_of, remove_names_of, remove_services_of, replace_of, steps_of, values_at};
ghost use Rattle.st_doc.specs.inside.Patch.{found_patch};

use crate::action::{Action, action_of};
use crate::check::are_names;
use crate::document::{Document, are_texts, take_document, texts_of};
use crate::forms::{is_id, list_in, tree_of, values_of};
use crate::ids::{ids_stand_once, texts_stand_once};
use crate::key::are_keys;
use crate::service::are_services;
use st_base::{Copied, List, Text, WantOfMemory};
use st_canon::Json;
use st_jsonpatch::{Step, StepRefused};
use st_params::Params;
use st_scan::{Entries, Scanned};
use std::alloc::Global;
use thiserror::Error;

/// A change to a document.
#[derive(Drop)]
pub enum Patch {
    /// Each key replaces the key of its id in its place, or is appended.
    AddKeys(List<Json>),
    /// Each key with one of these ids is removed.
    RemoveKeys(List<Text>),
    /// Each service replaces the service of its id in its place, or is appended.
    AddServices(List<Json>),
    /// Each service with one of these ids is removed.
    RemoveServices(List<Text>),
    /// The document becomes this.
    Replace(Document),
    /// These steps are applied to the document's JSON.
    Steps(List<Step>),
    /// Each name that is not there yet is appended.
    AddNames(List<Text>),
    /// Each of these names is removed.
    RemoveNames(List<Text>),
}

/// A patch that was read. Its keys and services are still in the text of the delta.
#[derive(Drop)]
pub(crate) enum Found<'a> {
    Keys(Entries<'a>),
    Services(Entries<'a>),
    Whole(Patch),
}

impl Copied for Patch {
    fn copy(&self, alloc: Global) -> Result<Patch, WantOfMemory> {
        match self {
            Patch::AddKeys(keys) => Ok(Patch::AddKeys(keys.copy(alloc)?)),
            Patch::RemoveKeys(ids) => Ok(Patch::RemoveKeys(ids.copy(alloc)?)),
            Patch::AddServices(services) => Ok(Patch::AddServices(services.copy(alloc)?)),
            Patch::RemoveServices(ids) => Ok(Patch::RemoveServices(ids.copy(alloc)?)),
            Patch::Replace(document) => Ok(Patch::Replace(document.copy(alloc)?)),
            Patch::Steps(steps) => Ok(Patch::Steps(steps.copy(alloc)?)),
            Patch::AddNames(names) => Ok(Patch::AddNames(names.copy(alloc)?)),
            Patch::RemoveNames(names) => Ok(Patch::RemoveNames(names.copy(alloc)?)),
        }
    }
}

/// The patch of a value, if it is one.
#[tactic(auto, unfolding(crate::specs::Patch::patch_of))]
pub(crate) fn read_patch<'a>(
    alloc: Global,
    value: &Scanned<'a>,
    params: &Params,
) -> Result<Option<Found<'a>>, WantOfMemory>
    ensures { IfOk result (λ patch. option_map found_patch patch ≡ patch_of params.now value.now) }
{
    let Some(action) = action_of(alloc, value, params.version())? else {
        return Ok(None);
    };
    match action {
        Action::AddKeys => read_add_keys(alloc, value),
        Action::RemoveKeys => read_remove_keys(alloc, value),
        Action::AddServices => read_add_services(alloc, value),
        Action::RemoveServices => read_remove_services(alloc, value),
        Action::Replace => read_replace(alloc, value, params),
        Action::Steps => read_steps(alloc, value),
        Action::AddNames => read_add_names(alloc, value),
        Action::RemoveNames => read_remove_names(alloc, value),
    }
}

/// The patch, with trees of its keys and services.
pub(crate) fn whole(alloc: Global, found: Found<'_>) -> Result<Patch, WantOfMemory>
    ensures { IfOk result (λ patch. plain_patch patch ≡ found_patch found.entry) }
{
    match found {
        Found::Keys(keys) => Ok(Patch::AddKeys(values_of(alloc, keys)?)),
        Found::Services(services) => Ok(Patch::AddServices(values_of(alloc, services)?)),
        Found::Whole(patch) => Ok(patch),
    }
}

fn read_add_keys<'a>(alloc: Global, patch: &Scanned<'a>) -> Result<Option<Found<'a>>, WantOfMemory>
    ensures { IfOk result (λ read. option_map found_patch read ≡ add_keys_of patch.now) }
{
    let Some(keys) = values_at(patch, "publicKeys") else {
        return Ok(None);
    };
    if !are_keys(alloc, keys.again())? {
        return Ok(None);
    }
    if !ids_stand_once(alloc, keys.again())? {
        return Ok(None);
    }
    Ok(Some(Found::Keys(keys)))
}

fn read_add_services<'a>(
    alloc: Global,
    patch: &Scanned<'a>,
) -> Result<Option<Found<'a>>, WantOfMemory>
    ensures { IfOk result (λ read. option_map found_patch read ≡ add_services_of patch.now) }
{
    let Some(services) = values_at(patch, "services") else {
        return Ok(None);
    };
    if !are_services(alloc, services.again())? {
        return Ok(None);
    }
    if !ids_stand_once(alloc, services.again())? {
        return Ok(None);
    }
    Ok(Some(Found::Services(services)))
}

fn read_remove_keys<'a>(
    alloc: Global,
    patch: &Scanned<'a>,
) -> Result<Option<Found<'a>>, WantOfMemory>
    ensures { IfOk result (λ read. option_map found_patch read ≡ remove_keys_of patch.now) }
{
    let Some(ids) = read_ids(alloc, patch)? else {
        return Ok(None);
    };
    Ok(Some(Found::Whole(Patch::RemoveKeys(ids))))
}

fn read_remove_services<'a>(
    alloc: Global,
    patch: &Scanned<'a>,
) -> Result<Option<Found<'a>>, WantOfMemory>
    ensures { IfOk result (λ read. option_map found_patch read ≡ remove_services_of patch.now) }
{
    let Some(ids) = read_ids(alloc, patch)? else {
        return Ok(None);
    };
    Ok(Some(Found::Whole(Patch::RemoveServices(ids))))
}

fn read_replace<'a>(
    alloc: Global,
    patch: &Scanned<'a>,
    params: &Params,
) -> Result<Option<Found<'a>>, WantOfMemory>
    ensures { IfOk result (λ read. option_map found_patch read ≡ replace_of params.now patch.now) }
{
    let Some(document) = beside_action(patch, "document") else {
        return Ok(None);
    };
    match take_document(alloc, tree_of(alloc, &document)?, params)? {
        Some(document) => Ok(Some(Found::Whole(Patch::Replace(document)))),
        None => Ok(None),
    }
}

fn read_steps<'a>(alloc: Global, patch: &Scanned<'a>) -> Result<Option<Found<'a>>, WantOfMemory>
    ensures { IfOk result (λ read. option_map found_patch read ≡ steps_of patch.now) }
{
    let Some(values) = values_at(patch, "patches") else {
        return Ok(None);
    };
    let values = values_of(alloc, values)?;
    let Some(steps) = each_step(alloc, values.as_slice())? else {
        return Ok(None);
    };
    Ok(Some(Found::Whole(Patch::Steps(steps))))
}

fn read_add_names<'a>(alloc: Global, patch: &Scanned<'a>) -> Result<Option<Found<'a>>, WantOfMemory>
    ensures { IfOk result (λ read. option_map found_patch read ≡ add_names_of patch.now) }
{
    let Some(names) = read_names(alloc, patch)? else {
        return Ok(None);
    };
    if texts_stand_once(alloc, names.as_slice())? {
        Ok(Some(Found::Whole(Patch::AddNames(names))))
    } else {
        Ok(None)
    }
}

fn read_remove_names<'a>(
    alloc: Global,
    patch: &Scanned<'a>,
) -> Result<Option<Found<'a>>, WantOfMemory>
    ensures { IfOk result (λ read. option_map found_patch read ≡ remove_names_of patch.now) }
{
    let Some(names) = read_names(alloc, patch)? else {
        return Ok(None);
    };
    Ok(Some(Found::Whole(Patch::RemoveNames(names))))
}

// The value of the only member besides `action`.
fn beside_action<'a>(patch: &Scanned<'a>, name: &str) -> Option<Scanned<'a>>
    ensures { result ≡ beside_action name.now patch.now }
{
    let (_action, value) = patch.both_members("action", name)?;
    Some(value)
}

// The values of the list in the member of this name.
fn values_at<'a>(patch: &Scanned<'a>, name: &str) -> Option<Entries<'a>>
    ensures { result ≡ values_at name.now patch.now }
{
    list_in(beside_action(patch, name)?)
}

fn read_ids(alloc: Global, patch: &Scanned<'_>) -> Result<Option<List<Text>>, WantOfMemory>
    ensures { IfOk result (λ ids. ids ≡ ids_in patch.now) }
{
    let Some(values) = values_at(patch, "ids") else {
        return Ok(None);
    };
    let values = values_of(alloc, values)?;
    if !are_texts(values.as_slice()) {
        return Ok(None);
    }
    let ids = texts_of(alloc, values.as_slice())?;
    if are_ids(ids.as_slice()) {
        Ok(Some(ids))
    } else {
        Ok(None)
    }
}

fn read_names(alloc: Global, patch: &Scanned<'_>) -> Result<Option<List<Text>>, WantOfMemory>
    ensures { IfOk result (λ names. names ≡ names_in patch.now) }
{
    let Some(values) = values_at(patch, "uris") else {
        return Ok(None);
    };
    let values = values_of(alloc, values)?;
    if !are_texts(values.as_slice()) {
        return Ok(None);
    }
    let names = texts_of(alloc, values.as_slice())?;
    if are_names(names.as_slice()) {
        Ok(Some(names))
    } else {
        Ok(None)
    }
}

fn are_ids(texts: &[Text]) -> bool
    ensures { result ≡ list_all is_id texts.now }
{
    for text in texts {
        if !is_id(text.as_str().as_bytes()) {
            return false;
        }
    }
    true
}

fn each_step(alloc: Global, values: &[Json]) -> Result<Option<List<Step>>, WantOfMemory>
    ensures { IfOk result (λ steps. option_map (map plain_step) steps
        ≡ each_of (λ value. result_ok (step_of value)) (map plain values.now)) }
{
    let mut steps = List::new(alloc);
    for value in values {
        match Step::read(alloc, value) {
            Ok(step) => steps.push(alloc, step)?,
            Err(StepRefused::BadStep) => return Ok(None),
            Err(StepRefused::WantOfMemory) => return Err(WantOfMemory),
        }
    }
    Ok(Some(steps))
}

/// Why patches are not applied.
#[derive(Clone, Copy, Debug, Drop, Error, PartialEq, Eq)]
pub enum PatchRefused {
    /// The patch of this number, counted from 0, is the first that fails.
    #[error("patch {0} fails")]
    PatchFailed(usize),
    #[error("out of memory")]
    WantOfMemory,
}

impl From<WantOfMemory> for PatchRefused {
    ghost use Rattle.std.specs.Prelude.{◌≡◌};
    ghost use Rattle.st_doc.specs.declared.patch.PatchRefused.TheVariants.{WantOfMemory};

    ghost from_gives = { λ _ refused. refused ≡ WantOfMemory };

    fn from(_want: WantOfMemory) -> PatchRefused {
        PatchRefused::WantOfMemory
    }
}
