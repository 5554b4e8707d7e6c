ghost use Rattle.std.specs.Prelude.{◌≡◌, true, false, is_some, IfOk, IfSome, None, OnOk, Some, option_map};
ghost use Rattle.std.specs.Result.{result_ok};
ghost use Rattle.st_apply.specs.Applied.{change_by, counted, changed};
ghost use Rattle.st_base.specs.Answers.{GivesAs};
ghost use Rattle.st_plain.specs.Plain.{canonical, IsProper};
ghost use Rattle.st_doc.specs.Delta.{delta_of, plain_delta, refusal_of};
ghost use Rattle.st_doc.specs.Document.{empty_document};
ghost use Rattle.st_hash.specs.Hash.{IsCode, hash_of_with};

use crate::document::KeptDocument;
use st_base::{Copied, WantOfMemory};
use st_canon::{PackedJson, write};
use st_doc::{
    Delta, DeltaRefused, Document, PatchRefused, apply_all, check_delta, is_delta, read_delta,
};
use st_hash::{Hash, hash_with};
use st_params::Params;
use st_scan::Scanned;
use std::alloc::Global;

// The delta, if it counts for the delta hash.
pub(crate) fn counted_delta(
    alloc: Global,
    params: &Params,
    delta_hash: &Hash,
    delta: &Option<PackedJson>,
) -> Result<Option<Delta>, WantOfMemory>
    ensures value { IfOk result (λ found. option_map plain_delta found
        ≡ counted params.now delta_hash.now delta.now) }
    ensures proper { IfOk result (λ found. IfSome found (λ _. IfSome delta.now IsProper)) }
{
    let Some(delta) = delta else {
        return Ok(None);
    };
    if !may_count(alloc, params, delta_hash, delta)? {
        return Ok(None);
    }
    read(alloc, params, delta)
}

/// Whether the delta counts for the delta hash: it is present, its hash is the delta hash, and it
/// is a delta at these limits. This is after DIF Sidetree v1.0.0, "Operation Compilation"; the
/// rules are this project's own.
pub fn counts_for(
    alloc: Global,
    params: &Params,
    delta_hash: &Hash,
    delta: &Option<PackedJson>,
) -> Result<bool, WantOfMemory>
    ensures value { IfOk result (λ counts. counts ≡ is_some (counted params.now delta_hash.now delta.now)) }
    ensures proper { IfOk result (λ counts. counts ≡ true → IfSome delta.now IsProper) }
{
    let Some(delta) = delta else {
        return Ok(false);
    };
    if !may_count(alloc, params, delta_hash, delta)? {
        return Ok(false);
    }
    is_one(alloc, params, delta)
}

// Whether the delta is short enough and has this delta hash, so that it counts if it is a delta.
fn may_count(
    alloc: Global,
    params: &Params,
    delta_hash: &Hash,
    delta: &PackedJson,
) -> Result<bool, WantOfMemory>
    ensures no { IfOk result (λ may. may ≡ false → counted params.now delta_hash.now (Some delta.now) ≡ None) }
    ensures yes { IfOk result (λ may. may ≡ true → counted params.now delta_hash.now
        (Some delta.now) ≡ result_ok (delta_of params.now delta.now)) }
    ensures proper { IfOk result (λ may. may ≡ true → IsProper delta.now) }
{
    // The text is available, so one that is too long is neither hashed nor read.
    if delta.size() > params.max_delta() {
        return Ok(false);
    }
    if hash_of_delta(alloc, delta, delta_hash.code())? != *delta_hash {
        return Ok(false);
    }
    Ok(true)
}

fn is_one(alloc: Global, params: &Params, delta: &PackedJson) -> Result<bool, WantOfMemory>
    ensures { IfOk result (λ is. is ≡ is_some (result_ok (delta_of params.now delta.now))) }
{
    if let Some(text) = delta.text() {
        return is_delta(alloc, &Scanned::again(text), params);
    }
    let read = read(alloc, params, delta)?;
    Ok(read.is_some())
}

fn read(alloc: Global, params: &Params, delta: &PackedJson) -> Result<Option<Delta>, WantOfMemory>
    ensures { IfOk result (λ found. option_map plain_delta found ≡ result_ok (delta_of params.now delta.now)) }
{
    match read_or_refuse(alloc, params, delta) {
        Ok(delta) => Ok(Some(delta)),
        Err(DeltaRefused::TooLong) => Ok(None),
        Err(DeltaRefused::BadDelta) => Ok(None),
        Err(DeltaRefused::BadPatch(_)) => Ok(None),
        Err(DeltaRefused::WantOfMemory) => Err(WantOfMemory),
    }
}

fn read_or_refuse(alloc: Global, params: &Params, delta: &PackedJson) -> Result<Delta, DeltaRefused>
    ensures { GivesAs plain_delta refusal_of (delta_of params.now delta.now) result }
{
    match delta.text() {
        Some(text) => read_delta(alloc, &Scanned::again(text), params),
        None => {
            let value = delta.unpack(alloc)?;
            check_delta(alloc, &value, params)
        }
    }
}

// The hash of the canonical text of a delta by the algorithm with this code.
fn hash_of_delta(alloc: Global, delta: &PackedJson, code: u8) -> Result<Hash, WantOfMemory>
    requires { IsCode code }
    ensures value { IfOk result (λ hash. hash ≡ hash_of_with code (canonical delta.now)) }
    ensures proper { OnOk result (IsProper delta.now) }
{
    if let Some(text) = delta.text() {
        return Ok(hash_with(text, code));
    }
    let value = delta.unpack(alloc)?;
    let text = write(alloc, &value)?;
    Ok(hash_with(text.as_slice(), code))
}

// The document after all patches of the delta, or unchanged if one of them fails.
pub(crate) fn changed_document(
    alloc: Global,
    params: &Params,
    document: &KeptDocument,
    delta: Delta,
) -> Result<KeptDocument, WantOfMemory>
    ensures { IfOk result (λ after. after ≡ changed document.now (change_by params.now (plain_delta delta))) }
{
    match apply_all(alloc, document.unpack(alloc)?, delta, params) {
        Ok(after) => KeptDocument::share(alloc, after),
        Err(PatchRefused::PatchFailed(_)) => document.copy(alloc),
        Err(PatchRefused::WantOfMemory) => Err(WantOfMemory),
    }
}

// The same for the empty document.
pub(crate) fn begun_document(
    alloc: Global,
    params: &Params,
    delta: Delta,
) -> Result<KeptDocument, WantOfMemory>
    ensures { IfOk result (λ after. after ≡ changed empty_document (change_by params.now (plain_delta delta))) }
{
    match apply_all(alloc, Document::empty(alloc), delta, params) {
        Ok(after) => KeptDocument::share(alloc, after),
        Err(PatchRefused::PatchFailed(_)) => KeptDocument::empty(alloc),
        Err(PatchRefused::WantOfMemory) => Err(WantOfMemory),
    }
}
