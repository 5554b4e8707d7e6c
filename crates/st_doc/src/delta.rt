ghost use Rattle.std.specs.List.{list_all};
ghost use Rattle.std.specs.Prelude.{◌≡◌, ◌≤◌, is_some, map, nat_le, IfOk};
ghost use Rattle.std.specs.Result.{result_ok};
ghost use Rattle.st_base.specs.Answers.{Gives, GivesAs};
ghost use Rattle.st_plain.specs.Measures.{depth_of, size_of};
ghost use Rattle.st_canon.specs.View.{plain};
ghost use Rattle.st_doc.specs.Delta.{delta_of, hash_in, outer_of, patches_of, plain_delta, refusal_of};
ghost use Rattle.st_doc.specs.Patch.{patch_of, plain_patch};

use crate::forms::{list_in, text_of, tree_of};
use crate::patch::{Patch, read_patch, whole};
use st_base::{Copied, List, WantOfMemory};
use st_canon::{Json, depth, fits};
use st_hash::{Hash, read_hash_at};
use st_params::Params;
use st_scan::{Entries, Scanned};
use std::alloc::Global;
use thiserror::Error;

/// Patches, and the commitment to the key of the next update.
#[derive(Drop)]
pub struct Delta {
    pub patches: List<Patch>,
    pub update: Hash,
}

impl Copied for Delta {
    fn copy(&self, alloc: Global) -> Result<Delta, WantOfMemory> {
        Ok(Delta {
            patches: self.patches.copy(alloc)?,
            update: self.update,
        })
    }
}

const MAX_DEPTH: u64 = 64;

/// The delta at these parameters in a value.
///
/// The refusal is the first of these that holds: `TooLong`, `BadDelta`, and `BadPatch(i)` for the
/// first value in `patches` that is not a patch.
#[tactic(auto, using(crate::proofs::DeltaLemmas::long_refused, crate::proofs::DeltaLemmas::deep_refused))]
pub fn check_delta(alloc: Global, value: &Json, params: &Params) -> Result<Delta, DeltaRefused>
    ensures { GivesAs plain_delta refusal_of (delta_of params.now (plain value.now)) result }
{
    if !is_within_size(value, params) {
        return Err(DeltaRefused::TooLong);
    }
    if !is_shallow(value) {
        return Err(DeltaRefused::BadDelta);
    }
    let text = text_of(alloc, value)?;
    read_delta(alloc, &text.root(), params)
}

/// The same for a value in its canonical text. Trees are built only of what patches apply.
#[tactic(auto, unfolding(crate::specs::Delta::delta_of))]
pub fn read_delta(
    alloc: Global,
    delta: &Scanned<'_>,
    params: &Params,
) -> Result<Delta, DeltaRefused>
    ensures { GivesAs plain_delta refusal_of (delta_of params.now delta.now) result }
{
    let (patches, update) = outer_of(alloc, delta, params)?;
    let patches = read_patches(alloc, patches, params)?;
    Ok(Delta { patches, update })
}

/// Whether it is a delta at these parameters. No trees are built of its keys and services.
#[tactic(auto, unfolding(crate::specs::Delta::delta_of), using(crate::proofs::PatchLemmas::is_by_patches))]
pub fn is_delta(alloc: Global, delta: &Scanned<'_>, params: &Params) -> Result<bool, WantOfMemory>
    ensures { IfOk result (λ is. is ≡ is_some (result_ok (delta_of params.now delta.now))) }
{
    match outer_of(alloc, delta, params) {
        Ok((patches, _)) => are_patches(alloc, patches, params),
        Err(DeltaRefused::WantOfMemory) => Err(WantOfMemory),
        Err(_) => Ok(false),
    }
}

// The patches and the update commitment of a value with the outer form of a delta.
#[tactic(auto, unfolding(crate::specs::Delta::outer_of))]
fn outer_of<'a>(
    alloc: Global,
    delta: &Scanned<'a>,
    params: &Params,
) -> Result<(Entries<'a>, Hash), DeltaRefused>
    ensures { Gives refusal_of (outer_of params.now delta.now) result }
{
    if delta.size() as u64 > params.max_delta() {
        return Err(DeltaRefused::TooLong);
    }
    let Some((patches, update)) = delta.both_members("patches", "updateCommitment") else {
        return Err(DeltaRefused::BadDelta);
    };
    let Some(update) = hash_in(alloc, &update, params.version())? else {
        return Err(DeltaRefused::BadDelta);
    };
    if !nests_little(alloc, delta)? {
        return Err(DeltaRefused::BadDelta);
    }
    let Some(patches) = list_in(patches) else {
        return Err(DeltaRefused::BadDelta);
    };
    Ok((patches, update))
}

// Whether its canonical text is at most as long as that of a delta may be.
fn is_within_size(value: &Json, params: &Params) -> bool
    ensures { result ≡ nat_le (size_of (plain value.now)) params.now.max_delta }
{
    fits(value, u64::MAX, params.max_delta())
}

// Whether it nests at most as deep as a delta may.
fn is_shallow(value: &Json) -> bool
    ensures { result ≡ nat_le (depth_of (plain value.now)) 64 }
{
    depth(value) <= MAX_DEPTH
}

// The same for a value in its text, whose brackets usually decide it.
fn nests_little(alloc: Global, value: &Scanned<'_>) -> Result<bool, WantOfMemory>
    ensures { IfOk result (λ is. is ≡ nat_le (depth_of value.now) 64) }
{
    if value.depth_bound() as u64 <= MAX_DEPTH {
        return Ok(true);
    }
    let json = tree_of(alloc, value)?;
    Ok(is_shallow(&json))
}

// The hash of the version with this text.
fn hash_in(alloc: Global, value: &Scanned<'_>, version: u8) -> Result<Option<Hash>, WantOfMemory>
    requires first { 1 ≤ version }
    requires last { version ≤ 2 }
    ensures { IfOk result (λ hash. hash ≡ hash_in version value.now) }
{
    if let Some(text) = value.bare_text() {
        return Ok(read_hash_at(text, version).ok());
    }
    match value.text(alloc)? {
        Some(text) => Ok(read_hash_at(text.as_str().as_bytes(), version).ok()),
        None => Ok(None),
    }
}

fn are_patches(alloc: Global, patches: Entries<'_>, params: &Params) -> Result<bool, WantOfMemory>
    ensures { IfOk result (λ are. are ≡ list_all (λ patch. is_some (patch_of params.now patch)) patches.entry) }
{
    let mut left = patches;
    'patches: while let Some(patch) = left.next() {
        if read_patch(alloc, &patch, params)?.is_none() {
            return Ok(false);
        }
    }
    Ok(true)
}

fn read_patches(
    alloc: Global,
    patches: Entries<'_>,
    params: &Params,
) -> Result<List<Patch>, DeltaRefused>
    ensures { GivesAs (map plain_patch) refusal_of (patches_of params.now 0 patches.entry) result }
{
    let mut read = List::new(alloc);
    let mut left = patches;
    'patches: while let Some(patch) = left.next() {
        let Some(found) = read_patch(alloc, &patch, params)? else {
            return Err(DeltaRefused::BadPatch(read.len()));
        };
        read.push(alloc, whole(alloc, found)?)?;
    }
    Ok(read)
}

/// Why a value is not read as a delta.
#[derive(Clone, Copy, Debug, Drop, Error, PartialEq, Eq)]
pub enum DeltaRefused {
    /// Its canonical text has too many bytes.
    #[error("the delta is too long")]
    TooLong,
    /// It is not an object with exactly `patches`, a list, and `updateCommitment`, a hash text of
    /// the version, or nests more than 64 deep.
    #[error("not a delta")]
    BadDelta,
    /// The value of this number, counted from 0, is the first that is not a patch.
    #[error("patch {0} is not a patch")]
    BadPatch(usize),
    #[error("out of memory")]
    WantOfMemory,
}

impl From<WantOfMemory> for DeltaRefused {
    ghost use Rattle.std.specs.Prelude.{◌≡◌};
    ghost use Rattle.st_doc.specs.declared.delta.DeltaRefused.TheVariants.{WantOfMemory};

    ghost from_gives = { λ _ refused. refused ≡ WantOfMemory };

    fn from(_want: WantOfMemory) -> DeltaRefused {
        DeltaRefused::WantOfMemory
    }
}
