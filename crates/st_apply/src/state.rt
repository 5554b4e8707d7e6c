ghost use Rattle.std.specs.Prelude.{◌≡◌, IfOk};

use crate::counting::{begun_document, counted_delta};
use crate::document::KeptDocument;
use st_base::{Copied, WantOfMemory};
use st_canon::PackedJson;
use st_hash::Hash;
use st_params::Params;
use std::alloc::Global;
use std::marker::Model;

/// The state of an identifier. It is made only by `absent`, `apply`, `pack` and `copy`. The delta
/// of a create or a recover is not read before the state is opened or the next operation is
/// applied, since most identifiers are created and never requested. Contracts see the state as
/// `absent`, as `active` with a recovery commitment, an update commitment, if there is one, and a
/// document, or as `deactivated`.
#[derive(Drop)]
pub struct DidState {
    pub(crate) kept: Kept,
}

#[derive(Drop)]
pub(crate) enum Kept {
    Absent,
    Begun(Begun),
    Active(Active),
    Deactivated,
}

// What is known after a delta was read. States share the document, so a copy only adds to a count.
#[derive(Drop)]
pub(crate) struct Active {
    pub(crate) recovery: Hash,
    pub(crate) update: Option<Hash>,
    pub(crate) document: KeptDocument,
}

impl Model for DidState {
    ghost use Rattle.st_apply.specs.Codes.{state_code, State};
    ghost use Rattle.st_doc.specs.Document.{PlainDocument};
    ghost use Rattle.st_hash.specs.Hash.{HashValue};

    ghost Value = { State HashValue PlainDocument };

    ghost coded = { state_code };

    ghost use Rattle.st_apply.specs.Laws.{shown};

    ghost view = { λ state. shown state.kept };
}

impl DidState {
    ghost use Rattle.std.specs.Prelude.{◌≡◌, IfOk};
    ghost use Rattle.st_apply.specs.Codes.{absent, active, deactivated};
    ghost use Rattle.st_apply.specs.Laws.{shown_active, shown_begun};

    /// The state before any operation.
    pub fn absent() -> DidState
        ensures { result ≡ absent }
    {
        DidState { kept: Kept::Absent }
    }

    pub(crate) fn begun(begun: Begun) -> DidState
        ensures { result ≡ shown_begun begun }
    {
        DidState {
            kept: Kept::Begun(begun),
        }
    }

    pub(crate) fn active(active: Active) -> DidState
        ensures { result ≡ shown_active active }
    {
        DidState {
            kept: Kept::Active(active),
        }
    }

    pub(crate) fn deactivated() -> DidState
        ensures { result ≡ deactivated }
    {
        DidState {
            kept: Kept::Deactivated,
        }
    }

    /// The same state with its document packed: it takes less memory, and opening the document
    /// means reading it.
    pub fn pack(&self, alloc: Global) -> Result<DidState, WantOfMemory>
        ensures { IfOk result (λ state. state ≡ self.now) }
    {
        match &self.kept {
            Kept::Absent => Ok(DidState::absent()),
            Kept::Begun(begun) => Ok(DidState::begun(begun.copy(alloc)?)),
            Kept::Active(active) => Ok(DidState::active(Active {
                recovery: active.recovery,
                update: active.update,
                document: active.document.packed(alloc)?,
            })),
            Kept::Deactivated => Ok(DidState::deactivated()),
        }
    }
}

impl Copied for DidState {
    /// Another reference to the same document. It takes little memory, if any.
    fn copy(&self, alloc: Global) -> Result<DidState, WantOfMemory> {
        match &self.kept {
            Kept::Absent => Ok(DidState::absent()),
            Kept::Begun(begun) => Ok(DidState::begun(begun.copy(alloc)?)),
            Kept::Active(active) => Ok(DidState::active(Active {
                recovery: active.recovery,
                update: active.update,
                document: active.document.copy(alloc)?,
            })),
            Kept::Deactivated => Ok(DidState::deactivated()),
        }
    }
}

/// The result of a create or a recover, at the limits of its height, before its delta is read.
#[derive(Drop)]
pub(crate) struct Begun {
    pub(crate) params: Params,
    pub(crate) recovery: Hash,
    pub(crate) delta_hash: Hash,
    pub(crate) delta: Option<PackedJson>,
}

impl Begun {
    ghost use Rattle.std.specs.Prelude.{◌≡◌, IfOk};
    ghost use Rattle.st_apply.specs.Laws.{shown_active, shown_begun};

    /// The same after its delta is read.
    pub(crate) fn judged(&self, alloc: Global) -> Result<Active, WantOfMemory>
        ensures { IfOk result (λ active. shown_active active ≡ shown_begun self.now) }
    {
        match counted_delta(alloc, &self.params, &self.delta_hash, &self.delta)? {
            None => Ok(Active {
                recovery: self.recovery,
                update: None,
                document: KeptDocument::empty(alloc)?,
            }),
            Some(delta) => Ok(Active {
                recovery: self.recovery,
                update: Some(delta.update),
                document: begun_document(alloc, &self.params, delta)?,
            }),
        }
    }
}

impl Copied for Begun {
    /// Another reference to the same delta.
    fn copy(&self, alloc: Global) -> Result<Begun, WantOfMemory> {
        Ok(Begun {
            params: self.params,
            recovery: self.recovery,
            delta_hash: self.delta_hash,
            delta: copy_delta(alloc, &self.delta)?,
        })
    }
}

/// Another reference to the delta, if any.
pub(crate) fn copy_delta(
    alloc: Global,
    delta: &Option<PackedJson>,
) -> Result<Option<PackedJson>, WantOfMemory>
    ensures { IfOk result (λ copied. copied ≡ delta.now) }
{
    match delta {
        Some(delta) => Ok(Some(delta.copy(alloc)?)),
        None => Ok(None),
    }
}
