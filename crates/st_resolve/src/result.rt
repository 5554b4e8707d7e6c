ghost use Rattle.std.specs.Prelude.{◌≡◌, ◌++◌, [], IfOk, IsSome, OnOk, None, true};
ghost use Rattle.st_base.specs.Answers.{Gives};
ghost use Rattle.st_base.specs.Work.{one_apply, AppliesAtMost};
ghost use Rattle.st_plain.specs.Plain.{canonical};
ghost use Rattle.st_apply.specs.Laws.{opened};
ghost use Rattle.st_resolve.specs.Identifier.{plain_did};
ghost use Rattle.st_resolve.specs.LongForm.{plain_long};
ghost use Rattle.st_resolve.specs.Result.{is_absent, is_deactivated, made_by, refusal_of, result_of, said_of, text_of};
ghost use Rattle.st_resolve.specs.inside.Texts.{said_text};

use crate::document::append_did_document;
use crate::identifier::{Did, LongForm};
use crate::metadata::append_metadata;
use st_apply::{DidState, StateParts, open_created};
use st_base::{Bytes, Copied, WantOfMemory, Work};
use st_params::Params;
use std::alloc::Global;
use thiserror::Error;

// Room that most texts do not outgrow, so that they are not moved while they are written.
const USUAL: usize = 1_000;

/// The canonical text of the result of resolving an identifier whose suffix has this state, by the
/// limits of the newest version, written directly, without a tree of JSON. The state is opened,
/// which counts what `DidState::open` counts. If no entry created the identifier, it is rendered
/// from the create in its long form, which counts as one applied operation; a short form then
/// counts nothing.
///
/// The result is `NotFound` if and only if the state is absent and the identifier is a short form.
#[tactic(auto, unfolding(crate::specs::Result::result_of), using(crate::proofs::ResultLemmas::absent_idle, crate::proofs::ResultLemmas::deactivated_idle))]
pub fn render(
    alloc: Global,
    did: &Did,
    state: &DidState,
    params: &Params,
    work: &mut Work,
) -> Result<Bytes, RenderRefused>
    ensures result { Gives refusal_of (text_of (result_of params.now (plain_did did.now) state.now)) result }
    ensures work { AppliesAtMost 1 work.old work.new }

    // If no entry created the identifier, one operation is counted for a long form, and none for a
    // short one. None is counted if it is deactivated.
    ensures long { is_absent state.now ≡ true → IsSome did.now.long → OnOk result (work.new ≡ one_apply work.old) }
    ensures short { is_absent state.now ≡ true → did.now.long ≡ None → work.new ≡ work.old }
    ensures deactivated { is_deactivated state.now ≡ true → work.new ≡ work.old }
{
    let parts = state.open(alloc, work)?;
    if !is_absent(&parts) {
        return Ok(written(alloc, true, did, &parts)?);
    }
    let Some(long) = &did.long else {
        return Err(RenderRefused::NotFound);
    };
    let made = made_by(alloc, long, params, work)?;
    Ok(written(alloc, false, did, &made)?)
}

fn is_absent(state: &StateParts) -> bool
    ensures { result ≡ is_absent (opened state.now) }
{
    match state {
        StateParts::Absent => true,
        _ => false,
    }
}

// The parts of the state that the create in a long form makes from nothing.
fn made_by(
    alloc: Global,
    long: &LongForm,
    params: &Params,
    work: &mut Work,
) -> Result<StateParts, WantOfMemory>
    ensures parts { IfOk result (λ parts. opened parts ≡ made_by params.now (plain_long long.now)) }
    ensures ok { OnOk result (work.new ≡ one_apply work.old) }
    ensures work { AppliesAtMost 1 work.old work.new }
{
    let delta = long.delta.copy(alloc)?;
    let parts = open_created(alloc, &long.suffix_data, Some(delta), params, work)?;
    Ok(parts)
}

/// The canonical text of the result of an identifier in a state, which is published or not.
pub(crate) fn written(
    alloc: Global,
    published: bool,
    did: &Did,
    state: &StateParts,
) -> Result<Bytes, WantOfMemory>
    ensures { IfOk result (λ text. text ≡ canonical (said_of published (plain_did did.now) (opened state.now))) }
{
    let mut out = Bytes::with_room(alloc, USUAL)?;
    append_said(alloc, &mut out, published, did, state)?;
    Ok(out)
}

fn append_said(
    alloc: Global,
    out: &mut Bytes,
    published: bool,
    did: &Did,
    state: &StateParts,
) -> Result<(), WantOfMemory>
    ensures { OnOk result (out.new ≡ out.old ++ canonical (said_of published (plain_did did.now) (opened state.now))) }
{
    append_said_parts(alloc, out, published, did, state)?;
    Ok(())
}

#[tactic(auto, unfolding(crate::specs::inside::Texts::said_text))]
fn append_said_parts(
    alloc: Global,
    out: &mut Bytes,
    published: bool,
    did: &Did,
    state: &StateParts,
) -> Result<(), WantOfMemory>
    ensures { OnOk result (out.new ≡ out.old ++ said_text published (plain_did did.now) (opened state.now)) }
{
    out.push_all(alloc, b"{\"didDocument\":")?;
    append_did_document(alloc, out, did.text.as_str(), state)?;
    out.push_all(alloc, b",\"didDocumentMetadata\":")?;
    append_metadata(alloc, out, published, did, state)?;
    out.push_all(alloc, b"}")?;
    Ok(())
}

/// Why there is no result.
#[derive(Clone, Copy, Debug, Drop, Error, PartialEq, Eq)]
pub enum RenderRefused {
    /// No entry created the identifier, and its text is a short form.
    #[error("not found")]
    NotFound,
    #[error("out of memory")]
    WantOfMemory,
}

impl From<WantOfMemory> for RenderRefused {
    ghost use Rattle.std.specs.Prelude.{◌≡◌};
    ghost use Rattle.st_resolve.specs.declared.result.RenderRefused.TheVariants.{WantOfMemory};

    ghost from_gives = { λ _ refused. refused ≡ WantOfMemory };

    fn from(_want: WantOfMemory) -> RenderRefused {
        RenderRefused::WantOfMemory
    }
}
