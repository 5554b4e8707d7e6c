ghost use Rattle.std.specs.Prelude.{◌≡◌, IfOk, false};
ghost use Rattle.st_apply.specs.Applied.{applied};
ghost use Rattle.st_apply.specs.Codes.{absent, is_active};
ghost use Rattle.st_apply.specs.Laws.{opened, shown_active, shown_begun};
ghost use Rattle.st_base.specs.Work.{one_apply, AppliesAtMost};
ghost use Rattle.st_ops.specs.Operation.{creating, plain_operation};

use crate::applying::apply;
use crate::state::{Active, Begun, DidState, Kept};
use st_base::{Copied, Shared, WantOfMemory, Work};
use st_canon::PackedJson;
use st_doc::Document;
use st_hash::Hash;
use st_indexfiles::SuffixData;
use st_ops::Operation;
use st_params::Params;
use std::alloc::Global;

/// The parts of a state.
#[derive(Drop)]
pub enum StateParts {
    /// No create has acted.
    Absent,
    /// A create has acted.
    Active {
        /// The commitment to the key of the next recover or deactivate.
        recovery: Hash,
        /// The commitment to the key of the next update, if there is one.
        update: Option<Hash>,
        /// The document.
        document: Shared<Document>,
    },
    /// A deactivate has acted.
    Deactivated,
}

impl Copied for StateParts {
    /// The same parts, with another reference to the document.
    fn copy(&self, alloc: Global) -> Result<StateParts, WantOfMemory> {
        match self {
            StateParts::Absent => Ok(StateParts::Absent),
            StateParts::Active {
                recovery,
                update,
                document,
            } => Ok(StateParts::Active {
                recovery: *recovery,
                update: *update,
                document: document.copy(alloc)?,
            }),
            StateParts::Deactivated => Ok(StateParts::Deactivated),
        }
    }
}

impl DidState {
    ghost use Rattle.std.specs.Prelude.{◌≡◌, IfOk, false};
    ghost use Rattle.st_apply.specs.Codes.{is_active};
    ghost use Rattle.st_apply.specs.Laws.{opened};
    ghost use Rattle.st_base.specs.Work.{AppliesAtMost};

    /// The parts of the state. A packed document is read for this. If the last operation that acted
    /// is a create or a recover, its delta may not have been read yet. Then each call reads it,
    /// which counts as one operation applied, also if memory runs out. Otherwise nothing is
    /// counted.
    pub fn open(&self, alloc: Global, work: &mut Work) -> Result<StateParts, WantOfMemory>
        ensures parts { IfOk result (λ parts. opened parts ≡ self.now) }
        ensures work { AppliesAtMost 1 work.old work.new }

        // Nothing is counted for a state that has no document.
        ensures idle { is_active self.now ≡ false → work.new ≡ work.old }
    {
        match &self.kept {
            Kept::Absent => Ok(StateParts::Absent),
            // Without a delta nothing must be read.
            Kept::Begun(begun) if begun.delta.is_none() => self.look(alloc),
            Kept::Begun(begun) => open_begun(alloc, begun, work),
            Kept::Active(active) => open_active(alloc, active),
            Kept::Deactivated => Ok(StateParts::Deactivated),
        }
    }

    // The same, if nothing is to be counted for it.
    pub(crate) fn look(&self, alloc: Global) -> Result<StateParts, WantOfMemory>
        ensures { IfOk result (λ parts. opened parts ≡ self.now) }
    {
        match &self.kept {
            Kept::Absent => Ok(StateParts::Absent),
            Kept::Begun(begun) => open_active(alloc, &begun.judged(alloc)?),
            Kept::Active(active) => open_active(alloc, active),
            Kept::Deactivated => Ok(StateParts::Deactivated),
        }
    }
}

/// The parts of the state after a create from nothing: the result of `apply` on `DidState::absent`,
/// opened. Together that counts as one operation applied, also if memory runs out.
#[tactic(auto, unfolding(crate::specs::Applied::applied))]
pub fn open_created(
    alloc: Global,
    suffix_data: &SuffixData,
    delta: Option<PackedJson>,
    params: &Params,
    work: &mut Work,
) -> Result<StateParts, WantOfMemory>
    ensures parts { IfOk result (λ parts. opened parts ≡ applied params.now absent (creating suffix_data.now delta)) }
    ensures work { work.new ≡ one_apply work.old }
{
    let begun = Begun {
        params: *params,
        recovery: suffix_data.recovery_commitment,
        delta_hash: suffix_data.delta_hash,
        delta,
    };
    open_begun(alloc, &begun, work)
}

/// The result of `apply` on a state, and its parts. Together that counts as one operation applied,
/// also if memory runs out. The delta of a create or a recover is read once for both.
pub fn open_applied(
    alloc: Global,
    state: &DidState,
    operation: &Operation,
    params: &Params,
    work: &mut Work,
) -> Result<(DidState, StateParts), WantOfMemory>
    ensures state { IfOk result (λ made. made.0 ≡ applied params.now state.now (plain_operation operation.now)) }
    ensures parts { IfOk result (λ made. opened made.1 ≡ made.0) }
    ensures work { work.new ≡ one_apply work.old }
{
    let next = apply(alloc, state, operation, params, work)?;
    judged(alloc, next)
}

// The state after its delta is read, and its parts.
fn judged(alloc: Global, state: DidState) -> Result<(DidState, StateParts), WantOfMemory>
    ensures state { IfOk result (λ made. made.0 ≡ state) }
    ensures parts { IfOk result (λ made. opened made.1 ≡ made.0) }
{
    let DidState { kept } = state;
    match kept {
        Kept::Absent => Ok((DidState::absent(), StateParts::Absent)),
        Kept::Begun(begun) => open_judged(alloc, begun.judged(alloc)?),
        Kept::Active(active) => open_judged(alloc, active),
        Kept::Deactivated => Ok((DidState::deactivated(), StateParts::Deactivated)),
    }
}

fn open_judged(alloc: Global, active: Active) -> Result<(DidState, StateParts), WantOfMemory>
    ensures state { IfOk result (λ made. made.0 ≡ shown_active active) }
    ensures parts { IfOk result (λ made. opened made.1 ≡ made.0) }
{
    let parts = open_active(alloc, &active)?;
    Ok((DidState::active(active), parts))
}

// The parts after a create or a recover. Its delta is read, which counts.
fn open_begun(alloc: Global, begun: &Begun, work: &mut Work) -> Result<StateParts, WantOfMemory>
    ensures parts { IfOk result (λ parts. opened parts ≡ shown_begun begun.now) }
    ensures work { work.new ≡ one_apply work.old }
{
    work.tick_applies();
    let active = begun.judged(alloc)?;
    open_active(alloc, &active)
}

fn open_active(alloc: Global, active: &Active) -> Result<StateParts, WantOfMemory>
    ensures { IfOk result (λ parts. opened parts ≡ shown_active active.now) }
{
    Ok(StateParts::Active {
        recovery: active.recovery,
        update: active.update,
        document: active.document.open(alloc)?,
    })
}
