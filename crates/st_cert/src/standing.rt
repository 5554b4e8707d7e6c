use crate::certificate::CertItem;
use crate::verdict::{Verdict, judge};
use st_apply::{DidState, StateParts, open_applied};
use st_base::{WantOfMemory, Work};
use st_params::Schedule;
use std::alloc::Global;
use std::marker::Model;

/// The state after the items so far, and its parts: it is opened once, when an item has acted.
/// Contracts see the state.
#[derive(Drop)]
pub(crate) struct Standing {
    state: DidState,
    parts: StateParts,
}

impl Model for Standing {
    ghost use Rattle.std.specs.Prelude.{◌≡◌};
    ghost use Rattle.st_apply.specs.Codes.{state_code, State};
    ghost use Rattle.st_apply.specs.Laws.{opened};
    ghost use Rattle.st_doc.specs.Document.{PlainDocument};
    ghost use Rattle.st_hash.specs.Hash.{HashValue};

    ghost Value = { State HashValue PlainDocument };

    ghost coded = { state_code };

    ghost view = { λ s. s.state };

    ghost invariant = { λ s. opened s.parts ≡ s.state };
}

impl Standing {
    ghost use Rattle.std.specs.Prelude.{◌≡◌, ◌↔◌, IfOk, IsTrue, true};
    ghost use Rattle.st_apply.specs.Codes.{absent};
    ghost use Rattle.st_cert.specs.Certificate.{anchored_item, verdict_in, is_acting};
    ghost use Rattle.st_cert.specs.inside.Following.{counted_if, state_behind};

    /// Before any item.
    pub(crate) fn absent() -> Standing
        ensures { result ≡ absent }
    {
        Standing {
            state: DidState::absent(),
            parts: StateParts::Absent,
        }
    }

    /// The verdict of an item here.
    pub(crate) fn judge(
        &self,
        alloc: Global,
        schedule: &Schedule,
        item: &CertItem,
    ) -> Result<Verdict, WantOfMemory>
        ensures { IfOk result (λ verdict. verdict ≡ verdict_in schedule.now self.now (anchored_item item.now)) }
    {
        let params = schedule.at(item.height);
        judge(alloc, &self.parts, &item.operation, &params)
    }

    /// After an item, whose verdict here is this one.
    pub(crate) fn behind(
        self,
        alloc: Global,
        schedule: &Schedule,
        item: &CertItem,
        verdict: Verdict,
        work: &mut Work,
    ) -> Result<Standing, WantOfMemory>
        requires { verdict ≡ verdict_in schedule.now self (anchored_item item.now) }
        ensures state { IfOk result (λ standing. standing ≡ state_behind schedule.now self (anchored_item item.now)) }
        ensures work { work.new ≡ counted_if (is_acting verdict) work.old }
    {
        if verdict.is_acting() {
            self.applied(alloc, schedule, item, work)
        } else {
            Ok(self)
        }
    }

    // After an item that acts.
    fn applied(
        self,
        alloc: Global,
        schedule: &Schedule,
        item: &CertItem,
        work: &mut Work,
    ) -> Result<Standing, WantOfMemory>
        ensures state { IfOk result (λ standing. standing ≡ state_behind schedule.now self (anchored_item item.now)) }
        ensures work { work.new ≡ counted_if true work.old }
    {
        let params = schedule.at(item.height);
        let (state, parts) = open_applied(alloc, &self.state, &item.operation, &params, work)?;
        Ok(Standing { state, parts })
    }

    /// Whether the state is this one.
    pub(crate) fn is(&self, alloc: Global, state: &DidState) -> Result<bool, WantOfMemory>
        ensures { IfOk result (λ same. IsTrue same ↔ (state.now ≡ self.now)) }
    {
        let same = state.holds(alloc, &self.parts)?;
        Ok(same)
    }

    /// The state.
    pub(crate) fn into_state(self) -> DidState
        ensures { result ≡ self }
    {
        let Standing { state, .. } = self;
        state
    }
}
