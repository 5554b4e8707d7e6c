ghost use Rattle.std.specs.List.{list_any};
ghost use Rattle.std.specs.List.Sorted.{IsStrictlySortedBy};
ghost use Rattle.std.specs.Prelude.{◌≡◌, ◌≤◌, ◌-◌, ◌*◌, ◌↔◌, length, map, IfOk, IsOk, IsSome, IsTrue, OnOk};
ghost use Rattle.st_base.specs.Work.{AppliesAtMost};
ghost use Rattle.st_hash.specs.Hash.{HashValue, same_hash, uri_of};
ghost use Rattle.st_params.specs.ParamsValue.{params_at};
ghost use Rattle.st_ledger.specs.Ledger.{admitted};
ghost use Rattle.st_content.specs.Files.{file_at};
ghost use Rattle.st_anchor.specs.BoundValue.{known_of_text};
ghost use Rattle.st_anchor.specs.Gives.{newly_decided, newly_opened};
ghost use Rattle.st_anchor.specs.States.{decided_roles, opened_proofs, role_states};
ghost use Rattle.st_apply.specs.Laws.{place_of, PlacesAscend};
ghost use Rattle.st_observer.specs.Observed.{appended, arrived, cut_to, known_of, nothing_yet, operations, report, state_of, IsMissed, is_wanted, text_cmp, wanted};
ghost use Rattle.st_observer.specs.Work.{AppendLeaves, ArrivalLeaves, CutLeaves, OperationsDecide, plain_held, GrewAtMost, ReadExactly, arrival_cost, decided_in, entry_cost, losing, opened_in};
ghost use Rattle.st_observer.specs.inside.Steps.{no_needs};

use crate::changes::settle_waiting;
use crate::held::{Held, copy_items};
use crate::kept::Kept;
use st_anchor::{Bound, RoleState};
use st_apply::DidState;
use st_base::{Boxed, Bytes, List, WantOfMemory, Work};
use st_content::{Content, Put};
use st_datafiles::Role;
use st_hash::{Hash, uri_of};
use st_ledger::{Entry, Ledger};
use st_params::Schedule;
use std::alloc::Global;
use std::marker::Model;

/// A ledger and the files received, under a schedule of limits, with what is known about each
/// entry, which files are wanted, and the operations and the state of each identifier. Contracts
/// see the schedule, the entries and the files; all else follows from them.
#[derive(Drop)]
pub struct Observer {
    schedule: Schedule,
    ledger: Ledger,
    content: Content,
    kept: Boxed<Kept>,
}

impl Model for Observer {
    ghost use Rattle.st_observer.specs.Work.{IsObserved};
    ghost use Rattle.st_observer.specs.Observed.{Observed};

    ghost Value = { Observed };

    ghost view = { λ o. record { schedule = o.schedule; ledger = o.ledger; files = o.content } };

    ghost invariant = { λ o. IsObserved (record { schedule = o.schedule; ledger = o.ledger; files = o.content }) o.kept };
}

impl Observer {
    /// An observer under this schedule of limits, without entries and files.
    pub fn new(alloc: Global, schedule: Schedule) -> Result<Observer, WantOfMemory>
        ensures { IfOk result (λ observer. observer ≡ nothing_yet schedule) }
    {
        let kept = Kept::new(alloc, schedule)?;
        Ok(Observer {
            schedule,
            ledger: Ledger::new(alloc),
            content: Content::new(alloc),
            kept: Boxed::new(alloc, kept)?,
        })
    }

    /// The schedule of limits.
    pub fn schedule(&self) -> &Schedule
        ensures { result.now ≡ self.now.schedule }
    {
        &self.schedule
    }

    /// The entries received.
    pub fn ledger(&self) -> &Ledger
        ensures { result.now ≡ self.now.ledger }
    {
        &self.ledger
    }

    /// The files received.
    pub fn content(&self) -> &Content
        ensures { result.now ≡ self.now.files }
    {
        &self.content
    }

    /// Appends an entry, and returns its number. Its files that were received are read at once;
    /// from then on it waits, once each, for the URIs of its missing files.
    ///
    /// At most as many files are read as roles of the entry are decided, and as many signed texts
    /// opened as its proof files that are read have. For each identifier for which it gives an
    /// operation at most 8 are applied.
    pub fn append(
        self,
        alloc: Global,
        entry: Entry,
        work: &mut Work,
    ) -> Result<(Observer, u32), WantOfMemory>
        requires { IsOk (admitted self.ledger entry.height) }
        ensures state { IfOk result (λ done. done.0 ≡ appended entry self) }
        ensures number { IfOk result (λ done. done.1 ≡ length self.ledger) }
        // Each role whose file is read counts as one file.
        ensures exact { OnOk result (ReadExactly
            (newly_decided self.files (known_of_text (params_at self.schedule entry.height) entry.text))
            (newly_opened self.files (known_of_text (params_at self.schedule entry.height) entry.text))
            work.old work.new) }
        ensures few { GrewAtMost
            (decided_roles (known_of self.schedule self.files entry))
            (opened_proofs (known_of self.schedule self.files entry))
            (entry_cost (length self.ledger) entry (appended entry self))
            work.old work.new }
    {
        let Entry { height, text } = entry;
        let Observer {
            schedule,
            mut ledger,
            content,
            kept,
        } = self;
        let anchored = Bound::new(alloc, text.as_slice(), &schedule.at(height))?;
        let number = ledger.append(alloc, height, text)?;
        let bound = anchored.settle(alloc, &content, work)?;
        let later = kept.take().push(alloc, number, height, bound)?;
        let kept = later.fold(alloc, work)?;
        let observer = Observer {
            schedule,
            ledger,
            content,
            kept,
        };
        Ok((observer, number))
    }

    /// Keeps only the first `n` entries, and returns how many were cut. The files stay, and none is
    /// read. For each identifier that loses an operation at most 7 are applied.
    pub fn cut(
        self,
        alloc: Global,
        n: u32,
        work: &mut Work,
    ) -> Result<(Observer, u32), WantOfMemory>
        requires { n ≤ length self.ledger }
        ensures state { IfOk result (λ done. done.0 ≡ cut_to n self) }
        ensures removed { IfOk result (λ done. done.1 ≡ length self.ledger - n) }
        ensures few { AppliesAtMost (7 * length (losing n self)) work.old work.new }
    {
        let Observer {
            schedule,
            mut ledger,
            content,
            kept,
        } = self;
        let later = kept.take().cut(alloc, n, ledger.len())?;
        let kept = later.fold(alloc, work)?;
        let removed = ledger.cut(n);
        let observer = Observer {
            schedule,
            ledger,
            content,
            kept,
        };
        Ok((observer, removed))
    }

    /// Adds a file, and returns its URI. Only the entries that wait for it are checked. The result
    /// has `Had` if and only if a file of this URI was there; then nothing changes.
    ///
    /// At most as many files are read as roles are newly decided, and as many signed texts opened
    /// as newly read proof files have. For each identifier for which entries that missed the file
    /// give operations, at most 7 are applied, and one for each of its operations at the place of
    /// the first such entry or later.
    pub fn arrive(
        self,
        alloc: Global,
        bytes: Bytes,
        work: &mut Work,
    ) -> Result<(Observer, Hash, Put), WantOfMemory>
        ensures state { IfOk result (λ done. done.0 ≡ arrived bytes self) }
        ensures uri { IfOk result (λ done. done.1 ≡ uri_of bytes) }
        ensures had { IfOk result (λ done. (done.2 ≡ Put.Had) ↔ IsSome (file_at (uri_of bytes) self.files)) }
        // Each newly decided role counts as one file.
        ensures exact { OnOk result (ReadExactly
            (decided_in (arrived bytes self) - decided_in self)
            (opened_in (arrived bytes self) - opened_in self)
            work.old work.new) }
        ensures few { GrewAtMost
            (decided_in (arrived bytes self) - decided_in self)
            (opened_in (arrived bytes self) - opened_in self)
            (arrival_cost bytes self)
            work.old work.new }
    {
        let uri = uri_of(bytes.as_slice());
        let (observer, put) = self.arrive_under(alloc, uri, bytes, work)?;
        Ok((observer, uri, put))
    }

    /// The same for a file whose URI is known, so it isn't hashed again.
    pub fn arrive_under(
        self,
        alloc: Global,
        uri: Hash,
        bytes: Bytes,
        work: &mut Work,
    ) -> Result<(Observer, Put), WantOfMemory>
        requires { uri ≡ uri_of bytes }
        ensures state { IfOk result (λ done. done.0 ≡ arrived bytes self) }
        ensures had { IfOk result (λ done. (done.1 ≡ Put.Had) ↔ IsSome (file_at (uri_of bytes) self.files)) }
        ensures exact { OnOk result (ReadExactly
            (decided_in (arrived bytes self) - decided_in self)
            (opened_in (arrived bytes self) - opened_in self)
            work.old work.new) }
        ensures few { GrewAtMost
            (decided_in (arrived bytes self) - decided_in self)
            (opened_in (arrived bytes self) - opened_in self)
            (arrival_cost bytes self)
            work.old work.new }
    {
        let Observer {
            schedule,
            ledger,
            mut content,
            kept,
        } = self;
        let put = content.put_under(alloc, uri, bytes)?;
        // No entry waits for a file that was there.
        let kept = settle_waiting(alloc, kept, &uri, &ledger, &content, work)?;
        let observer = Observer {
            schedule,
            ledger,
            content,
            kept,
        };
        Ok((observer, put))
    }

    /// The state of an identifier, by its suffix: its operations, resolved from nothing. It is up
    /// to date, so nothing is applied.
    pub fn state(&self, suffix: &Hash) -> &DidState
        ensures { result.now ≡ state_of suffix.now self.now }
    {
        self.kept.get().index.state(suffix)
    }

    /// The operations of an identifier, by its suffix, in the order of the ledger. They share
    /// proofs and deltas with the stored ones.
    pub fn items(&self, alloc: Global, suffix: &Hash) -> Result<List<Held>, WantOfMemory>
        ensures items { IfOk result (λ items. map plain_held items ≡ operations suffix.now self.now) }
        ensures ascend { PlacesAscend place_of (operations suffix.now self.now) }
    {
        let items = copy_items(alloc, self.kept.get().index.items(suffix))?;
        Ok(items)
    }

    /// The URIs of the files missing for some entry, each once, ascending by the bytes of their
    /// texts.
    pub fn wanted(&self, alloc: Global) -> Result<List<Hash>, WantOfMemory>
        ensures value { IfOk result (λ uris. uris ≡ wanted self.now) }
        ensures ordered { IfOk result (IsStrictlySortedBy text_cmp) }
        // A URI is among them if and only if its file is missing for some role of some entry.
        ensures missed { IfOk result (λ uris. (uri : HashValue)
            → IsTrue (list_any (same_hash uri) uris) ↔ IsMissed uri self.now) }
    {
        let uris = self.kept.get().waiting.uris(alloc)?;
        Ok(uris)
    }

    /// Whether the file of this URI is wanted. This is one lookup, without building the list.
    pub fn wants(&self, alloc: Global, uri: &Hash) -> Result<bool, WantOfMemory>
        ensures { IfOk result (λ found. found ≡ is_wanted uri.now self.now) }
    {
        let found = self.kept.get().waiting.has(alloc, uri)?;
        Ok(found)
    }

    /// The states of the five roles of an entry, in their order; `None` if and only if there is no
    /// entry with this number.
    pub fn report(&self, n: u32) -> Option<[RoleState; 5]>
        ensures { result ≡ report n self.now }
    {
        match self.kept.get().bounds.get(n as usize) {
            Some(bound) => Some(roles_of(bound)),
            None => None,
        }
    }
}

// The states of the five roles of an entry, in their order.
pub fn roles_of(bound: &Bound) -> [RoleState; 5]
    ensures { result ≡ role_states bound.now }
{
    [
        bound.state(Role::Core),
        bound.state(Role::CoreProof),
        bound.state(Role::Provisional),
        bound.state(Role::ProvisionalProof),
        bound.state(Role::Chunk),
    ]
}

// The states of the roles if there is no entry.
pub fn no_roles() -> [RoleState; 5]
    ensures { result ≡ no_needs }
{
    [
        RoleState::Unneeded,
        RoleState::Unneeded,
        RoleState::Unneeded,
        RoleState::Unneeded,
        RoleState::Unneeded,
    ]
}

/// An identifier depends only on its own operations. Appending or cutting an entry that gives no
/// operation for it, and a file that is missing for no entry, change no answer about it.
pub fn isolation_law()
    ensures operations_decide { OperationsDecide }
    ensures append_leaves { AppendLeaves }
    ensures cut_leaves { CutLeaves }
    ensures arrival_leaves { ArrivalLeaves }
{}
