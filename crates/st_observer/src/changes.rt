ghost use Rattle.std.specs.List.{AllByRecursion};
ghost use Rattle.std.specs.List.Sorted.{IsStrictlySortedBy};
ghost use Rattle.std.specs.Ordering.{nat_cmp};
ghost use Rattle.std.specs.Prelude.{◌≡◌, ℕ, List, [], false, IfOk, ◌≤◌, ◌-◌, length, take, OnOk};
ghost use Rattle.st_hash.specs.Hash.{HashValue, hash_cmp};
ghost use Rattle.st_opindex.specs.Items.{Covers};
ghost use Rattle.st_observer.specs.Work.{IsObserved, WaitsAgree, roles_at, named_cost};
ghost use Rattle.st_observer.specs.Observed.{is_waiting};
ghost use Rattle.st_observer.specs.inside.Steps.{CoversWhere, GrewOver, IsGoing, ReadOver, is_among, over, Cuts};

use crate::kept::Kept;
use crate::observer::{no_roles, roles_of};
use crate::waiting::Waiting;
use st_anchor::{Bound, RoleState};
use st_base::{Boxed, WantOfMemory, Work};
use st_content::Content;
use st_hash::Hash;
use st_ledger::Ledger;
use std::alloc::Global;

// After a file of this URI is added: checks again only the entries that wait for it. Their
// operations are applied after all of them were checked.
pub fn settle_waiting(
    alloc: Global,
    kept: Boxed<Kept>,
    uri: &Hash,
    ledger: &Ledger,
    content: &Content,
    work: &mut Work,
) -> Result<Boxed<Kept>, WantOfMemory>
    requires going { IsGoing (over kept.index.folder.schedule ledger.now content.now)
        (λ n. is_waiting uri.now n kept.waiting) kept }
    requires none { kept.index.changes ≡ [] }
    ensures state { IfOk result (IsObserved (over kept.index.folder.schedule ledger.now content.now)) }
    ensures exact { IfOk result (λ later. ReadOver kept.bounds.items later.bounds.items work.old work.new) }
    ensures few { (names : List (HashValue × ℕ))
        → CoversWhere (λ n. is_waiting uri.now n kept.waiting) (over kept.index.folder.schedule ledger.now content.now) names
        → GrewOver content.now kept.bounds.items (named_cost (over kept.index.folder.schedule ledger.now content.now) names) work.old work.new }
{
    let entries = kept.get().waiting.entries(alloc, uri)?;
    // Many files arrive before an entry names them.
    if entries.len() == 0 {
        return Ok(kept);
    }
    let later = settle_those(
        alloc,
        kept.take(),
        entries.as_slice(),
        ledger,
        content,
        work,
    )?;
    Ok(later)
}

// Checks the entries with these numbers again, and then applies their operations.
fn settle_those(
    alloc: Global,
    kept: Kept,
    entries: &[u32],
    ledger: &Ledger,
    content: &Content,
    work: &mut Work,
) -> Result<Boxed<Kept>, WantOfMemory>
    requires going { IsGoing (over kept.index.folder.schedule ledger.now content.now) (is_among entries.now) kept }
    requires none { kept.index.changes ≡ [] }
    requires once { IsStrictlySortedBy nat_cmp entries.now }
    ensures state { IfOk result (IsObserved (over kept.index.folder.schedule ledger.now content.now)) }
    ensures exact { IfOk result (λ later. ReadOver kept.bounds.items later.bounds.items work.old work.new) }
    ensures few { (names : List (HashValue × ℕ))
        → CoversWhere (is_among entries.now) (over kept.index.folder.schedule ledger.now content.now) names
        → GrewOver content.now kept.bounds.items (named_cost (over kept.index.folder.schedule ledger.now content.now) names) work.old work.new }
{
    let later = settle_entries(alloc, kept, entries, ledger, content, work)?;
    let kept = later.fold(alloc, work)?;
    Ok(kept)
}

// Checks the entries with these numbers again.
fn settle_entries(
    alloc: Global,
    start: Kept,
    entries: &[u32],
    ledger: &Ledger,
    content: &Content,
    work: &mut Work,
) -> Result<Kept, WantOfMemory>
    requires going { IsGoing (over start.index.folder.schedule ledger.now content.now) (is_among entries.now) start }
    requires none { start.index.changes ≡ [] }
    requires once { IsStrictlySortedBy nat_cmp entries.now }
    ensures state { IfOk result (IsGoing (over start.index.folder.schedule ledger.now content.now) (λ n. false)) }
    ensures exact { IfOk result (λ later. ReadOver start.bounds.items later.bounds.items work.old work.new) }
    ensures few { GrewOver content.now start.bounds.items 0 work.old work.new }
    // Names that cover the operations of these entries cover all changes.
    ensures changes { IfOk result (λ later. (names : List (HashValue × ℕ))
        → CoversWhere (is_among entries.now) (over start.index.folder.schedule ledger.now content.now) names
        → AllByRecursion (Covers hash_cmp names) later.index.changes) }
{
    let mut going = start;
    'entries: for n in entries {
        // A waiting entry is in the ledger.
        let Some(entry) = ledger.entry(*n) else {
            continue;
        };
        going = going.settle(alloc, *n, entry.height, content, work)?;
    }
    Ok(going)
}

impl Kept {
    // Only the first `n` of `len` entries.
    pub fn cut(self, alloc: Global, n: u32, len: u32) -> Result<Kept, WantOfMemory>
        requires within { n ≤ len }
        requires number { len ≡ length self.bounds.items }
        requires waits { WaitsAgree self.bounds.items self.waiting }
        ensures { IfOk result (Cuts n self) }
    {
        let Kept {
            mut bounds,
            mut waiting,
            index,
        } = self;
        forget_from(alloc, n, len, &mut bounds, &mut waiting)?;
        let index = index.cut(alloc, n)?;
        Ok(Kept {
            bounds,
            waiting,
            index,
        })
    }
}

// Forgets the entries from this number on, the last one first. They no longer wait for any file.
fn forget_from(
    alloc: Global,
    n: u32,
    len: u32,
    bounds: &mut Vec<Bound>,
    waiting: &mut Waiting,
) -> Result<(), WantOfMemory>
    requires within { n ≤ len }
    requires number { len ≡ length bounds.old.items }
    requires waits { WaitsAgree bounds.old.items waiting.old }
    ensures bounds { OnOk result (bounds.new.items ≡ take n bounds.old.items) }
    ensures waits { OnOk result (WaitsAgree bounds.new.items waiting.new) }
{
    let mut left = len;
    'forgetting: while left > n {
        left -= 1;
        let roles = take_last(bounds);
        waiting.turn(alloc, left, &roles, &no_roles())?;
    }
    Ok(())
}

// Removes the last entry, and returns the states of its roles.
#[tactic(auto, using(crate::proofs::OperationsLemmas::needs_none))]
fn take_last(bounds: &mut Vec<Bound>) -> [RoleState; 5]
    ensures roles { result ≡ roles_at (length bounds.old.items - 1) bounds.old.items }
    ensures rest { bounds.new.items ≡ take (length bounds.old.items - 1) bounds.old.items }
{
    match bounds.pop() {
        Some(bound) => roles_of(&bound),
        None => no_roles(),
    }
}
