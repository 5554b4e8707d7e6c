ghost use Rattle.std.specs.Prelude.{◌≡◌, ℕ, ◌<◌, List, length, slice_set, IfOk, OnOk};
ghost use Rattle.std.specs.List.{AllByRecursion};
ghost use Rattle.st_anchor.specs.Gives.{newly_decided, newly_opened, given};
ghost use Rattle.st_base.specs.Work.{AppliesAtMost};
ghost use Rattle.st_hash.specs.Hash.{HashValue, hash_cmp};
ghost use Rattle.st_observer.specs.Work.{IsObserved, WaitsAgree, bound_at, GrewAtMost, ReadExactly};
ghost use Rattle.st_observer.specs.Observed.{nothing_yet};
ghost use Rattle.st_observer.specs.inside.Steps.{Folds, Pushes, PutsGiven, Settles, ReadsNothing};
ghost use Rattle.st_opindex.specs.Items.{Covers, cover_cost};

use crate::held::{Steps, put_all};
use crate::observer::{no_roles, roles_of};
use crate::waiting::Waiting;
use st_anchor::Bound;
use st_base::{Boxed, WantOfMemory, Work};
use st_content::Content;
use st_hash::Hash;
use st_opindex::Index;
use st_params::Schedule;
use std::alloc::Global;
use std::mem;

// The data kept for the entries of a ledger: what is known about each, by its number; which of them
// wait for which file; and the operations that they give, with the state of each identifier.
// Changes are pending until they are folded.
#[derive(Drop)]
pub struct Kept {
    pub bounds: Vec<Bound>,
    pub waiting: Waiting,
    pub index: Index<Hash, Steps>,
}

impl Kept {
    // For no entries.
    pub fn new(alloc: Global, schedule: Schedule) -> Result<Kept, WantOfMemory>
        ensures { IfOk result (IsObserved (nothing_yet schedule)) }
    {
        let bounds = Vec::new(alloc);
        let waiting = Waiting::new(alloc);
        let index = Index::new(alloc, Steps { schedule })?;
        Ok(Kept {
            bounds,
            waiting,
            index,
        })
    }

    // Adds an entry, with what is known about it.
    pub fn push(
        self,
        alloc: Global,
        n: u32,
        height: u32,
        bound: Bound,
    ) -> Result<Kept, WantOfMemory>
        requires number { n ≡ length self.bounds.items }
        requires waits { WaitsAgree self.bounds.items self.waiting }
        ensures step { IfOk result (Pushes n height bound self) }
    {
        let Kept {
            mut bounds,
            mut waiting,
            index,
        } = self;
        waiting.turn(alloc, n, &no_roles(), &roles_of(&bound))?;
        let index = put_given(alloc, n, height, &bound, index)?;
        bounds.push(bound)?;
        Ok(Kept {
            bounds,
            waiting,
            index,
        })
    }

    // Checks one entry again, over the files received.
    pub fn settle(
        self,
        alloc: Global,
        n: u32,
        height: u32,
        content: &Content,
        work: &mut Work,
    ) -> Result<Kept, WantOfMemory>
        requires inside { n < length self.bounds.items }
        requires waits { WaitsAgree self.bounds.items self.waiting }
        ensures step { IfOk result (Settles content.now n height self) }
        ensures exact { OnOk result (ReadExactly
            (newly_decided content.now (bound_at n self.bounds.items))
            (newly_opened content.now (bound_at n self.bounds.items))
            work.old work.new) }
        ensures few { GrewAtMost
            (newly_decided content.now (bound_at n self.bounds.items))
            (newly_opened content.now (bound_at n self.bounds.items))
            0 work.old work.new }
    {
        let Kept {
            mut bounds,
            mut waiting,
            index,
        } = self;
        // Meanwhile an entry without a text is at its place.
        let meanwhile = Bound::new(alloc, &[], &Schedule::new().at(height))?;
        let bound = replaced(&mut bounds, n, meanwhile);
        let before = roles_of(&bound);
        let bound = bound.settle(alloc, content, work)?;
        waiting.turn(alloc, n, &before, &roles_of(&bound))?;
        let index = put_given(alloc, n, height, &bound, index)?;
        let _meanwhile = replaced(&mut bounds, n, bound);
        Ok(Kept {
            bounds,
            waiting,
            index,
        })
    }

    // Folds the pending changes, and boxes the result, so that an observer is small: each line of a
    // node moves it several times.
    pub fn fold(self, alloc: Global, work: &mut Work) -> Result<Boxed<Kept>, WantOfMemory>
        ensures step { IfOk result (Folds self) }
        ensures few { (names : List (HashValue × ℕ)) → AllByRecursion (Covers hash_cmp names) self.index.changes
            → AppliesAtMost (cover_cost hash_cmp self.index.items names) work.old work.new }
        ensures reads { ReadsNothing work.old work.new }
    {
        let Kept {
            bounds,
            waiting,
            index,
        } = self;
        let index = index.fold(alloc, work)?;
        let kept = Kept {
            bounds,
            waiting,
            index,
        };
        Ok(Boxed::new(alloc, kept)?)
    }
}

// Puts the operations of an entry of this number and height at its place.
fn put_given(
    alloc: Global,
    n: u32,
    height: u32,
    bound: &Bound,
    index: Index<Hash, Steps>,
) -> Result<Index<Hash, Steps>, WantOfMemory>
    ensures { IfOk result (PutsGiven n height (given bound.now) index) }
{
    let given = bound.give(alloc)?;
    let index = put_all(alloc, index, n, height, given.into_vec())?;
    Ok(index)
}

// Replaces what is known about an entry, and returns what was known before.
fn replaced(bounds: &mut Vec<Bound>, n: u32, bound: Bound) -> Bound
    requires { n < length bounds.old.items }
    ensures value { result ≡ bound_at n bounds.old.items }
    ensures rest { bounds.new.items ≡ slice_set bounds.old.items n bound }
{
    mem::replace(&mut bounds[n as usize], bound)
}
