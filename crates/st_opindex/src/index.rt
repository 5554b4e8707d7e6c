ghost use Rattle.std.specs.List.{AllByRecursion};
ghost use Rattle.std.specs.Prelude.{◌≡◌, IfOk, OnOk, OnErr, ℕ, ◌++◌, List, [], ◌∷◌};
ghost use Rattle.st_base.specs.Work.{one_apply, AppliesAtMost};
ghost use Rattle.st_opindex.specs.Items.{ChangesAt, Covers, CoversLosing, cover_cost, items_at, folded, with_item, before, Ascend};

use crate::row::take_late;
use crate::rows::{Rows, cut_keys, fold_keys, put_item};
use st_base::{WantOfMemory, Work};
use std::alloc::Global;
use std::collections::{BTreeMap, BTreeSet};
use std::marker::Model;

/// A fold of items into a state, one step per item.
pub trait Folder: Drop {
    /// What is folded.
    type Item: Drop;

    /// What items are folded into.
    type State: Drop;

    // The state before any item.
    ghost first: { Self → Self.State };

    // The state after one more item.
    ghost next: { Self → Self.State → Self.Item → Self.State };

    /// The state before any item, the same at each call.
    fn start(&self, alloc: Global) -> Result<Self::State, WantOfMemory>
        ensures { IfOk result (λ state. state ≡ first self.now) };

    /// The state after one more item, a function of the state and the item. One operation is
    /// counted; if it runs out of memory, at most one.
    fn step(
        &self,
        alloc: Global,
        state: &Self::State,
        item: &Self::Item,
        work: &mut Work,
    ) -> Result<Self::State, WantOfMemory>
        ensures value { IfOk result (λ after. after ≡ next self.now state.now item.now) }
        ensures ok { OnOk result (work.new ≡ one_apply work.old) }
        ensures err { OnErr result (AppliesAtMost 1 work.old work.new) };

    /// An equal state.
    fn copy_state(&self, alloc: Global, state: &Self::State) -> Result<Self::State, WantOfMemory>
        ensures { IfOk result (λ copied. copied ≡ state.now) };
}

/// Items by key and place, at most one at each place of a key, and for each key the state that its
/// items fold to. Changes are pending until `fold` folds the items of each
/// changed key once. Contracts see the folder, the items and the pending changes.
#[derive(Drop)]
pub struct Index<K: Copy + Ord, F: Folder> {
    folder: F,

    // The state of each key without items.
    start: F::State,

    rows: Rows<K, F>,

    // The place of each item with its key, so that `cut` finds the keys that lose one.
    placed: BTreeSet<(u32, K)>,

    // The key and the place of each pending change.
    changes: Vec<(K, u32)>,
}

impl<K: Copy + Ord, F: Folder> Model for Index<K, F> {
    ghost use Rattle.st_opindex.specs.Items.{Indexed, IsIndex, seen_items};

    ghost Value = { Indexed K F F.Item };

    ghost view = { λ a. record { folder = a.folder; items = seen_items a.rows.entries; changes = a.changes.items } };

    ghost invariant = { λ a. IsIndex K.cmp (F.next a.folder) (F.first a.folder) a.start a.rows.entries a.placed.keys a.changes.items };
}

impl<K: Copy + Ord, F: Folder> Index<K, F> {
    /// No items.
    pub fn new(alloc: Global, folder: F) -> Result<Index<K, F>, WantOfMemory>
        ensures { IfOk result (λ index. index ≡ record { folder = folder; items = []; changes = [] }) }
    {
        let start = folder.start(alloc)?;
        Ok(Index {
            folder,
            start,
            rows: BTreeMap::new(alloc),
            placed: BTreeSet::new(alloc),
            changes: Vec::new(alloc),
        })
    }

    /// Inserts the item at this place of the key, or replaces the one there. Nothing is applied:
    /// the change is pending.
    pub fn put(
        self,
        alloc: Global,
        key: K,
        place: u32,
        item: F::Item,
    ) -> Result<Index<K, F>, WantOfMemory>
        ensures folder { IfOk result (λ index. index.folder ≡ self.folder) }
        ensures items { IfOk result (λ index. ChangesAt K.cmp key (with_item place item) self.items index.items) }
        ensures changes { IfOk result (λ index. index.changes ≡ self.changes ++ (key, place) ∷ []) }
    {
        let Index {
            folder,
            start,
            mut rows,
            mut placed,
            mut changes,
        } = self;
        put_item(alloc, &folder, &mut rows, key, place, item)?;
        placed.insert((place, key))?;
        changes.push((key, place))?;
        Ok(Index {
            folder,
            start,
            rows,
            placed,
            changes,
        })
    }

    /// Drops all items at this place or later. Nothing is applied: for each key that loses an item
    /// and keeps one, a change is pending.
    pub fn cut(self, alloc: Global, place: u32) -> Result<Index<K, F>, WantOfMemory>
        ensures folder { IfOk result (λ index. index.folder ≡ self.folder) }
        ensures items { IfOk result (λ index. (key : K) → items_at K.cmp key index.items ≡ before place (items_at K.cmp key self.items)) }
        ensures changes { IfOk result (λ index. (names : List (K × ℕ)) → AllByRecursion (Covers K.cmp names) self.changes
            → CoversLosing K.cmp names place self.items → AllByRecursion (Covers K.cmp names) index.changes) }
    {
        let Index {
            folder,
            start,
            mut rows,
            mut placed,
            mut changes,
        } = self;
        let late = take_late(alloc, &mut placed, place)?;
        cut_keys(
            alloc,
            &folder,
            &mut rows,
            late.as_slice(),
            place,
            &mut changes,
        )?;
        Ok(Index {
            folder,
            start,
            rows,
            placed,
            changes,
        })
    }

    /// Folds the items of the changed keys, each key once. The bound takes any list of names, each
    /// a key and a place, such that each pending change has a name with its key and its place or an
    /// earlier one. Each name costs at most 7 applied operations, and one for each of its key's
    /// items at its place or later.
    pub fn fold(self, alloc: Global, work: &mut Work) -> Result<Index<K, F>, WantOfMemory>
        ensures folder { IfOk result (λ index. index.folder ≡ self.folder) }
        ensures items { IfOk result (λ index. (key : K) → items_at K.cmp key index.items ≡ items_at K.cmp key self.items) }
        ensures changes { IfOk result (λ index. index.changes ≡ []) }
        ensures few { (names : List (K × ℕ)) → AllByRecursion (Covers K.cmp names) self.changes
            → AppliesAtMost (cover_cost K.cmp self.items names) work.old work.new }
    {
        let Index {
            folder,
            start,
            mut rows,
            placed,
            changes,
        } = self;
        fold_keys(alloc, &folder, &mut rows, changes.as_slice(), work)?;
        Ok(Index {
            folder,
            start,
            rows,
            placed,
            changes: Vec::new(alloc),
        })
    }

    /// The state that the key's items fold to, in order of place. No change may be pending.
    pub fn state(&self, key: &K) -> &F::State
        requires { self.now.changes ≡ [] }
        ensures { result.now ≡ folded (F.next self.now.folder) (F.first self.now.folder) (items_at K.cmp key.now self.now.items) }
    {
        match self.rows.get(key) {
            Some(row) => &row.get().last,
            None => &self.start,
        }
    }

    /// The key's items in order of place, no two at one place.
    pub fn items(&self, key: &K) -> &[(u32, F::Item)]
        ensures value { result.now ≡ items_at K.cmp key.now self.now.items }
        ensures ascend { Ascend result.now }
    {
        match self.rows.get(key) {
            Some(row) => row.get().items.as_slice(),
            None => &[],
        }
    }
}
