ghost use Rattle.std.specs.Prelude.{◌≡◌, ℕ, List, [], true, false, IfOk, IsTrue, OnOk};
ghost use Rattle.std.specs.List.{AllByRecursion};
ghost use Rattle.st_base.specs.Work.{AppliesAtMost};
ghost use Rattle.st_opindex.specs.Items.{with_item, before, reaches, AreCut, ChangesAt, Covers, CoversLosing, cover_cost, items_at, IsRow, AreOwed, AreRows, FoldsKey, LeavesMore, LeavesNoMore, left_at, seen_items};

use crate::index::Folder;
use crate::row::{Row, cut_row, empty_row, fold_row, put_row};
use st_base::{Boxed, WantOfMemory, Work};
use std::alloc::Global;
use std::collections::BTreeMap;
use std::collections::btree_map::Entry;

/// The row of each key that has one, boxed, so that the tree moves only keys and pointers.
pub type Rows<K, F> = BTreeMap<K, Boxed<Row<<F as Folder>::Item, <F as Folder>::State>>>;

// Inserts the item at this place of the key, or replaces the one there. Nothing is applied. The map
// is searched once, and an existing row is changed in place.
pub fn put_item<K: Copy + Ord, F: Folder>(
    alloc: Global,
    folder: &F,
    rows: &mut Rows<K, F>,
    key: K,
    place: u32,
    item: F::Item,
) -> Result<(), WantOfMemory>
    requires { AreRows K.cmp (F.next folder.now) (F.first folder.now) rows.old.entries }
    ensures rows { OnOk result (AreRows K.cmp (F.next folder.now) (F.first folder.now) rows.new.entries) }
    ensures items { OnOk result (ChangesAt K.cmp key (with_item place item) (seen_items rows.old.entries) (seen_items rows.new.entries)) }
    ensures left { OnOk result (LeavesMore K.cmp key place rows.old.entries rows.new.entries) }
{
    match rows.entry(key)? {
        Entry::Occupied(mut entry) => {
            let row = entry.get_mut();
            put_row(alloc, folder, row.get_mut(), place, item)?;
            Ok(())
        }
        Entry::Vacant(entry) => {
            let row = first_row(alloc, folder, place, item)?;
            let _row = entry.insert(row);
            Ok(())
        }
    }
}

// A new boxed row with only this item.
fn first_row<F: Folder>(
    alloc: Global,
    folder: &F,
    place: u32,
    item: F::Item,
) -> Result<Boxed<Row<F::Item, F::State>>, WantOfMemory>
    ensures row { IfOk result (IsRow (F.next folder.now) (F.first folder.now)) }
    ensures items { IfOk result (λ row. row.items.items ≡ with_item place item []) }
{
    let mut row = Boxed::new(alloc, empty_row(alloc, folder)?)?;
    put_row(alloc, folder, row.get_mut(), place, item)?;
    Ok(row)
}

// Folds the remaining items of the keys of these changes.
pub fn fold_keys<K: Copy + Ord, F: Folder>(
    alloc: Global,
    folder: &F,
    rows: &mut Rows<K, F>,
    changes: &[(K, u32)],
    work: &mut Work,
) -> Result<(), WantOfMemory>
    requires rows { AreRows K.cmp (F.next folder.now) (F.first folder.now) rows.old.entries }
    requires owed { AreOwed K.cmp changes.now rows.old.entries }
    ensures rows { OnOk result (AreRows K.cmp (F.next folder.now) (F.first folder.now) rows.new.entries) }
    ensures owed { OnOk result (AreOwed K.cmp [] rows.new.entries) }
    ensures items { OnOk result ((key : K) → items_at K.cmp key (seen_items rows.new.entries) ≡ items_at K.cmp key (seen_items rows.old.entries)) }
    ensures few { (names : List (K × ℕ)) → AllByRecursion (Covers K.cmp names) changes.now
        → AppliesAtMost (cover_cost K.cmp (seen_items rows.old.entries) names) work.old work.new }
{
    'changes: for change in changes {
        fold_key(alloc, folder, rows, change.0, work)?;
    }
    Ok(())
}

// Folds the remaining items of the key in its row.
fn fold_key<K: Copy + Ord, F: Folder>(
    alloc: Global,
    folder: &F,
    rows: &mut Rows<K, F>,
    key: K,
    work: &mut Work,
) -> Result<(), WantOfMemory>
    requires { AreRows K.cmp (F.next folder.now) (F.first folder.now) rows.old.entries }
    ensures rows { OnOk result (AreRows K.cmp (F.next folder.now) (F.first folder.now) rows.new.entries) }
    ensures items { OnOk result (ChangesAt K.cmp key (λ items. items) (seen_items rows.old.entries) (seen_items rows.new.entries)) }
    ensures folds { OnOk result (FoldsKey K.cmp key rows.old.entries rows.new.entries) }
    ensures few { AppliesAtMost (left_at K.cmp key rows.old.entries) work.old work.new }
{
    let Some(row) = rows.get_mut(&key) else {
        return Ok(());
    };
    fold_row(alloc, folder, row.get_mut(), work)?;
    Ok(())
}

// Drops the items of these keys at this place or later. The keys with items to fold again are added
// to the changes.
pub fn cut_keys<K: Copy + Ord, F: Folder>(
    alloc: Global,
    folder: &F,
    rows: &mut Rows<K, F>,
    keys: &[K],
    place: u32,
    changes: &mut Vec<(K, u32)>,
) -> Result<(), WantOfMemory>
    requires rows { AreRows K.cmp (F.next folder.now) (F.first folder.now) rows.old.entries }
    requires owed { AreOwed K.cmp changes.old.items rows.old.entries }
    ensures rows { OnOk result (AreRows K.cmp (F.next folder.now) (F.first folder.now) rows.new.entries) }
    ensures items { OnOk result (AreCut K.cmp place keys.now (seen_items rows.old.entries) (seen_items rows.new.entries)) }
    ensures owed { OnOk result (AreOwed K.cmp changes.new.items rows.new.entries) }
    ensures changes { OnOk result ((names : List (K × ℕ)) → AllByRecursion (Covers K.cmp names) changes.old.items
        → CoversLosing K.cmp names place (seen_items rows.old.entries) → AllByRecursion (Covers K.cmp names) changes.new.items) }
{
    'keys: for key in keys {
        if cut_key(alloc, folder, rows, *key, place)? {
            changes.push((*key, place))?;
        }
    }
    Ok(())
}

// Drops the key's items at this place or later, and its row if it has none left. Returns whether
// items of it must be folded again.
fn cut_key<K: Copy + Ord, F: Folder>(
    alloc: Global,
    folder: &F,
    rows: &mut Rows<K, F>,
    key: K,
    place: u32,
) -> Result<bool, WantOfMemory>
    requires { AreRows K.cmp (F.next folder.now) (F.first folder.now) rows.old.entries }
    ensures rows { OnOk result (AreRows K.cmp (F.next folder.now) (F.first folder.now) rows.new.entries) }
    ensures items { OnOk result (ChangesAt K.cmp key (before place) (seen_items rows.old.entries) (seen_items rows.new.entries)) }
    ensures left { OnOk result (LeavesMore K.cmp key place rows.old.entries rows.new.entries) }
    ensures none { IfOk result (λ again. again ≡ false → LeavesNoMore K.cmp rows.old.entries rows.new.entries) }
    ensures some { IfOk result (λ again. again ≡ true → IsTrue (reaches place (items_at K.cmp key (seen_items rows.old.entries)))) }
{
    let Some(row) = rows.get_mut(&key) else {
        return Ok(false);
    };
    let row = row.get_mut();
    let any = cut_row(alloc, folder, row, place)?;
    if row.items.is_empty() {
        rows.remove(&key);
        return Ok(false);
    }
    Ok(any)
}
