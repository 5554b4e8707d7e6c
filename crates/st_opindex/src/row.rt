ghost use Rattle.std.specs.BTreeMap.{is_at};
ghost use Rattle.std.specs.List.{list_any};
ghost use Rattle.std.specs.Prelude.{◌<◌, ◌≤◌, ℕ, IfOk, OnOk, IsTrue, ◌≡◌, ◌+◌, ◌-◌, ◌⊎◌, true, false, length, slice_index_or, []};
ghost use Rattle.st_base.specs.Work.{AppliesAtMost};
ghost use Rattle.st_opindex.specs.Items.{Ascend, SplitsAt, before, with_item, reaches, IsRow, IsRowUpTo, LeavesOf, left_of, IsPlaced};

use crate::index::Folder;
use st_base::{WantOfMemory, Work};
use std::alloc::Global;
use std::collections::BTreeSet;

// Removes the entries at this place or later, and returns their keys.
pub fn take_late<K: Copy + Ord>(
    alloc: Global,
    placed: &mut BTreeSet<(u32, K)>,
    place: u32,
) -> Result<Vec<K>, WantOfMemory>
    ensures late { IfOk result (λ late. (at : ℕ) (key : K) → place ≤ at → IsPlaced K.cmp placed.old.keys at key
        → IsTrue (list_any (λ taken. is_at (K.cmp taken) key) late.items)) }
    ensures rest { OnOk result ((at : ℕ) (key : K) → at < place → IsPlaced K.cmp placed.old.keys at key
        → IsPlaced K.cmp placed.new.keys at key) }
{
    let mut late = Vec::new(alloc);
    'late: while let Some(last) = placed.last() {
        let (at, key) = *last;
        if at < place {
            return Ok(late);
        }
        late.push(key)?;
        placed.remove(&(at, key));
    }
    Ok(late)
}

// A state is stored after each run of this many items.
const STRIDE: usize = 8;

/// The row of one key: its items in order of place, how many of the first are folded, the state
/// after every eighth of these, and the state after all of these. It is changed in place: running
/// out of memory may leave it half changed, since its index is dropped then.
#[derive(Drop)]
pub struct Row<I, S> {
    pub items: Vec<(u32, I)>,
    pub done: usize,
    pub kept: Vec<S>,
    pub last: S,
}

// No items, in the start state. There is room for the one item that most keys have.
pub fn empty_row<F: Folder>(
    alloc: Global,
    folder: &F,
) -> Result<Row<F::Item, F::State>, WantOfMemory>
    ensures items { IfOk result (λ row. row.items.items ≡ []) }
    ensures row { IfOk result (IsRow (F.next folder.now) (F.first folder.now)) }
    ensures left { IfOk result (λ row. left_of row ≡ 0) }
{
    Ok(Row {
        items: Vec::with_capacity(alloc, 1)?,
        done: 0,
        kept: Vec::new(alloc),
        last: folder.start(alloc)?,
    })
}

// Inserts the item at its place, or replaces the one there. If items at the place or later were
// folded, the row returns to the last stored state before them. Nothing is applied.
pub fn put_row<F: Folder>(
    alloc: Global,
    folder: &F,
    row: &mut Row<F::Item, F::State>,
    place: u32,
    item: F::Item,
) -> Result<(), WantOfMemory>
    requires { IsRow (F.next folder.now) (F.first folder.now) row.old }
    ensures items { OnOk result (row.new.items.items ≡ with_item place item row.old.items.items) }
    ensures row { OnOk result (IsRow (F.next folder.now) (F.first folder.now) row.new) }
    ensures left { OnOk result (LeavesOf place row.old row.new) }
{
    let at = count_before(row.items.as_slice(), place);
    set_item(&mut row.items, at, place, item)?;
    go_back(alloc, folder, row, at)?;
    Ok(())
}

// Drops the items at this place or later, and returns whether there were any. The row returns to an
// earlier state likewise.
pub fn cut_row<F: Folder>(
    alloc: Global,
    folder: &F,
    row: &mut Row<F::Item, F::State>,
    place: u32,
) -> Result<bool, WantOfMemory>
    requires { IsRow (F.next folder.now) (F.first folder.now) row.old }
    ensures items { OnOk result (row.new.items.items ≡ before place row.old.items.items) }
    ensures row { OnOk result (IsRow (F.next folder.now) (F.first folder.now) row.new) }
    ensures left { OnOk result (LeavesOf place row.old row.new) }
    ensures none { IfOk result (λ any. any ≡ false → row.new ≡ row.old) }
    ensures some { IfOk result (λ any. any ≡ true → IsTrue (reaches place row.old.items.items)) }
{
    let at = count_before(row.items.as_slice(), place);
    if at == row.items.len() {
        return Ok(false);
    }
    row.items.truncate(at);
    go_back(alloc, folder, row, at)?;
    Ok(true)
}

fn count_before<I>(items: &[(u32, I)], place: u32) -> usize
    requires { Ascend items.now }
    ensures { SplitsAt place items.now result }
{
    items.partition_point(|held| held.0 < place)
}

// Puts the item at its place, which has this many items before it.
fn set_item<I: Drop>(
    items: &mut Vec<(u32, I)>,
    at: usize,
    place: u32,
    item: I,
) -> Result<(), WantOfMemory>
    requires { SplitsAt place items.old.items at }
    ensures { OnOk result (items.new.items ≡ with_item place item items.old.items) }
{
    if at < items.len() && items[at].0 == place {
        items[at] = (place, item);
        return Ok(());
    }
    items.insert(at, (place, item))?;
    Ok(())
}

// If more than the first `at` items were folded, returns to the last stored state before them. The
// items from there on must be folded again.
fn go_back<F: Folder>(
    alloc: Global,
    folder: &F,
    row: &mut Row<F::Item, F::State>,
    at: usize,
) -> Result<(), WantOfMemory>
    requires { IsRowUpTo (F.next folder.now) (F.first folder.now) at row.old }
    ensures items { OnOk result (row.new.items.items ≡ row.old.items.items) }
    ensures row { OnOk result (IsRow (F.next folder.now) (F.first folder.now) row.new) }
    ensures left { OnOk result ((row.new.done ≡ row.old.done) ⊎ (left_of row.new ≤ 7 + (length row.old.items.items - at))) }
{
    if row.done <= at {
        return Ok(());
    }
    let states = at / STRIDE;
    row.kept.truncate(states);
    row.last = last_kept(alloc, folder, row.kept.as_slice())?;
    row.done = states * STRIDE;
    Ok(())
}

// The last of these states, or the start if there is none.
fn last_kept<F: Folder>(
    alloc: Global,
    folder: &F,
    kept: &[F::State],
) -> Result<F::State, WantOfMemory>
    ensures none { length kept.now ≡ 0 → IfOk result (λ state. state ≡ F.first folder.now) }
    ensures last { 0 < length kept.now → IfOk result (λ state. state ≡ slice_index_or kept.now (length kept.now - 1) state) }
{
    match kept.last() {
        Some(state) => folder.copy_state(alloc, state),
        None => folder.start(alloc),
    }
}

// Folds the items not yet folded, and stores the state after every eighth.
pub fn fold_row<F: Folder>(
    alloc: Global,
    folder: &F,
    row: &mut Row<F::Item, F::State>,
    work: &mut Work,
) -> Result<(), WantOfMemory>
    requires { IsRow (F.next folder.now) (F.first folder.now) row.old }
    ensures items { OnOk result (row.new.items.items ≡ row.old.items.items) }
    ensures row { OnOk result (IsRow (F.next folder.now) (F.first folder.now) row.new) }
    ensures none { OnOk result (left_of row.new ≡ 0) }
    ensures few { AppliesAtMost (left_of row.old) work.old work.new }
{
    for at in row.done..row.items.len() {
        row.last = folder.step(alloc, &row.last, &row.items[at].1, work)?;
        if (at + 1) % STRIDE == 0 {
            row.kept.push(folder.copy_state(alloc, &row.last)?)?;
        }
    }
    row.done = row.items.len();
    Ok(())
}
