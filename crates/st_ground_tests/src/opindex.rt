ghost use Rattle.std.specs.Prelude.{◌≡◌, ◌+◌, ◌*◌, ◌%◌, ◌^◌, [], ◌∷◌, ◌++◌};

use st_base::{Copied, List, WantOfMemory, Work};
use st_opindex::{Folder, Index};
use std::alloc::Global;
use std::test::Fail;

// Adds numbers up.
#[derive(Drop)]
struct Adds;

impl Folder for Adds {
    type Item = u64;

    type State = u64;

    ghost first = { λ _. 0 };

    ghost next = { λ _ sum item. (sum + item) % 2 ^ 64 };

    fn start(&self, _alloc: Global) -> Result<u64, WantOfMemory> {
        Ok(0)
    }

    fn step(
        &self,
        _alloc: Global,
        state: &u64,
        item: &u64,
        work: &mut Work,
    ) -> Result<u64, WantOfMemory> {
        work.tick_applies();
        Ok(state.wrapping_add(*item))
    }

    fn copy_state(&self, _alloc: Global, state: &u64) -> Result<u64, WantOfMemory> {
        Ok(*state)
    }
}

// Collects numbers in a list.
#[derive(Drop)]
struct Gathers;

impl Folder for Gathers {
    type Item = u64;

    type State = List<u64>;

    ghost first = { λ _. [] };

    ghost next = { λ _ gathered item. gathered ++ item ∷ [] };

    fn start(&self, alloc: Global) -> Result<List<u64>, WantOfMemory> {
        Ok(List::new(alloc))
    }

    fn step(
        &self,
        alloc: Global,
        state: &List<u64>,
        item: &u64,
        work: &mut Work,
    ) -> Result<List<u64>, WantOfMemory> {
        work.tick_applies();
        let mut gathered = state.copy(alloc)?;
        gathered.push(alloc, *item)?;
        Ok(gathered)
    }

    fn copy_state(&self, alloc: Global, state: &List<u64>) -> Result<List<u64>, WantOfMemory> {
        state.copy(alloc)
    }
}

type Sums = Index<u64, Adds>;

type Lists = Index<u64, Gathers>;

// A key with 1 at each of ten places.
fn ten_ones(alloc: Global, work: &mut Work) -> Result<Sums, WantOfMemory> {
    let mut index = Index::new(alloc, Adds)?;
    for place in 0..10u32 {
        index = index.put(alloc, 5, place, 1)?.fold(alloc, work)?;
    }
    Ok(index)
}

fn folds_on_from_a_put(alloc: Global, index: Sums, work: &mut Work) -> Result<bool, WantOfMemory> {
    let before = work.applies();
    let index = index.put(alloc, 5, 3, 4)?.fold(alloc, work)?;
    Ok(
        *index.state(&5) == 13
            && work.applies() <= before.saturating_add(14)
            && folds_on_from_a_cut(alloc, index, work)?,
    )
}

fn folds_on_from_a_cut(alloc: Global, index: Sums, work: &mut Work) -> Result<bool, WantOfMemory> {
    let before = work.applies();
    let index = index.cut(alloc, 8)?.fold(alloc, work)?;
    Ok(
        *index.state(&5) == 11
            && work.applies() <= before.saturating_add(7)
            && *index.state(&6) == 0,
    )
}

#[test]
fn a_change_folds_on_from_a_kept_state(rt: HostRuntime) -> Result<(), Fail> {
    let mut work = Work::new(&rt);
    let index = ten_ones(rt.alloc(), &mut work)?;
    assert!(rt; folds_on_from_a_put(rt.alloc(), index, &mut work)?);
    Ok(())
}

// The index with an item at each place of a key from the first to the fortieth.
fn put_from(alloc: Global, index: Sums, first: u32, item: u64) -> Result<Sums, WantOfMemory> {
    let mut index = index;
    for place in first..40u32 {
        index = index.put(alloc, 5, place, item)?;
    }
    Ok(index)
}

fn are_folded_once(alloc: Global, work: &mut Work) -> Result<bool, WantOfMemory> {
    let index = Index::new(alloc, Adds)?;
    let index = put_from(alloc, index, 0, 1)?.fold(alloc, work)?;
    Ok(*index.state(&5) == 40 && work.applies() <= 47 && are_changed_once(alloc, index, work)?)
}

fn are_changed_once(alloc: Global, index: Sums, work: &mut Work) -> Result<bool, WantOfMemory> {
    let before = work.applies();
    let index = put_from(alloc, index, 10, 2)?;
    let index = index.put(alloc, 6, 3, 7)?.fold(alloc, work)?;
    Ok(
        *index.state(&5) == 70
            && *index.state(&6) == 7
            && work.applies() <= before.saturating_add(37 + 8),
    )
}

#[test]
fn many_changes_of_a_key_are_folded_once(rt: HostRuntime) -> Result<(), Fail> {
    let mut work = Work::new(&rt);
    assert!(rt; are_folded_once(rt.alloc(), &mut work)?);
    Ok(())
}

fn gathered(alloc: Global, work: &mut Work) -> Result<Lists, WantOfMemory> {
    let mut index = Index::new(alloc, Gathers)?;
    for item in 0..20u64 {
        let place = 40 - 2 * item as u32;
        index = index.put(alloc, item % 2, place, item)?.fold(alloc, work)?;
    }
    Ok(index.put(alloc, 1, 6, 100)?)
}

fn are_cut_at_14(index: &Lists) -> bool
    requires { index.now.changes ≡ [] }
{
    index.state(&0).as_slice() == [18, 16, 14].as_slice()
        && index.state(&1).as_slice() == [19, 100, 15].as_slice()
        && index.items(&1) == [(2, 19), (6, 100), (10, 15)].as_slice()
}

fn are_cut_at_0(index: &Lists) -> bool
    requires { index.now.changes ≡ [] }
{
    index.state(&1).len() == 0 && index.items(&1).len() == 0
}

fn own_memory(alloc: Global, work: &mut Work) -> Result<bool, WantOfMemory> {
    let index = gathered(alloc, work)?.cut(alloc, 14)?.fold(alloc, work)?;
    let right = are_cut_at_14(&index);
    let index = index.cut(alloc, 0)?.fold(alloc, work)?;
    Ok(right && are_cut_at_0(&index))
}

#[test]
fn a_state_may_own_memory(rt: HostRuntime) -> Result<(), Fail> {
    let mut work = Work::new(&rt);
    assert!(rt; own_memory(rt.alloc(), &mut work)?);
    Ok(())
}

const PLACES: usize = 30;

// Whether a key has the items of its places, in their order. A place with 0 has none.
fn is_plain(alloc: Global, index: &Lists, items: &[u64], key: usize) -> Result<bool, WantOfMemory>
    requires { index.now.changes ≡ [] }
{
    let mut fold = Vec::new(alloc);
    for item in items.iter().skip(key.saturating_mul(PLACES)).take(PLACES) {
        if *item != 0 {
            fold.push(*item)?;
        }
    }
    Ok(index.state(&(key as u64)).as_slice() == fold.as_slice())
}

fn cut_from(items: &mut [u64], place: usize) {
    for (at, item) in items.iter_mut().enumerate() {
        if at % PLACES >= place {
            *item = 0;
        }
    }
}

// The index after a put or a cut at this place, and the items likewise.
fn changed(
    alloc: Global,
    index: Lists,
    items: &mut [u64],
    at: usize,
    item: u64,
) -> Result<Lists, WantOfMemory> {
    let place = at % PLACES;
    if item % 97 == 0 {
        cut_from(items, place);
        return Ok(index.cut(alloc, place as u32)?);
    }
    if let Some(held) = items.get_mut(at) {
        *held = item;
    }
    Ok(index.put(alloc, (at / PLACES) as u64, place as u32, item)?)
}

// The number of the first change after which the items of a key differ from its places.
fn first_other(alloc: Global, work: &mut Work) -> Result<Option<u64>, WantOfMemory> {
    let mut index = Index::new(alloc, Gathers)?;
    let mut items = vec![in alloc; 0u64; 3 * PLACES]?;
    let mut seed = 1u64;
    for item in 1..400u64 {
        seed = seed
            .wrapping_mul(6_364_136_223_846_793_005)
            .wrapping_add(1_442_695_040_888_963_407);
        let at = (seed >> 33) as usize % (3 * PLACES);
        index = changed(alloc, index, &mut items, at, item)?.fold(alloc, work)?;
        for key in 0..3usize {
            if !is_plain(alloc, &index, &items, key)? {
                return Ok(Some(item));
            }
        }
    }
    Ok(None)
}

#[test]
fn puts_and_cuts_in_any_order_leave_the_plain_fold(rt: HostRuntime) -> Result<(), Fail> {
    let mut work = Work::new(&rt);
    assert!(rt; first_other(rt.alloc(), &mut work)?.is_none());
    Ok(())
}
