ghost use Rattle.std.specs.Prelude.{◌≡◌, ◌∷◌, [], ◌++◌, map, IfOk};
ghost use Rattle.st_hash.specs.Hash.{HashValue};
ghost use Rattle.st_anchor.specs.Gives.{plain_given};
ghost use Rattle.st_apply.specs.Codes.{absent};
ghost use Rattle.st_observer.specs.Observed.{given_for};
ghost use Rattle.st_observer.specs.Work.{anchored_item, operations_at, plain_held};
ghost use Rattle.st_observer.specs.inside.Steps.{PutsGiven, with_given, stepped};

use st_anchor::Given;
use st_apply::{DidState, apply};
use st_base::{Copied, List, WantOfMemory, Work};
use st_hash::Hash;
use st_opindex::{Folder, Index};
use st_ops::Operation;
use st_params::Schedule;
use std::alloc::Global;

/// An operation of an identifier: the number of its entry in the ledger, the height of that, and
/// the operation.
#[derive(Drop)]
pub struct Held {
    pub place: u32,
    pub height: u32,
    pub operation: Operation,
}

impl Copied for Held {
    /// The same operation, which shares its proof and its delta.
    fn copy(&self, alloc: Global) -> Result<Held, WantOfMemory> {
        let operation = self.operation.copy(alloc)?;
        Ok(Held {
            place: self.place,
            height: self.height,
            operation,
        })
    }
}

// Puts the operations of the entry of this place and height at its place; each replaces the one of
// its identifier there. They are put from the last to the first, so of two for one identifier the
// first would stay.
pub fn put_all(
    alloc: Global,
    index: Index<Hash, Steps>,
    place: u32,
    height: u32,
    given: Vec<Given>,
) -> Result<Index<Hash, Steps>, WantOfMemory>
    ensures { IfOk result (PutsGiven place height (map plain_given given.items) index) }
{
    let mut done = index;
    let mut left = given;
    'puts: while let Some(last) = left.pop() {
        done = put_one(alloc, done, place, height, last)?;
    }
    Ok(done)
}

fn put_one(
    alloc: Global,
    index: Index<Hash, Steps>,
    place: u32,
    height: u32,
    given: Given,
) -> Result<Index<Hash, Steps>, WantOfMemory>
    ensures schedule { IfOk result (λ done. done.folder.schedule ≡ index.folder.schedule) }
    ensures operations { IfOk result (λ done. (suffix : HashValue) → operations_at suffix done.items
        ≡ with_given place height (given_for suffix (plain_given given ∷ [])) (operations_at suffix index.items)) }
    ensures changes { IfOk result (λ done. done.changes ≡ index.changes ++ (given.suffix, place) ∷ []) }
{
    let Given { suffix, operation } = given;
    Ok(index.put(alloc, suffix, place, (height, operation))?)
}

// Copies these operations with their places.
pub fn copy_items(
    alloc: Global,
    items: &[(u32, (u32, Operation))],
) -> Result<List<Held>, WantOfMemory>
    ensures { IfOk result (λ held. map plain_held held ≡ map anchored_item items.now) }
{
    let mut held = List::new(alloc);
    'items: for item in items {
        held.push(alloc, copy_item(alloc, item)?)?;
    }
    Ok(held)
}

fn copy_item(alloc: Global, item: &(u32, (u32, Operation))) -> Result<Held, WantOfMemory>
    ensures { IfOk result (λ held. plain_held held ≡ anchored_item item.now) }
{
    let (place, (height, operation)) = item;
    let operation = operation.copy(alloc)?;
    Ok(Held {
        place: *place,
        height: *height,
        operation,
    })
}

/// Folds operations, each with the height of its entry, into the state of an identifier, one step
/// of resolution per operation.
#[derive(Drop)]
pub struct Steps {
    /// Gives the limits of a height.
    pub schedule: Schedule,
}

impl Folder for Steps {
    type Item = (u32, Operation);

    type State = DidState;

    ghost first = { λ _. absent };

    ghost next = { λ steps state item. stepped steps.schedule state item };

    fn start(&self, _alloc: Global) -> Result<DidState, WantOfMemory> {
        Ok(DidState::absent())
    }

    fn step(
        &self,
        alloc: Global,
        state: &DidState,
        item: &(u32, Operation),
        work: &mut Work,
    ) -> Result<DidState, WantOfMemory> {
        let params = self.schedule.at(item.0);
        Ok(apply(alloc, state, &item.1, &params, work)?)
    }

    // Many are stored, and few of them are used again.
    fn copy_state(&self, alloc: Global, state: &DidState) -> Result<DidState, WantOfMemory> {
        state.pack(alloc)
    }
}
