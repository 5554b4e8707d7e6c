ghost use Rattle.std.specs.Prelude.{◌≡◌, map};
ghost use Rattle.st_base.specs.Answers.{GivesAs};
ghost use Rattle.st_canon.specs.View.{plain};
ghost use Rattle.st_jsonpatch.specs.AllStepped.{all_stepped, blamed};
ghost use Rattle.st_jsonpatch.specs.Step.{plain_step};
ghost use Rattle.st_jsonpatch.specs.Stepped.{changed, copied, moved, stepped, tested};
ghost use Rattle.st_jsonpatch.specs.inside.Changed.{Changes};

use crate::edits::{add, remove, replace, target};
use crate::pointer::is_above;
use crate::step::Step;
use st_base::{Copied, Text, WantOfMemory};
use st_canon::{Json, equal, fits};
use std::alloc::Global;
use thiserror::Error;

/// The value after the steps; after each step the whole value must be within the two bounds.
///
/// The result is `Failed(i)` if and only if step `i`, counted from 0, is the first that fails.
pub fn apply_steps(
    alloc: Global,
    value: &Json,
    steps: &[Step],
    max_depth: u64,
    max_size: u64,
) -> Result<Json, StepsRefused>
    ensures { let says = all_stepped max_depth max_size 0 (map plain_step steps.now) (plain value.now) in
        GivesAs plain blamed says result }
{
    let mut now = value.copy(alloc)?;
    for (at, step) in steps.iter().enumerate() {
        match carry_out(alloc, &mut now, step, max_depth, max_size) {
            Ok(()) => {}
            Err(ChangeRefused::Fails) => return Err(StepsRefused::Failed(at)),
            Err(ChangeRefused::WantOfMemory) => return Err(StepsRefused::WantOfMemory),
        }
    }
    Ok(now)
}

fn carry_out(
    alloc: Global,
    value: &mut Json,
    step: &Step,
    max_depth: u64,
    max_size: u64,
) -> Result<(), ChangeRefused>
    ensures { Changes (stepped max_depth max_size (plain_step step.now) (plain value.old)) (plain value.new) result }
{
    change(alloc, value, step)?;
    if fits(value, max_depth, max_size) {
        Ok(())
    } else {
        Err(ChangeRefused::Fails)
    }
}

fn change(alloc: Global, value: &mut Json, step: &Step) -> Result<(), ChangeRefused>
    ensures { Changes (changed (plain_step step.now) (plain value.old)) (plain value.new) result }
{
    match step {
        Step::Add { path, value: new } => {
            let new = new.copy(alloc)?;
            add(alloc, value, path.tokens(), new)
        }
        Step::Remove { path } => {
            remove(alloc, value, path.tokens())?;
            Ok(())
        },
        Step::Replace { path, value: new } => {
            let new = new.copy(alloc)?;
            replace(alloc, value, path.tokens(), new)
        }
        Step::Move { from, path } => move_entry(alloc, value, from.tokens(), path.tokens()),
        Step::Copy { from, path } => copy_entry(alloc, value, from.tokens(), path.tokens()),
        Step::Test {
            path,
            value: expected,
        } => test_entry(value, path.tokens(), expected),
    }
}

fn move_entry(
    alloc: Global,
    value: &mut Json,
    from: &[Text],
    path: &[Text],
) -> Result<(), ChangeRefused>
    ensures { Changes (moved from.now path.now (plain value.old)) (plain value.new) result }
{
    if is_above(from, path) {
        return Err(ChangeRefused::Fails);
    }
    let entry = remove(alloc, value, from)?;
    add(alloc, value, path, entry)
}

fn copy_entry(
    alloc: Global,
    value: &mut Json,
    from: &[Text],
    path: &[Text],
) -> Result<(), ChangeRefused>
    ensures { Changes (copied from.now path.now (plain value.old)) (plain value.new) result }
{
    let entry = match target(value, from) {
        Some(entry) => entry.copy(alloc)?,
        None => return Err(ChangeRefused::Fails),
    };
    add(alloc, value, path, entry)
}

fn test_entry(value: &Json, path: &[Text], expected: &Json) -> Result<(), ChangeRefused>
    ensures { Changes (tested (plain expected.now) path.now (plain value.now)) (plain value.now) result }
{
    match target(value, path) {
        Some(entry) => if equal(entry, expected) {
            Ok(())
        } else {
            Err(ChangeRefused::Fails)
        },
        None => Err(ChangeRefused::Fails),
    }
}

/// Why steps are not applied.
#[derive(Clone, Copy, Debug, Drop, Error, PartialEq, Eq)]
pub enum StepsRefused {
    /// The step of this number, counted from 0, is the first that fails.
    #[error("step {0} fails")]
    Failed(usize),
    #[error("out of memory")]
    WantOfMemory,
}

// Why a change is not made.
#[derive(Clone, Copy, Debug, Drop, PartialEq, Eq)]
pub(crate) enum ChangeRefused {
    Fails,
    WantOfMemory,
}

impl From<WantOfMemory> for StepsRefused {
    ghost use Rattle.std.specs.Prelude.{◌≡◌};
    ghost use Rattle.st_jsonpatch.specs.declared.steps.StepsRefused.TheVariants.{WantOfMemory};

    ghost from_gives = { λ _ refused. refused ≡ WantOfMemory };

    fn from(_want: WantOfMemory) -> StepsRefused {
        StepsRefused::WantOfMemory
    }
}

impl From<WantOfMemory> for ChangeRefused {
    ghost use Rattle.std.specs.Prelude.{◌≡◌};
    ghost use Rattle.st_jsonpatch.specs.declared.steps.ChangeRefused.TheVariants.{WantOfMemory};

    ghost from_gives = { λ _ refused. refused ≡ WantOfMemory };

    fn from(_want: WantOfMemory) -> ChangeRefused {
        ChangeRefused::WantOfMemory
    }
}
