ghost use Rattle.std.specs.Prelude.{◌≡◌, option_map, Some};
ghost use Rattle.st_base.specs.Answers.{Gives, GivesAs};
ghost use Rattle.st_plain.specs.Shapes.{text_at};
ghost use Rattle.st_canon.specs.View.{plain};
ghost use Rattle.st_jsonpatch.specs.Step.{add, remove, replace, move, copy, test, path_at, plain_step, refusal_of, step_named, step_of, value_in, with_from, with_path, with_value};

use crate::pointer::{Pointer, PointerRefused};
use st_base::{Copied, WantOfMemory};
use st_canon::Json;
use std::alloc::Global;
use thiserror::Error;

/// A step of a JSON Patch (RFC 6902, section 4).
#[derive(Drop)]
pub enum Step {
    /// The parent gets one more entry, or the value replaces the whole document.
    Add { path: Pointer, value: Json },
    Remove { path: Pointer },
    Replace { path: Pointer, value: Json },
    /// The value at `from` is removed there, and added at `path`.
    Move { from: Pointer, path: Pointer },
    Copy { from: Pointer, path: Pointer },
    /// Changes nothing, and fails if the target is not equal to the value.
    Test { path: Pointer, value: Json },
}

impl Step {
    /// The step of a value: an object with `op`, `path`, and the members that this `op` needs.
    /// Other members are ignored.
    ///
    /// The result is `BadStep` if and only if the value is not a step.
    pub fn read(alloc: Global, value: &Json) -> Result<Step, StepRefused>
        ensures { GivesAs plain_step refusal_of (step_of (plain value.now)) result }
    {
        match text_at(value, "op") {
            Some(op) => read_named(alloc, op, value),
            None => Err(StepRefused::BadStep),
        }
    }
}

fn read_named(alloc: Global, op: &str, value: &Json) -> Result<Step, StepRefused>
    ensures { GivesAs plain_step refusal_of (step_named op.now (plain value.now)) result }
{
    if op == "add" {
        read_add(alloc, value)
    } else if op == "remove" {
        read_remove(alloc, value)
    } else if op == "replace" {
        read_replace(alloc, value)
    } else if op == "move" {
        read_move(alloc, value)
    } else if op == "copy" {
        read_copy(alloc, value)
    } else if op == "test" {
        read_test(alloc, value)
    } else {
        Err(StepRefused::BadStep)
    }
}

fn read_add(alloc: Global, value: &Json) -> Result<Step, StepRefused>
    ensures { GivesAs plain_step refusal_of (with_value add (plain value.now)) result }
{
    let path = read_path(alloc, value, "path")?;
    let value = read_value(alloc, value)?;
    Ok(Step::Add { path, value })
}

fn read_remove(alloc: Global, value: &Json) -> Result<Step, StepRefused>
    ensures { GivesAs plain_step refusal_of (with_path remove (plain value.now)) result }
{
    let path = read_path(alloc, value, "path")?;
    Ok(Step::Remove { path })
}

fn read_replace(alloc: Global, value: &Json) -> Result<Step, StepRefused>
    ensures { GivesAs plain_step refusal_of (with_value replace (plain value.now)) result }
{
    let path = read_path(alloc, value, "path")?;
    let value = read_value(alloc, value)?;
    Ok(Step::Replace { path, value })
}

fn read_move(alloc: Global, value: &Json) -> Result<Step, StepRefused>
    ensures { GivesAs plain_step refusal_of (with_from move (plain value.now)) result }
{
    let path = read_path(alloc, value, "path")?;
    let from = read_path(alloc, value, "from")?;
    Ok(Step::Move { from, path })
}

fn read_copy(alloc: Global, value: &Json) -> Result<Step, StepRefused>
    ensures { GivesAs plain_step refusal_of (with_from copy (plain value.now)) result }
{
    let path = read_path(alloc, value, "path")?;
    let from = read_path(alloc, value, "from")?;
    Ok(Step::Copy { from, path })
}

fn read_test(alloc: Global, value: &Json) -> Result<Step, StepRefused>
    ensures { GivesAs plain_step refusal_of (with_value test (plain value.now)) result }
{
    let path = read_path(alloc, value, "path")?;
    let value = read_value(alloc, value)?;
    Ok(Step::Test { path, value })
}

// The pointer in the member of this name.
fn read_path(alloc: Global, value: &Json, name: &str) -> Result<Pointer, StepRefused>
    ensures { Gives refusal_of (path_at name.now (plain value.now)) result }
{
    match text_at(value, name) {
        Some(text) => match Pointer::read(alloc, text) {
            Ok(pointer) => Ok(pointer),
            Err(PointerRefused::BadPointer) => Err(StepRefused::BadStep),
            Err(PointerRefused::WantOfMemory) => Err(StepRefused::WantOfMemory),
        },
        None => Err(StepRefused::BadStep),
    }
}

fn text_at<'a>(value: &'a Json, name: &str) -> Option<&'a str>
    ensures { option_map (λ text. text.now) result ≡ text_at name.now (Some (plain value.now)) }
{
    value.member(name)?.as_text()
}

// A copy of the member `value`.
fn read_value(alloc: Global, value: &Json) -> Result<Json, StepRefused>
    ensures { GivesAs plain refusal_of (value_in (plain value.now)) result }
{
    match value.member("value") {
        Some(operand) => Ok(operand.copy(alloc)?),
        None => Err(StepRefused::BadStep),
    }
}

impl Copied for Step {
    fn copy(&self, alloc: Global) -> Result<Step, WantOfMemory> {
        match self {
            Step::Add { path, value } => Ok(Step::Add {
                path: path.copy(alloc)?,
                value: value.copy(alloc)?,
            }),
            Step::Remove { path } => Ok(Step::Remove {
                path: path.copy(alloc)?,
            }),
            Step::Replace { path, value } => Ok(Step::Replace {
                path: path.copy(alloc)?,
                value: value.copy(alloc)?,
            }),
            Step::Move { from, path } => Ok(Step::Move {
                from: from.copy(alloc)?,
                path: path.copy(alloc)?,
            }),
            Step::Copy { from, path } => Ok(Step::Copy {
                from: from.copy(alloc)?,
                path: path.copy(alloc)?,
            }),
            Step::Test { path, value } => Ok(Step::Test {
                path: path.copy(alloc)?,
                value: value.copy(alloc)?,
            }),
        }
    }
}

/// Why a value is not read as a step.
#[derive(Clone, Copy, Debug, Drop, Error, PartialEq, Eq)]
pub enum StepRefused {
    /// The value is not an object with `op`, `path` and the members that this `op` needs.
    #[error("not a step of a JSON Patch")]
    BadStep,
    #[error("out of memory")]
    WantOfMemory,
}

impl From<WantOfMemory> for StepRefused {
    ghost use Rattle.std.specs.Prelude.{◌≡◌};
    ghost use Rattle.st_jsonpatch.specs.declared.step.StepRefused.TheVariants.{WantOfMemory};

    ghost from_gives = { λ _ refused. refused ≡ WantOfMemory };

    fn from(_want: WantOfMemory) -> StepRefused {
        StepRefused::WantOfMemory
    }
}
