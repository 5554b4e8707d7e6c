mod appendix;
mod pointers;
mod steps;

use st_base::{List, read_number};
use st_canon::{Json, read, write};
use st_jsonpatch::{Step, StepsRefused, apply_steps};
use std::alloc::Global;
use std::test::Fail;

// The bounds on depth and size of a line that gives none.
const DEPTH: u64 = 32;

const SIZE: u64 = 16_384;

fn json(alloc: Global, text: &str) -> Option<Json> {
    read(alloc, text.as_bytes()).ok()
}

fn is_text(alloc: Global, value: &Json, text: &str) -> bool {
    match write(alloc, value) {
        Ok(written) => written.as_slice() == text.as_bytes(),
        Err(_) => false,
    }
}

fn is_failed(text: &str, at: usize) -> bool {
    match text.strip_prefix("failed ") {
        Some(number) => match read_number(number.as_bytes(), 1_000) {
            Some(number) => number as usize == at,
            None => false,
        },
        None => false,
    }
}

// Appends the steps of these values, if each value is one.
fn push_each(alloc: Global, steps: &mut List<Step>, values: &[Json]) -> bool {
    for value in values {
        match Step::read(alloc, value) {
            Ok(step) => if steps.push(alloc, step).is_err() {
                return false;
            },
            Err(_) => return false,
        }
    }
    true
}

// The same for the values of a list, given by its text.
fn push_steps(alloc: Global, steps: &mut List<Step>, text: &str) -> bool {
    match json(alloc, text) {
        Some(value) => match value.as_list() {
            Some(values) => push_each(alloc, steps, values.as_slice()),
            None => false,
        },
        None => false,
    }
}

// Whether this is the value after the steps: a canonical text, or the number of the step that
// fails.
fn make(
    alloc: Global,
    value: &Json,
    steps: &[Step],
    max_depth: u64,
    max_size: u64,
    made: &str,
) -> bool {
    match apply_steps(alloc, value, steps, max_depth, max_size) {
        Ok(value) => is_text(alloc, &value, made),
        Err(StepsRefused::Failed(at)) => is_failed(made, at),
        Err(StepsRefused::WantOfMemory) => false,
    }
}

fn steps_make(alloc: Global, value: &Json, text: &str, made: &str) -> bool {
    let mut steps = List::new(alloc);
    push_steps(alloc, &mut steps, text) && make(alloc, value, steps.as_slice(), DEPTH, SIZE, made)
}

fn texts_make(alloc: Global, value: &str, steps: &str, made: &str) -> bool {
    match json(alloc, value) {
        Some(value) => steps_make(alloc, &value, steps, made),
        None => false,
    }
}

// Whether the result is that of the line: a value, steps and their result, two spaces apart.
fn comes_out(alloc: Global, line: &str) -> bool {
    match line.split_once("  ") {
        Some((value, rest)) => match rest.split_once("  ") {
            Some((steps, made)) => texts_make(alloc, value, steps, made),
            None => false,
        },
        None => false,
    }
}

fn each_comes_out(alloc: Global, lines: &'static str) -> Result<(), Fail> {
    for line in lines.lines() {
        if !comes_out(alloc, line) {
            return Err(Fail::from(line));
        }
    }
    Ok(())
}
