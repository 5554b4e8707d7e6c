use super::{each_comes_out, json, make, push_steps};
use st_base::{List, read_number};
use st_canon::Json;
use st_jsonpatch::{Step, StepRefused};
use std::alloc::Global;
use std::test::Fail;

// Value, step, result.
const CASES: &str = r#"{"l":[1,2]}  [{"op":"add","path":"/l/1","value":9}]  {"l":[1,9,2]}
{"l":[1,2]}  [{"op":"add","path":"/l/2","value":9}]  {"l":[1,2,9]}
{"l":[1,2]}  [{"op":"add","path":"/l/3","value":9}]  failed 0
{"l":[1,2]}  [{"op":"add","path":"/l/01","value":9}]  failed 0
{"l":[1,2]}  [{"op":"add","path":"/l/99999999999999999999","value":9}]  failed 0
{"l":[1,2]}  [{"op":"add","path":"/l/0/x","value":9}]  failed 0
{"l":[1,2]}  [{"op":"add","path":"","value":9}]  9
{"l":[1,2]}  [{"op":"move","from":"/l","path":"/l/0"}]  failed 0
{"l":[1,2]}  [{"op":"move","from":"/l/0","path":"/l/2"}]  failed 0
{"l":[1,2]}  [{"op":"move","from":"/l/0","path":"/l/-"}]  {"l":[2,1]}
{"l":[1,2]}  [{"op":"move","from":"/l/0","path":"/l/0"}]  {"l":[1,2]}
{"l":[1,2]}  [{"op":"move","from":"/l/0","path":""}]  1
{"l":[1,2]}  [{"op":"move","from":"","path":""}]  failed 0
{"l":[1,2]}  [{"op":"remove","path":""}]  failed 0
{"l":[1,2]}  [{"op":"remove","path":"/l/-"}]  failed 0
{"l":[1,2]}  [{"op":"replace","path":"/l/-","value":0}]  failed 0
{"l":[1,2]}  [{"op":"replace","path":"","value":0}]  0
{"l":[1,2]}  [{"op":"copy","from":"","path":"/l/0"}]  {"l":[{"l":[1,2]},1,2]}
{"l":[1,2]}  [{"op":"test","path":"/l/0","value":true}]  failed 0
{"l":[1,2]}  [{"op":"test","path":"","value":{"l":[1,2]}},{"op":"remove","path":"/x"}]  failed 1"#;

// Whether it is a step, and a value.
const FORMS: &str = r#"no  []
no  {}
no  {"op":"add","path":""}
no  {"op":"remove"}
no  {"op":"replace","path":"/a"}
no  {"op":"move","path":"/a"}
no  {"op":"copy","from":"a","path":"/a"}
no  {"op":"copy","from":null,"path":"/a"}
no  {"op":"test","path":"/~"}
no  {"op":"Add","path":"","value":1}
no  {"op":["add"],"path":"","value":1}
yes  {"op":"test","path":"","value":null,"from":7}"#;

// A list is added, and copied twenty times after its own last entry.
const ADDED: &str = r#"[{"op":"add","path":"/a","value":[]}]"#;

const COPIED: &str = r#"[{"from":"/a","op":"copy","path":"/a/-"}]"#;

// Bounds on depth and size, and the step that fails.
const BOUNDS: &str = "32 16384 failed 13
32 20515 failed 14
32 20514 failed 13
32 10275 failed 13
32 10274 failed 12
3 16384 failed 2";

#[test]
fn each_step_does_what_its_row_says(rt: HostRuntime) -> Result<(), Fail> {
    each_comes_out(rt.alloc(), CASES)
}

// The steps that add the list and copy it.
fn push_growing(alloc: Global, steps: &mut List<Step>) -> bool {
    let mut all = push_steps(alloc, steps, ADDED);
    for _ in 0..20 {
        all = push_steps(alloc, steps, COPIED) && all;
    }
    all
}

// The bounds of a line, and what the steps make.
fn bounds_of(line: &str) -> Option<(u32, u32, &str)> {
    let (depth, rest) = line.split_once(' ')?;
    let (size, made) = rest.split_once(' ')?;
    let depth = read_number(depth.as_bytes(), 100)?;
    let size = read_number(size.as_bytes(), 100_000)?;
    Some((depth, size, made))
}

fn is_bounded(alloc: Global, value: &Json, steps: &[Step], line: &str) -> bool {
    match bounds_of(line) {
        Some((depth, size, made)) => make(alloc, value, steps, depth as u64, size as u64, made),
        None => false,
    }
}

fn each_is_bounded(alloc: Global, value: &Json, steps: &[Step]) -> Result<(), Fail> {
    for line in BOUNDS.lines() {
        if !is_bounded(alloc, value, steps, line) {
            return Err(Fail::from(line));
        }
    }
    Ok(())
}

fn growth_is_bounded(alloc: Global, value: &Json) -> Result<(), Fail> {
    let mut steps = List::new(alloc);
    if push_growing(alloc, &mut steps) {
        return Ok(each_is_bounded(alloc, value, steps.as_slice())?);
    }
    Err(Fail::from("no steps"))
}

#[test]
fn copies_grow_past_the_bound_on_size(rt: HostRuntime) -> Result<(), Fail> {
    match json(rt.alloc(), r#"{"publicKeys":[],"services":[]}"#) {
        Some(value) => growth_is_bounded(rt.alloc(), &value),
        None => Err(Fail::from("no value")),
    }
}

// Whether the value is read as a step, or refused, as the line says.
fn is_read_so(alloc: Global, value: &Json, is_step: bool) -> bool {
    match Step::read(alloc, value) {
        Ok(_) => is_step,
        Err(e) => !is_step && e == StepRefused::BadStep,
    }
}

fn has_its_form(alloc: Global, line: &str) -> bool {
    match line.split_once("  ") {
        Some((is_step, value)) => match json(alloc, value) {
            Some(value) => is_read_so(alloc, &value, is_step == "yes"),
            None => false,
        },
        None => false,
    }
}

#[test]
fn a_step_has_what_its_op_needs(rt: HostRuntime) -> Result<(), Fail> {
    for line in FORMS.lines() {
        assert!(rt; has_its_form(rt.alloc(), line), "{line}");
    }
    Ok(())
}
