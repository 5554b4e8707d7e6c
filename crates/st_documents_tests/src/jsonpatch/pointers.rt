use super::{is_text, json};
use st_base::Copied;
use st_canon::Json;
use st_jsonpatch::{Pointer, PointerRefused, find};
use std::alloc::Global;
use std::test::Fail;

// A pointer, and its tokens, each followed by a bar; `bad` is not a pointer.
const POINTERS: &str = "/a~1b/m~0n = a/b|m~n|
 = none
// = ||
a = bad
/~2 = bad
/~ = bad
/a~ = bad
~0 = bad
/b/~/c = bad
/~~0 = bad";

// RFC 6901, section 5: the value, and the values at its pointers. The last ones have none.
const DOCUMENT: &str =
    r#"{"foo":["bar","baz"],"":0,"a/b":1,"c%d":2,"e^f":3,"g|h":4,"i\\j":5,"k\"l":6," ":7,"m~n":8}"#;

const ENTRIES: &str =
    r#" = {"":0," ":7,"a/b":1,"c%d":2,"e^f":3,"foo":["bar","baz"],"g|h":4,"i\\j":5,"k\"l":6,"m~n":8}
/foo = ["bar","baz"]
/foo/0 = "bar"
/ = 0
/a~1b = 1
/c%d = 2
/e^f = 3
/g|h = 4
/i\j = 5
/k"l = 6
/  = 7
/m~0n = 8
/foo/2 = nothing
/foo/- = nothing
/foo/00 = nothing
/foo/01 = nothing
/foo/+1 = nothing
/foo/18446744073709551616 = nothing
/foo/0/0 = nothing
/nope = nothing"#;

fn are_tokens(pointer: &Pointer, text: &str) -> bool {
    let mut rest = text;
    for token in pointer.tokens() {
        rest = match rest.split_once('|') {
            Some((first, more)) => if first == token.as_str() {
                more
            } else {
                return false;
            },
            None => return false,
        };
    }
    rest.is_empty()
}

fn is_copied(alloc: Global, pointer: &Pointer, tokens: &str) -> bool {
    match pointer.copy(alloc) {
        Ok(copied) => are_tokens(&copied, if tokens == "none" { "" } else { tokens }),
        Err(_) => false,
    }
}

fn is_read_so(alloc: Global, line: &str) -> bool {
    match line.split_once(" = ") {
        Some((text, tokens)) => match Pointer::read(alloc, text) {
            Ok(pointer) => is_copied(alloc, &pointer, tokens),
            Err(e) => e == PointerRefused::BadPointer && tokens == "bad",
        },
        None => false,
    }
}

#[test]
fn escapes_stand_for_their_signs(rt: HostRuntime) -> Result<(), Fail> {
    for line in POINTERS.lines() {
        assert!(rt; is_read_so(rt.alloc(), line), "{line}");
    }
    Ok(())
}

fn leads_to(alloc: Global, value: &Json, pointer: &Pointer, text: &str) -> bool {
    match find(value, pointer) {
        Some(entry) => is_text(alloc, entry, text),
        None => text == "nothing",
    }
}

fn is_found_so(alloc: Global, value: &Json, line: &str) -> bool {
    match line.split_once(" = ") {
        Some((text, entry)) => match Pointer::read(alloc, text) {
            Ok(pointer) => leads_to(alloc, value, &pointer, entry),
            Err(_) => false,
        },
        None => false,
    }
}

fn each_is_found(alloc: Global, value: &Json) -> Result<(), Fail> {
    for line in ENTRIES.lines() {
        if !is_found_so(alloc, value, line) {
            return Err(Fail::from(line));
        }
    }
    Ok(())
}

#[test]
fn a_pointer_leads_to_a_value(rt: HostRuntime) -> Result<(), Fail> {
    match json(rt.alloc(), DOCUMENT) {
        Some(value) => each_is_found(rt.alloc(), &value),
        None => Err(Fail::from("no value")),
    }
}
