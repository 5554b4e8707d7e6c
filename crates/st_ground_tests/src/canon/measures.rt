use st_canon::{Json, depth, equal, fits, read, size};
use std::alloc::Global;
use std::test::Fail;

// A value, the length of its canonical text and its depth, computed by a program in Python.
const MEASURES: &str = r#"null  4 1
true  4 1
false  5 1
-9007199254740991  17 1
0  1 1
""  2 1
"\u20ac\n\u0001\"\\"  17 1
[]  2 1
{}  2 1
[[],[[1]]]  10 4
{"a":{"b":[1,2]},"\ud83d\ude00":"x"}  28 4
[1,[2,[3,[4]]],{}]  18 5"#;

fn is_number(text: &str, number: u64) -> bool {
    match text.parse::<u64>() {
        Ok(parsed) => parsed == number,
        Err(_) => false,
    }
}

// Whether a value has this length and this depth.
fn is_so_great(alloc: Global, text: &str, length: &str, levels: &str) -> bool {
    match read(alloc, text.as_bytes()) {
        Ok(json) => is_number(length, size(&json)) && is_number(levels, depth(&json)),
        Err(_) => false,
    }
}

fn is_measured(alloc: Global, line: &str) -> bool {
    let Some((text, measures)) = line.split_once("  ") else {
        return false;
    };
    match measures.split_once(' ') {
        Some((length, levels)) => is_so_great(alloc, text, length, levels),
        None => false,
    }
}

#[test]
fn sizes_and_depths_are_told(rt: HostRuntime) -> Result<(), Fail> {
    for line in MEASURES.lines() {
        assert!(rt; is_measured(rt.alloc(), line), "{line}");
    }
    Ok(())
}

// A value of the depth 3, whose text has 25 bytes.
fn fits_up_to_both(value: &Json) -> bool {
    fits(value, 3, 25)
        && !fits(value, 2, 25)
        && !fits(value, 3, 24)
        && fits(value, u64::MAX, u64::MAX)
}

fn is_bounded(alloc: Global) -> bool {
    match read(alloc, b"{\"a\":[true,\"\\n\",null,-1]}") {
        Ok(value) => fits_up_to_both(&value),
        Err(_) => false,
    }
}

#[test]
fn a_value_fits_up_to_both_bounds(rt: HostRuntime) -> Result<(), Fail> {
    assert!(rt; is_bounded(rt.alloc()));
    Ok(())
}

// Whether the value of a text equals a value, in a word.
fn against(alloc: Global, value: &Json, text: &str) -> &'static str {
    match read(alloc, text.as_bytes()) {
        Ok(other) => if equal(value, &other) {
            "equal"
        } else {
            "other"
        },
        Err(_) => "unread",
    }
}

// The same for a value that is read first.
fn compared(alloc: Global, text: &str) -> &'static str {
    match read(alloc, b"{\"b\":[1,\"x\",null],\"a\":{}}") {
        Ok(value) => against(alloc, &value, text),
        Err(_) => "unread",
    }
}

const COMPARED: &str = r#"equal {"a":{},"b":[1,"\u0078",null]}
other {"b":[1,"x",true],"a":{}}
other {"c":[1,"x",null],"a":{}}
other {"b":[2,"x",null],"a":{}}
other {"b":[1,"x",null],"a":[]}"#;

#[test]
fn equal_values_have_one_text(rt: HostRuntime) -> Result<(), Fail> {
    for line in COMPARED.lines() {
        let (word, text) = line.split_once(' ').ok_or(line)?;
        assert!(rt; compared(rt.alloc(), text) == word, "{line}");
    }
    Ok(())
}
