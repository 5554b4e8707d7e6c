use st_plain::{ReadRefused, canonical_text};
use std::alloc::{AllocError, Global};
use std::borrow::CowSlice;
use std::test::Fail;

// A text and its canonical text, or the refusal, two spaces apart. The first of two names that are
// compared by UTF-16 is U+1F600, whose bytes are above those of U+FB33.
const TEXTS: &str = r#"{"a" : [ ], "b":[1, -9007199254740991]}  {"a":[],"b":[1,-9007199254740991]}
{"a":{"b":"\u0078","c":null},"d":true}  {"a":{"b":"x","c":null},"d":true}
{"\u20ac":1,"\ud83d\ude00":false,"\ufb33":3}  {"€":1,"😀":false,"דּ":3}
{"b":2,"a":1}  {"a":1,"b":2}
{"b":{"d":1,"c":[true,null]},"a":[{"f":"x","e":{}},[]]}  {"a":[{"e":{},"f":"x"},[]],"b":{"c":[true,null],"d":1}}
{"דּ":1,"😀":2}  {"😀":2,"דּ":1}
{"\ufb33":1,"\ud83d\ude00":2}  {"😀":2,"דּ":1}
{"":1,"aa":2,"a":3}  {"":1,"a":3,"aa":2}
{"a":1,"\u0061":2}  {"a":2}
{"b":0,"\u0061":1,"a":2}  {"a":2,"b":0}
{"\u001f":1,"\b":2,"\"":3,"\\":4,"a":5,"\u0001":0,"\n":6,"/":7,"":8,"\f\r\t":9}  {"":8,"\u0001":0,"\b":2,"\n":6,"\f\r\t":9,"\u001f":1,"\"":3,"/":7,"\\":4,"a":5}
{"b":1,"a":2,"b":3,"a":4,"c":5}  {"a":4,"b":3,"c":5}
{"a":1.5,"a":1}  {"a":1}
{"b":[{"c":1.5}],"a":-0,"a":{"d":1},"b":2}  {"a":{"d":1},"b":2}
{"b":[1,2.5],"a":{"d":"x","c":0.5},"b":{},"a":[]}  {"a":[],"b":{}}
[{"b":{"d":1,"c":2},"a":{"f":[{"h":1,"g":2}],"e":3}}]  [{"a":{"e":3,"f":[{"g":2,"h":1}]},"b":{"c":2,"d":1}}]
[{"b":{"d":1.5,"c":{"y":1,"x":2}},"a":1,"b":{"d":3,"c":{"y":5,"x":4}}}]  [{"a":1,"b":{"c":{"x":4,"y":5},"d":3}}]
{"a":1,"a":1.5}  not whole
{"b":1,"a":{"d":1,"c":[2.0]}}  not whole
{"a":1e999,"a":1}  no JSON
{"b":1,"a":-1e999}  no JSON
[1.5,1e999]  no JSON
1.0  not whole
-0  not whole
1e2  not whole
[1.5,{"b":1,"a":2}]  not whole
9007199254740991  9007199254740991
-9007199254740991  -9007199254740991
9007199254740992  not whole
-9007199254740992  not whole
18446744073709551615  not whole
18446744073709551616  not whole
-9223372036854775809  not whole
[1.5,]  no JSON
[1.5] 2  no JSON
{"b":1,"a":2}}  no JSON
{"b":1,"a":2,}  no JSON
{"b":1,"a":2  no JSON
{"b":1,"a"}  no JSON
{"b":1,"a":]}  no JSON
{"b":1,"a":2]  no JSON
{"b":1,2}  no JSON
[1.5,"\ud800"]  no JSON"#;

// Whether a canonical text is used as it is, without a copy.
fn is_kept(alloc: Global, canonical: &[u8]) -> bool {
    match canonical_text(alloc, canonical) {
        Ok(CowSlice::Borrowed(text)) => text == canonical,
        _ => false,
    }
}

fn is_given(alloc: Global, text: &[u8], wanted: &str) -> bool {
    match canonical_text(alloc, text) {
        Ok(written) => written.as_slice() == wanted.as_bytes()
            && is_kept(alloc, written.as_slice()),
        Err(ReadRefused::NotJson) => wanted == "no JSON",
        Err(ReadRefused::NotWhole) => wanted == "not whole",
        Err(_) => false,
    }
}

fn is_line(alloc: Global, line: &str) -> bool {
    match line.split_once("  ") {
        Some((text, wanted)) => is_given(alloc, text.as_bytes(), wanted),
        None => false,
    }
}

#[test]
fn each_text_has_one_answer(rt: HostRuntime) -> Result<(), Fail> {
    for line in TEXTS.lines() {
        assert!(rt; is_line(rt.alloc(), line), "{line}");
    }
    Ok(())
}

// This many lists around this text.
fn nested(alloc: Global, deep: usize, inside: &str) -> Result<Vec<u8>, AllocError> {
    let mut text = Vec::new(alloc);
    for _ in 0..deep {
        text.extend_from_slice(b"[")?;
    }
    text.extend_from_slice(inside.as_bytes())?;
    for _ in 0..deep {
        text.extend_from_slice(b"]")?;
    }
    Ok(text)
}

// With the unordered object inside, one more level.
fn ends_at_127(alloc: Global) -> Result<bool, AllocError> {
    let text = nested(alloc, 126, r#"{"b":1,"a":2}"#)?;
    let wanted = nested(alloc, 126, r#"{"a":2,"b":1}"#)?;
    let deeper = nested(alloc, 127, r#"{"b":1,"a":2}"#)?;
    let found = match canonical_text(alloc, text.as_slice()) {
        Ok(written) => written.as_slice() == wanted.as_slice(),
        Err(_) => false,
    };
    Ok(found && is_given(alloc, deeper.as_slice(), "no JSON"))
}

#[test]
fn what_is_out_of_order_nests_127_deep_at_most(rt: HostRuntime) -> Result<(), Fail> {
    assert!(rt; ends_at_127(rt.alloc())?);
    Ok(())
}

#[test]
fn what_is_no_text_is_no_json(rt: HostRuntime) -> Result<(), Fail> {
    assert!(rt;
        is_given(rt.alloc(), b"{\"b\":1,\"a\":\"\xff\"}", "no JSON")
            && is_given(rt.alloc(), b"", "no JSON")
    );
    Ok(())
}

// An object with this many members, whose names are numbers of five digits, up or down.
fn numbered(rt: &HostRuntime, count: u64, down: bool) -> Result<String, Fail> {
    let mut text = String::from_str(rt.alloc(), "{")?;
    for at in 0..count {
        let number = if down { count - 1 - at } else { at };
        if at > 0 {
            text.push_str(",")?;
        }
        text.push_str("\"")?;
        text.push_str(&number.saturating_add(10000).to_string(rt.alloc())?)?;
        text.push_str("\":0")?;
    }
    text.push_str("}")?;
    Ok(text)
}

// A few unordered names are moved to their places, more are sorted.
#[test]
fn names_may_come_in_the_worst_order(rt: HostRuntime) -> Result<(), Fail> {
    for count in [2, 64, 65, 66, 200] {
        let given = numbered(&rt, count, true)?;
        let wanted = numbered(&rt, count, false)?;
        let text = canonical_text(rt.alloc(), given.as_bytes())?;
        assert_eq!(rt; text.as_slice(), wanted.as_bytes());
    }
    Ok(())
}
