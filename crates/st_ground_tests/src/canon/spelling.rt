use super::is_respelled;
use st_base::{Bytes, WantOfMemory};
use st_canon::{read, write};
use st_plain::ReadRefused;
use std::alloc::Global;
use std::test::Fail;

// A text and its canonical text, two spaces apart. The first line is the sample of RFC 8785,
// section 3.2.2, without the numbers that are not whole.
const SPELLINGS: &str =
    r#"{"string":"\u20ac$\u000F\u000aA'\u0042\u0022\u005c\\\"\/","literals":[null,true,false]}  {"literals":[null,true,false],"string":"€$\u000f\nA'B\"\\\\\"/"}
{"ab":1,"":2,"a":3}  {"":2,"a":3,"ab":1}
"\u0008\u0009\u000a\u000c\u000d\u0000\u001f"  "\b\t\n\f\r\u0000\u001f"
"\u000a\u0062\u0063\u0022"  "\nbc\""
"\u0030123456\u005c"  "0123456\\"
"\u0030123456789abcd\u0022\u000a123456789abcde"  "0123456789abcd\"\n123456789abcde"
"\u0030123456789abcdef0123456789\u000aabcdef01\u001f"  "0123456789abcdef0123456789\nabcdef01\u001f"
[9007199254740991,-9007199254740991,0]  [9007199254740991,-9007199254740991,0]
{"a":1,"a":2}  {"a":2}
{"a":1.5,"a":2}  {"a":2}"#;

fn is_line(alloc: Global, line: &str) -> bool {
    match line.split_once("  ") {
        Some((text, canonical)) => is_respelled(alloc, text, canonical),
        None => false,
    }
}

const SPACED: &str = " [ 1 , -2 ,\ttrue,\nnull , { } , [ ] ]\r\n";

fn are_respelled(alloc: Global) -> bool {
    is_respelled(alloc, SPACED, "[1,-2,true,null,{},[]]")
        && is_respelled(alloc, "\"\\u007f\"", "\"\u{7f}\"")
}

#[test]
fn each_spelling_has_one_text(rt: HostRuntime) -> Result<(), Fail> {
    assert!(rt; are_respelled(rt.alloc()));
    for line in SPELLINGS.lines() {
        assert!(rt; is_line(rt.alloc(), line), "{line}");
    }
    Ok(())
}

// The sample of RFC 8785, section 3.2.3.
const UNSORTED: &str =
    "{\"\\u20ac\":\"Euro Sign\",\"\\r\":\"Carriage Return\",\"\\ufb33\":\"Hebrew Letter Dalet With Dagesh\",\"1\":\"One\",\"\\ud83d\\ude00\":\"Emoji: Grinning Face\",\"\\u0080\":\"Control\",\"\\u00f6\":\"Latin Small Letter O With Diaeresis\"}";

const SORTED: &str =
    "{\"\\r\":\"Carriage Return\",\"1\":\"One\",\"\u{80}\":\"Control\",\"\u{f6}\":\"Latin Small Letter O With Diaeresis\",\"\u{20ac}\":\"Euro Sign\",\"\u{1f600}\":\"Emoji: Grinning Face\",\"\u{fb33}\":\"Hebrew Letter Dalet With Dagesh\"}";

// The text of {"\u{fb33}":1,"\u{1f600}":2}, in bytes.
const PAIR: [u8; 18] = [
    0x7b, 0x22, 0xf0, 0x9f, 0x98, 0x80, 0x22, 0x3a, 0x32, 0x2c, 0x22, 0xef, 0xac, 0xb3, 0x22, 0x3a,
    0x31, 0x7d,
];

fn is_pair_written(alloc: Global) -> bool {
    match read(alloc, "{\"\u{fb33}\":1,\"\u{1f600}\":2}".as_bytes()) {
        Ok(pair) => match write(alloc, &pair) {
            Ok(written) => written.as_slice() == PAIR.as_slice(),
            Err(_) => false,
        },
        Err(_) => false,
    }
}

#[test]
fn names_are_sorted_by_utf16(rt: HostRuntime) -> Result<(), Fail> {
    assert!(rt; is_respelled(rt.alloc(), UNSORTED, SORTED) && is_pair_written(rt.alloc()));
    Ok(())
}

// Whether a text is read or refused, in a word.
fn refusal(alloc: Global, text: &[u8]) -> &'static str {
    match read(alloc, text) {
        Ok(_) => "read",
        Err(ReadRefused::NotJson) => "no JSON",
        Err(ReadRefused::NotWhole) => "not whole",
        Err(_) => "another",
    }
}

const NOT_JSON: &str = r#"
{
[1,]
{"a":1,}
{a:1}
'a'
01
+1
tru
1 2
[1.5,
1e400
[1.5,1e999]
"\ud800"
"\udc00x"
"\x""#;

const NOT_WHOLE: &str = r#"1.5
1.0
-0
1e2
[9007199254740992]
[-9007199254740992]
18446744073709551616
{"a":[0.1]}
1e-400"#;

const NO_BYTES_OF_JSON: [&[u8]; 4] = [
    b"\"\t\"",
    b"\"\xff\"",
    b"\"\xed\xa0\x80\"",
    b"\xef\xbb\xbf1",
];

fn each_is_refused(alloc: Global, texts: &'static str, refused: &str) -> Result<(), Fail> {
    for text in texts.lines() {
        if refusal(alloc, text.as_bytes()) != refused {
            return Err(Fail::from(text));
        }
    }
    Ok(())
}

fn are_no_json(alloc: Global) -> bool {
    for bytes in NO_BYTES_OF_JSON {
        if refusal(alloc, bytes) != "no JSON" {
            return false;
        }
    }
    true
}

#[test]
fn what_is_no_json_is_refused(rt: HostRuntime) -> Result<(), Fail> {
    assert!(rt; are_no_json(rt.alloc()));
    each_is_refused(rt.alloc(), NOT_JSON, "no JSON")
}

#[test]
fn what_is_not_whole_is_refused(rt: HostRuntime) -> Result<(), Fail> {
    each_is_refused(rt.alloc(), NOT_WHOLE, "not whole")
}

// Whether this many nested lists are read or refused.
fn nested(alloc: Global, deep: usize) -> Result<&'static str, WantOfMemory> {
    let mut text = Bytes::new(alloc);
    for _ in 0..deep {
        text.push_all(alloc, b"[")?;
    }
    for _ in 0..deep {
        text.push_all(alloc, b"]")?;
    }
    Ok(refusal(alloc, text.as_slice()))
}

fn ends_at_127(alloc: Global) -> Result<bool, WantOfMemory> {
    Ok(nested(alloc, 127)? == "read" && nested(alloc, 128)? == "no JSON")
}

#[test]
fn the_brackets_nest_127_deep_at_most(rt: HostRuntime) -> Result<(), Fail> {
    assert!(rt; ends_at_127(rt.alloc())?);
    Ok(())
}
