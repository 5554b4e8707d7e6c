use st_base::{Bytes, Copied, Shared, WantOfMemory};
use st_plain::canonical_text;
use st_scan::{CanonicalText, Entries, Scanned, entries_in, only_of};
use std::alloc::Global;
use std::test::Fail;

// A file with unordered members, and brackets, commas and marks in its texts.
const FILE: &str =
    r#"{ "text": "a\"],\\", "list": [ 1, "]}", { "c": "\"}" }, [], {} ], "object": { "y": [], "x": -70 },
    "empty": [], "none": null, "plain": "na\u00efve", "q\"": true }"#;

// Names, and the texts of their values. The last has none.
const MEMBERS: &str = r#"empty|[]
list|[1,"]}",{"c":"\"}"},[],{}]
none|null
object|{"x":-70,"y":[]}
plain|"naïve"
q"|true
text|"a\"],\\"
other|"#;

fn is(value: &Scanned<'_>, text: &str) -> bool {
    value.as_slice() == text.as_bytes()
}

fn has(file: &Scanned<'_>, name: &str, value: &str) -> bool {
    match file.member(name) {
        Some(found) => is(&found, value),
        None => value.is_empty(),
    }
}

fn has_line(file: &Scanned<'_>, line: &str) -> bool {
    match line.split_once('|') {
        Some((name, value)) => has(file, name, value),
        None => false,
    }
}

#[test]
fn members_are_found_by_name(rt: HostRuntime) -> Result<(), Fail> {
    let text = CanonicalText::read(rt.alloc(), FILE.as_bytes())?;
    for line in MEMBERS.lines() {
        assert!(rt; has_line(&text.root(), line), "{line}");
    }
    Ok(())
}

// Whether the members have these names in this order: a text, a list, and no more.
fn come_in_turn(file: &Scanned<'_>, first: &str, second: &str) -> bool {
    let Some(mut members) = file.members() else {
        return false;
    };
    let (Some(one), None, Some(other)) = (
        members.next_named(first),
        members.next_named(first),
        members.next_named(second),
    ) else {
        return false;
    };
    is(&one, "\"x\"") && is(&other, "[1]") && members.is_empty()
}

// Whether the members of these names are a text and a list, and there are no others.
fn are_both(file: &Scanned<'_>, text: &str, list: &str) -> bool {
    match file.both_members(text, list) {
        Some((one, other)) => is(&one, "\"x\"") && is(&other, "[1]"),
        None => false,
    }
}

#[test]
fn members_come_in_turn(rt: HostRuntime) -> Result<(), Fail> {
    let Ok(text) = CanonicalText::read(rt.alloc(), br#"{ "b\"": [1], "a": "x" }"#) else {
        return Err(Fail::from("no JSON"));
    };
    let file = text.root();
    assert!(rt; come_in_turn(&file, "a", "b\"") && are_both(&file, "a", "b\""));
    assert!(rt; file.both_members("a", "b").is_none());
    Ok(())
}

// Whether these are the texts of the entries, one on each line.
fn are(entries: &mut Entries<'_>, lines: &str) -> bool {
    for line in lines.lines() {
        match entries.next() {
            Some(entry) => {
                if !is(&entry, line) {
                    return false;
                }
            }
            None => return false,
        }
    }
    entries.next().is_none()
}

// Whether the list has these entries, and this many.
fn lists(alloc: Global, list: &str, lines: &str, count: usize) -> bool {
    match CanonicalText::read_json(alloc, list.as_bytes()) {
        Ok(Some(text)) => {
            let mut entries = entries_in(Some(text.root()));
            entries.count() == count && are(&mut entries.again(), lines) && are(&mut entries, lines)
        }
        _ => false,
    }
}

#[test]
fn entries_come_one_by_one(rt: HostRuntime) -> Result<(), Fail> {
    let lines = "-1\n\"[,\"\n[[2],{\"a\":[]}]\nfalse\n{}";
    assert!(rt;
        lists(
            rt.alloc(),
            "[-1, \"[,\", [[2], {\"a\": []}], false, {}]",
            lines,
            5
        ) && lists(rt.alloc(), "[]", "", 0)
            && lists(rt.alloc(), "{\"a\":[1]}", "", 0)
    );
    Ok(())
}

// Whether the JSON is this word, and without escapes if it should be.
fn is_word(alloc: Global, json: &str, word: &str, bare: bool) -> bool {
    let Ok(canonical) = CanonicalText::read(alloc, json.as_bytes()) else {
        return false;
    };
    let value = canonical.root();
    let is = match value.text(alloc) {
        Ok(Some(text)) => text.as_str() == word,
        _ => false,
    };
    let as_it_is = match value.bare_text() {
        Some(bytes) => bare && bytes == word.as_bytes(),
        None => !bare,
    };
    is && as_it_is && value.is_text_of(word) && !value.is_text_of("b")
}

#[test]
fn texts_are_told(rt: HostRuntime) -> Result<(), Fail> {
    assert!(rt;
        is_word(rt.alloc(), "\"na\\u00efve\"", "na\u{ef}ve", true)
            && is_word(rt.alloc(), "\"\"", "", true)
            && is_word(
                rt.alloc(),
                "\"\\u000a\\u0001\\\"\\\\ \\/\"",
                "\n\u{1}\"\\ /",
                false
            )
    );
    Ok(())
}

// Whether the text is this word, at any offset of the file.
fn is_kept(
    alloc: Global,
    value: &Scanned<'_>,
    file: &Shared<Bytes>,
    word: &str,
) -> Result<bool, WantOfMemory> {
    for at in [0, 1, 2, usize::MAX] {
        let Some(kept) = value.text_within(alloc, file, at)? else {
            return Ok(false);
        };
        let copied = kept.copy(alloc)?;
        if copied.as_str() != word || kept.as_slice() != word.as_bytes() {
            return Ok(false);
        }
    }
    Ok(true)
}

// The same for JSON that is a file by itself.
fn is_kept_of(alloc: Global, json: &str, word: &str) -> bool {
    let (Ok(canonical), Ok(bytes)) = (
        CanonicalText::read(alloc, json.as_bytes()),
        Bytes::from_slice(alloc, json.as_bytes()),
    ) else {
        return false;
    };
    match Shared::new(alloc, bytes) {
        Ok(file) => matches!(is_kept(alloc, &canonical.root(), &file, word), Ok(true)),
        Err(_) => false,
    }
}

#[test]
fn texts_may_be_kept_in_their_file(rt: HostRuntime) -> Result<(), Fail> {
    assert!(rt;
        is_kept_of(rt.alloc(), "\"na\u{ef}ve\"", "na\u{ef}ve")
            && is_kept_of(rt.alloc(), "\"\"", "")
            && is_kept_of(rt.alloc(), "\"a\\n\"", "a\n")
            && !is_kept_of(rt.alloc(), "1", "")
    );
    Ok(())
}

// Whether the test holds for a header and its lists, which are the only member.
fn has_shape(alloc: Global, json: &str, lists: &str) -> bool {
    let Ok(canonical) = CanonicalText::read(alloc, json.as_bytes()) else {
        return false;
    };
    let value = canonical.root();
    let Some(found) = value.only_member("lists") else {
        return lists.is_empty();
    };
    found.size() == lists.len()
        && found.as_slice() == lists.as_bytes()
        && value.is_object_of(&["none", "lists"])
        && found.is_object_of_lists(&["b", "a", "c"])
        && !found.is_object_of_lists(&["a", "c"])
        && only_of(entries_in(found.member("b"))).is_some()
        && only_of(entries_in(found.member("a"))).is_none()
}

#[test]
fn shapes_are_told(rt: HostRuntime) -> Result<(), Fail> {
    assert!(rt;
        has_shape(
            rt.alloc(),
            "{\"lists\": {\"b\": [{}], \"a\": [1, 2]}}",
            "{\"a\":[1,2],\"b\":[{}]}"
        ) && has_shape(rt.alloc(), "{\"lists\": {}, \"other\": 1}", "")
            && has_shape(rt.alloc(), "[]", "")
    );
    Ok(())
}

// The delta of a create that another program made. It has two opening brackets, so it nests at most
// three deep.
const DELTA: &str =
    "{\"patches\":[],\"updateCommitment\":\"EiA-HpZ-m3k-kI-OroPHTbqbzMzmpVNbS0Yr2ZlFN7_hXA\"}";

fn is_delta(delta: &Scanned<'_>) -> bool {
    delta.is_object_of(&["patches", "updateCommitment"])
        && delta.size() == 82
        && delta.depth_bound() == 3
}

#[test]
fn a_canonical_text_is_scanned_where_it_stands(rt: HostRuntime) -> Result<(), Fail> {
    let Ok(text) = canonical_text(rt.alloc(), DELTA.as_bytes()) else {
        return Err(Fail::from("no JSON"));
    };
    assert!(rt; is_delta(&Scanned::again(text.as_slice())));
    let kept = CanonicalText::again(Bytes::from_slice(rt.alloc(), text.as_slice())?);
    assert!(rt; is_delta(&kept.root()) && kept.as_slice() == DELTA.as_bytes());
    Ok(())
}
