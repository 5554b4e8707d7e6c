use super::{is_header, object};
use st_canon::{
    Json, Object, entries_in, is_list_if_there, is_text_if_there, read, read_json, some_object,
};
use std::alloc::Global;
use std::test::Fail;

// The kind of a value, in a word.
fn header(alloc: Global, text: &str) -> &'static str {
    match read(alloc, text.as_bytes()) {
        Ok(json) => if is_header(&json) { "header" } else { "other" },
        Err(_) => "unread",
    }
}

const HEADERS: &str = r#"header {"alg":"LMS","kid":"k"}
header {"alg":"LMS"}
other []
other {"alg":1}
other {"alg":"LMS","kid":null}
other {"alg":"LMS","typ":"k"}"#;

#[test]
fn a_shape_is_told(rt: HostRuntime) -> Result<(), Fail> {
    for line in HEADERS.lines() {
        let (word, text) = line.split_once(' ').ok_or(line)?;
        assert!(rt; header(rt.alloc(), text) == word, "{line}");
    }
    Ok(())
}

const KINDS: &str = "{\"t\":\"x\",\"l\":[1],\"o\":{}}";

fn has_texts(members: &Object) -> bool {
    members.text("t") == Some("x") && members.text("l").is_none()
}

fn finds_members(alloc: Global) -> bool {
    match object(alloc, KINDS) {
        Some(members) => has_texts(&members) && !members.is_empty(),
        None => false,
    }
}

#[test]
fn members_are_found_by_kind(rt: HostRuntime) -> Result<(), Fail> {
    assert!(rt; finds_members(rt.alloc()));
    Ok(())
}

fn are_of_their_kind(value: &Json) -> bool {
    is_text_if_there(value.member("t"))
        && is_text_if_there(value.member("z"))
        && is_list_if_there(value.member("l"))
        && !is_list_if_there(value.member("t"))
}

fn have_entries(value: &Json) -> bool {
    entries_in(value.member("l")).len() == 1 && entries_in(value.member("o")).is_empty()
}

fn finds_kinds(alloc: Global) -> bool {
    match read(alloc, KINDS.as_bytes()) {
        Ok(value) => are_of_their_kind(&value) && have_entries(&value),
        Err(_) => false,
    }
}

#[test]
fn what_may_be_absent_is_of_its_kind(rt: HostRuntime) -> Result<(), Fail> {
    assert!(rt; finds_kinds(rt.alloc()));
    Ok(())
}

fn is_of_its_names(alloc: Global) -> bool {
    match read_json(alloc, b"{\"operations\":{\"create\":[null]}}") {
        Ok(Some(value)) => value.is_object_of(&["operations"]) && !value.is_object_of(&["create"]),
        _ => false,
    }
}

fn is_nothing_read(alloc: Global) -> bool {
    matches!(read_json(alloc, b"1.5"), Ok(None))
}

// The rest of an object, in a word.
fn left(alloc: Global, text: &str) -> &'static str {
    match object(alloc, text) {
        Some(object) => word(some_object(object)),
        None => "unread",
    }
}

fn word(json: Option<Json>) -> &'static str {
    match json {
        Some(Json::Object(_)) => "object",
        Some(_) => "other",
        None => "none",
    }
}

// Empty members are left out.
fn are_left(alloc: Global) -> bool {
    left(alloc, "{}") == "none" && left(alloc, "{\"a\":1}") == "object"
}

#[test]
fn an_object_is_of_its_names(rt: HostRuntime) -> Result<(), Fail> {
    let alloc = rt.alloc();
    assert!(rt; is_of_its_names(alloc) && is_nothing_read(alloc) && are_left(alloc));
    Ok(())
}
