use super::{PATCHES, framed, is_taken, json, params, patches_make};
use st_base::read_number;
use st_canon::Json;
use st_doc::Document;
use std::alloc::Global;
use std::test::Fail;

// The parts of the patches: `x` repeated until the whole has the wanted number of bytes, or objects
// that nest to the wanted depth.
const LONG: &str = r#"{"id":"s","serviceEndpoint":{"a":"%"},"type":"T"}"#;

const DEEP: &str = r#"{"id":"s","serviceEndpoint":%,"type":"T"}"#;

const ADDS: &str = r#"[{"action":"add-services","services":[%]}]"#;

const REPLACES: &str = r#"[{"action":"replace","document":{"services":[%]}}]"#;

const ADDS_LONG: &str =
    r#"{"patches":[{"action":"add-services","services":[{"id":"s","serviceEndpoint":{"a":"%"},"type":"T"}]}],"updateCommitment":"EiC6eBa_jwHP6kFBQN5driIjsANho5YXepy0EP9h8gAVrQ"}"#;

// Version, the answer to a delta of this many bytes, that number.
const SIZES: &str = "1  accepted  1000
1  too long  1001
2  accepted  2000
2  too long  2001";

// The use of a service whose endpoint nests this deep in a patch, the answer to its delta, that
// number.
const DEPTHS: &str = "adds  accepted  59
adds  bad delta  60
replaces  accepted  29
replaces  bad patch 0  30
adds  accepted  30";

fn number(text: &str) -> Option<usize> {
    Some(read_number(text.as_bytes(), 100_000)? as usize)
}

// The frame, with `x` repeated in place of `%` until the whole has this many bytes.
fn of_size(alloc: Global, frame: &str, size: usize) -> Option<String> {
    let signs = "x"
        .repeat(alloc, size.saturating_add(1).saturating_sub(frame.len()))
        .ok()?;
    frame.replace(alloc, "%", signs.as_str()).ok()
}

// An object in an object, and so on, this deep.
fn nested(alloc: Global, depth: usize) -> Option<String> {
    let around = depth.saturating_sub(1);
    let before = "{\"a\":".repeat(alloc, around).ok()?;
    let behind = "}".repeat(alloc, around).ok()?;
    format!(in alloc; "{}{{}}{}", before.as_str(), behind.as_str()).ok()
}

// A patch that adds a service whose endpoint nests this deep, or a document with it.
fn deep_patch(alloc: Global, does: &str, depth: usize) -> Option<String> {
    let endpoint = nested(alloc, depth)?;
    let service = DEEP.replace(alloc, "%", endpoint.as_str()).ok()?;
    let frame = if does == "adds" { ADDS } else { REPLACES };
    frame.replace(alloc, "%", service.as_str()).ok()
}

fn has_size_so(alloc: Global, size: &str, version: &str, taken: &str) -> bool {
    let Some(size) = number(size) else {
        return false;
    };
    match of_size(alloc, ADDS_LONG, size) {
        Some(text) => match json(alloc, text.as_str()) {
            Some(value) => text.len() == size && is_taken(alloc, value, &params(version), taken),
            None => false,
        },
        None => false,
    }
}

fn has_depth_so(alloc: Global, depth: &str, does: &str, taken: &str) -> bool {
    let Some(depth) = number(depth) else {
        return false;
    };
    match deep_patch(alloc, does, depth) {
        Some(patches) => match framed(alloc, PATCHES, patches.as_str()) {
            Some(value) => is_taken(alloc, value, &params("1"), taken),
            None => false,
        },
        None => false,
    }
}

fn parts_of(line: &str) -> Option<(&str, &str, &str)> {
    let (first, rest) = line.split_once("  ")?;
    let (second, third) = rest.split_once("  ")?;
    Some((first, second, third))
}

fn is_size_so(alloc: Global, line: &str) -> bool {
    match parts_of(line) {
        Some((version, taken, size)) => has_size_so(alloc, size, version, taken),
        None => false,
    }
}

fn is_depth_so(alloc: Global, line: &str) -> bool {
    match parts_of(line) {
        Some((does, taken, depth)) => has_depth_so(alloc, depth, does, taken),
        None => false,
    }
}

#[test]
fn a_delta_keeps_its_bounds_on_size(rt: HostRuntime) -> Result<(), Fail> {
    for line in SIZES.lines() {
        assert!(rt; is_size_so(rt.alloc(), line), "{line}");
    }
    Ok(())
}

#[test]
fn a_delta_and_a_document_in_it_keep_their_bounds_on_depth(rt: HostRuntime) -> Result<(), Fail> {
    for line in DEPTHS.lines() {
        assert!(rt; is_depth_so(rt.alloc(), line), "{line}");
    }
    Ok(())
}

// The document without keys, whose only service is this long.
fn with_long_service(alloc: Global, size: usize) -> Option<Json> {
    let service = of_size(alloc, LONG, size)?;
    framed(alloc, r#"{"services":[%]}"#, service.as_str())
}

fn is_document(alloc: Global, size: usize) -> bool {
    match with_long_service(alloc, size) {
        Some(value) => Document::read(alloc, &value, &params("1")).is_ok(),
        None => false,
    }
}

#[test]
fn a_document_has_at_most_16384_bytes(rt: HostRuntime) -> Result<(), Fail> {
    assert!(rt; is_document(rt.alloc(), 16_353) && !is_document(rt.alloc(), 16_354));
    Ok(())
}

// A service that is added must fit the bounds of a document when the patch is applied.
fn deep_service_fails(alloc: Global, value: &Json) -> bool {
    match deep_patch(alloc, "adds", 30) {
        Some(patches) => patches_make(alloc, value, patches.as_str(), &params("1"), "failed 0"),
        None => false,
    }
}

fn is_deep_in_the_document(alloc: Global) -> bool {
    match json(alloc, "{}") {
        Some(value) => deep_service_fails(alloc, &value),
        None => false,
    }
}

fn key_is_too_much(alloc: Global) -> bool {
    let key =
        r#"[{"action":"add-public-keys","publicKeys":[{"id":"k","publicKeyJwk":{},"type":"T"}]}]"#;
    match with_long_service(alloc, 16_353) {
        Some(value) => patches_make(alloc, &value, key, &params("1"), "failed 0"),
        None => false,
    }
}

#[test]
fn what_is_added_meets_the_bounds_of_a_document_when_it_is_applied(
    rt: HostRuntime,
) -> Result<(), Fail> {
    assert!(rt; is_deep_in_the_document(rt.alloc()) && key_is_too_much(rt.alloc()));
    Ok(())
}

// One patch that adds a list, and copies it twenty times after its own last entry.
fn growing(alloc: Global) -> Option<String> {
    let copied = r#",{"from":"/a","op":"copy","path":"/a/-"}"#
        .repeat(alloc, 20)
        .ok()?;
    let frame =
        r#"[{"action":"ietf-json-patch","patches":[{"op":"add","path":"/a","value":[]}%]}]"#;
    frame.replace(alloc, "%", copied.as_str()).ok()
}

// Whether it fails, in a delta of 958 bytes.
fn grows_too_far(alloc: Global, value: &Json) -> bool {
    match growing(alloc) {
        Some(patches) => {
            patches.len().saturating_add(PATCHES.len()) == 959
                && patches_make(alloc, value, patches.as_str(), &params("1"), "failed 0")
        }
        None => false,
    }
}

fn list_grows_too_far(alloc: Global) -> bool {
    match json(alloc, "{}") {
        Some(value) => grows_too_far(alloc, &value),
        None => false,
    }
}

#[test]
fn copies_of_a_list_into_itself_grow_past_the_bound(rt: HostRuntime) -> Result<(), Fail> {
    assert!(rt; list_grows_too_far(rt.alloc()));
    Ok(())
}
