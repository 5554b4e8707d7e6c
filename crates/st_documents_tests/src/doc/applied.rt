use super::{PATCHES, copies_make, framed, is_text, json, params, patches_make};
use st_canon::Json;
use st_doc::{Delta, Document, check_delta};
use st_params::Params;
use std::alloc::Global;
use std::test::Fail;

// Version, document, patches, and the document after them or the patch that fails.
const CASES: &str = r#"1  {}  []  {"publicKeys":[],"services":[]}
1  {"publicKeys":[],"services":[]}  [{"action":"add-public-keys","publicKeys":[{"id":"k2","publicKeyJwk":{},"type":"T"},{"id":"k1","publicKeyJwk":{},"type":"T"}]}]  {"publicKeys":[{"id":"k2","publicKeyJwk":{},"type":"T"},{"id":"k1","publicKeyJwk":{},"type":"T"}],"services":[]}
1  {"publicKeys":[{"id":"k1","publicKeyJwk":{},"type":"T"},{"id":"k2","publicKeyJwk":{},"type":"T"}],"services":[]}  [{"action":"add-public-keys","publicKeys":[{"id":"k3","publicKeyJwk":{},"type":"T"},{"id":"k1","publicKeyJwk":{},"type":"U"}]}]  {"publicKeys":[{"id":"k1","publicKeyJwk":{},"type":"U"},{"id":"k2","publicKeyJwk":{},"type":"T"},{"id":"k3","publicKeyJwk":{},"type":"T"}],"services":[]}
1  {"publicKeys":[{"id":"k1","publicKeyJwk":{},"type":"T"},{"id":"k2","publicKeyJwk":{},"type":"T"}],"services":[]}  [{"action":"remove-public-keys","ids":["k1","k9","k1"]}]  {"publicKeys":[{"id":"k2","publicKeyJwk":{},"type":"T"}],"services":[]}
1  {"publicKeys":[],"services":[{"id":"s1","serviceEndpoint":"e","type":"T"},{"id":"s2","serviceEndpoint":"e","type":"T"}]}  [{"action":"add-services","services":[{"id":"s3","serviceEndpoint":"e","type":"T"},{"id":"s2","serviceEndpoint":"f","type":"T"}]}]  {"publicKeys":[],"services":[{"id":"s1","serviceEndpoint":"e","type":"T"},{"id":"s2","serviceEndpoint":"f","type":"T"},{"id":"s3","serviceEndpoint":"e","type":"T"}]}
1  {"publicKeys":[{"id":"a","publicKeyJwk":{},"type":"T"}],"services":[{"id":"a","serviceEndpoint":"e","type":"T"}]}  [{"action":"remove-services","ids":["a"]}]  {"publicKeys":[{"id":"a","publicKeyJwk":{},"type":"T"}],"services":[]}
1  {"publicKeys":[{"id":"a","publicKeyJwk":{},"type":"T"}],"services":[{"id":"a","serviceEndpoint":"e","type":"T"}]}  [{"action":"replace","document":{"services":[{"id":"b","serviceEndpoint":"e","type":"T"}]}}]  {"publicKeys":[],"services":[{"id":"b","serviceEndpoint":"e","type":"T"}]}
1  {"publicKeys":[],"services":[]}  [{"action":"ietf-json-patch","patches":[{"op":"add","path":"/services/-","value":{"id":"s1","serviceEndpoint":"e","type":"T"}}]}]  {"publicKeys":[],"services":[{"id":"s1","serviceEndpoint":"e","type":"T"}]}
1  {"publicKeys":[],"services":[]}  [{"action":"ietf-json-patch","patches":[{"op":"remove","path":"/services"}]}]  {"publicKeys":[],"services":[]}
1  {"publicKeys":[],"services":[]}  [{"action":"ietf-json-patch","patches":[{"op":"add","path":"/x","value":1}]}]  failed 0
1  {"publicKeys":[],"services":[{"id":"s1","serviceEndpoint":"e","type":"T"}]}  [{"action":"ietf-json-patch","patches":[{"op":"copy","from":"/services/0","path":"/services/-"}]}]  failed 0
1  {"publicKeys":[],"services":[]}  [{"action":"ietf-json-patch","patches":[{"op":"replace","path":"","value":[]}]}]  failed 0
1  {"publicKeys":[],"services":[]}  [{"action":"add-services","services":[{"id":"s1","serviceEndpoint":"e","type":"T"}]},{"action":"ietf-json-patch","patches":[{"op":"remove","path":"/services/9"}]},{"action":"ietf-json-patch","patches":[{"op":"remove","path":"/no"}]}]  failed 1
2  {"alsoKnownAs":["b","a"]}  [{"action":"add-also-known-as","uris":["c","a"]}]  {"alsoKnownAs":["b","a","c"],"publicKeys":[],"services":[]}
2  {"alsoKnownAs":["b","a"]}  [{"action":"remove-also-known-as","uris":["b","c"]}]  {"alsoKnownAs":["a"],"publicKeys":[],"services":[]}
2  {"alsoKnownAs":["b"]}  [{"action":"remove-also-known-as","uris":["b"]}]  {"publicKeys":[],"services":[]}
2  {}  [{"action":"ietf-json-patch","patches":[{"op":"add","path":"/alsoKnownAs","value":["a"]}]}]  {"alsoKnownAs":["a"],"publicKeys":[],"services":[]}
1  {}  [{"action":"ietf-json-patch","patches":[{"op":"add","path":"/alsoKnownAs","value":["a"]}]}]  failed 0"#;

// A document, and patches the second of which fails on it.
const SERVICE: &str = r#"{"services":[{"id":"s0","serviceEndpoint":"e","type":"T"}]}"#;

const FAILING: &str =
    r#"[{"action":"add-services","services":[{"id":"s1","serviceEndpoint":"e","type":"T"}]},{"action":"ietf-json-patch","patches":[{"op":"remove","path":"/services/9"}]}]"#;

fn texts_make(alloc: Global, value: &str, patches: &str, version: &str, made: &str) -> bool {
    match json(alloc, value) {
        Some(value) => patches_make(alloc, &value, patches, &params(version), made),
        None => false,
    }
}

// Whether the result is that of the line, whose parts are two spaces apart.
fn comes_out(alloc: Global, line: &str) -> bool {
    let Some((version, rest)) = line.split_once("  ") else {
        return false;
    };
    let Some((value, rest)) = rest.split_once("  ") else {
        return false;
    };
    match rest.split_once("  ") {
        Some((patches, made)) => texts_make(alloc, value, patches, version, made),
        None => false,
    }
}

#[test]
fn each_patch_does_what_its_action_says(rt: HostRuntime) -> Result<(), Fail> {
    for line in CASES.lines() {
        assert!(rt; comes_out(rt.alloc(), line), "{line}");
    }
    Ok(())
}

// Whether the second of its two patches fails, and the document is unchanged.
fn second_fails(alloc: Global, document: &Document, delta: &Delta, params: &Params) -> bool {
    delta.patches.len() == 2
        && copies_make(alloc, document, delta, params, "failed 1")
        && document.services().len() == 1
}

fn delta_fails(alloc: Global, document: &Document, params: &Params) -> bool {
    match framed(alloc, PATCHES, FAILING) {
        Some(delta) => match check_delta(alloc, &delta, params) {
            Ok(delta) => second_fails(alloc, document, &delta, params),
            Err(_) => false,
        },
        None => false,
    }
}

fn all_fail(alloc: Global, value: &Json, params: &Params) -> bool {
    match Document::read(alloc, value, params) {
        Ok(document) => delta_fails(alloc, &document, params),
        Err(_) => false,
    }
}

fn one_fails_them_all(alloc: Global) -> bool {
    match json(alloc, SERVICE) {
        Some(value) => all_fail(alloc, &value, &params("1")),
        None => false,
    }
}

#[test]
fn a_failing_patch_fails_them_all(rt: HostRuntime) -> Result<(), Fail> {
    assert!(rt; one_fails_them_all(rt.alloc()));
    Ok(())
}

fn is_empty(alloc: Global, document: &Document) -> bool {
    document.keys().is_empty()
        && document.names().is_empty()
        && is_text(alloc, document, r#"{"publicKeys":[],"services":[]}"#)
}

fn the_empty_is(alloc: Global) -> bool {
    let document = Document::empty(alloc);
    is_empty(alloc, &document)
}

#[test]
fn the_empty_document_has_two_empty_lists(rt: HostRuntime) -> Result<(), Fail> {
    assert!(rt; the_empty_is(rt.alloc()));
    Ok(())
}
