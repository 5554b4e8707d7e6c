use super::{PATCHES, framed, is_taken, params};
use std::alloc::Global;
use std::test::Fail;

const ADDS_KEYS: &str =
    r#"{"patches":[{"action":"add-public-keys","publicKeys":[%]}],"updateCommitment":"EiC6eBa_jwHP6kFBQN5driIjsANho5YXepy0EP9h8gAVrQ"}"#;

const ADDS_SERVICES: &str =
    r#"{"patches":[{"action":"add-services","services":[%]}],"updateCommitment":"EiC6eBa_jwHP6kFBQN5driIjsANho5YXepy0EP9h8gAVrQ"}"#;

const ADDS_NAMES: &str =
    r#"{"patches":[{"action":"add-also-known-as","uris":[%]}],"updateCommitment":"EiC6eBa_jwHP6kFBQN5driIjsANho5YXepy0EP9h8gAVrQ"}"#;

// Each line is a version, the answer to a patch that adds these, and what it adds: keys, services,
// names.
const KEYS: &str = r#"2  accepted  {"id":"k","publicKeyJwk":{},"type":"T"}
2  accepted  {"controller":"c","id":"-_Az09","publicKeyJwk":{"x":1},"purposes":["authentication","assertionMethod","keyAgreement","capabilityInvocation","capabilityDelegation"],"type":"T"}
2  accepted  {"id":"k","publicKeyJwk":{},"purposes":[],"type":"T"}
2  bad patch 0  7
2  bad patch 0  {"publicKeyJwk":{},"type":"T"}
2  bad patch 0  {"id":"","publicKeyJwk":{},"type":"T"}
2  accepted  {"id":"aaaaaaaaaaaaaaaaaaaaaaaaaaaaaaaaaaaaaaaaaaaaaaaaaa","publicKeyJwk":{},"type":"T"}
2  bad patch 0  {"id":"aaaaaaaaaaaaaaaaaaaaaaaaaaaaaaaaaaaaaaaaaaaaaaaaaaa","publicKeyJwk":{},"type":"T"}
2  bad patch 0  {"id":"a.b","publicKeyJwk":{},"type":"T"}
2  bad patch 0  {"id":7,"publicKeyJwk":{},"type":"T"}
2  bad patch 0  {"id":"k","publicKeyJwk":{}}
2  bad patch 0  {"id":"k","publicKeyJwk":{},"type":""}
2  accepted  {"id":"k","publicKeyJwk":{},"type":"aaaaaaaaaaaaaaaaaaaaaaaaaaaaaaaaaaaaaaaaaaaaaaaaaaaaaaaaaaaaaaaaaaaaaaaaaaaaaaaaaaaaaaaaaaaaaaaaaaaa"}
2  bad patch 0  {"id":"k","publicKeyJwk":{},"type":"aaaaaaaaaaaaaaaaaaaaaaaaaaaaaaaaaaaaaaaaaaaaaaaaaaaaaaaaaaaaaaaaaaaaaaaaaaaaaaaaaaaaaaaaaaaaaaaaaaaaa"}
2  bad patch 0  {"id":"k","type":"T"}
2  bad patch 0  {"id":"k","publicKeyJwk":"x","type":"T"}
2  bad patch 0  {"id":"k","publicKeyJwk":{},"purposes":"authentication","type":"T"}
2  bad patch 0  {"id":"k","publicKeyJwk":{},"purposes":["Authentication"],"type":"T"}
2  bad patch 0  {"id":"k","publicKeyJwk":{},"purposes":["keyAgreement","keyAgreement"],"type":"T"}
2  bad patch 0  {"id":"k","publicKeyJwk":{},"purposes":["\n"],"type":"T"}
2  bad patch 0  {"controller":"","id":"k","publicKeyJwk":{},"type":"T"}
2  accepted  {"controller":"aaaaaaaaaaaaaaaaaaaaaaaaaaaaaaaaaaaaaaaaaaaaaaaaaaaaaaaaaaaaaaaaaaaaaaaaaaaaaaaaaaaaaaaaaaaaaaaaaaaaaaaaaaaaaaaaaaaaaaaaaaaaaaaaaaaaaaaaaaaaaaaaaaaaaaaaaaaaaaaaaaaaaaaaaaaaaaaaaaaaaaaaaaaaaaaaaaaaaaaa","id":"k","publicKeyJwk":{},"type":"T"}
2  bad patch 0  {"controller":"aaaaaaaaaaaaaaaaaaaaaaaaaaaaaaaaaaaaaaaaaaaaaaaaaaaaaaaaaaaaaaaaaaaaaaaaaaaaaaaaaaaaaaaaaaaaaaaaaaaaaaaaaaaaaaaaaaaaaaaaaaaaaaaaaaaaaaaaaaaaaaaaaaaaaaaaaaaaaaaaaaaaaaaaaaaaaaaaaaaaaaaaaaaaaaaaaaaaaaaaa","id":"k","publicKeyJwk":{},"type":"T"}
2  bad patch 0  {"id":"k","publicKeyJwk":{},"type":"T","x":1}
2  bad patch 0  {"id":"k","publicKeyJwk":{},"type":"T"},{"id":"k","publicKeyJwk":{},"type":"T"}"#;

const SERVICES: &str = r#"2  accepted  {"id":"s","serviceEndpoint":"e","type":"T"}
2  accepted  {"id":"s","serviceEndpoint":{"a":[]},"type":"T"}
2  accepted  {"id":"s","serviceEndpoint":"aaaaaaaaaaaaaaaaaaaaaaaaaaaaaaaaaaaaaaaaaaaaaaaaaaaaaaaaaaaaaaaaaaaaaaaaaaaaaaaaaaaaaaaaaaaaaaaaaaaa","type":"aaaaaaaaaaaaaaaaaaaaaaaaaaaaaa"}
2  bad patch 0  []
2  bad patch 0  {"serviceEndpoint":"e","type":"T"}
2  bad patch 0  {"id":"s s","serviceEndpoint":"e","type":"T"}
2  bad patch 0  {"id":"s","serviceEndpoint":"e","type":"aaaaaaaaaaaaaaaaaaaaaaaaaaaaaaa"}
2  bad patch 0  {"id":"s","serviceEndpoint":"e"}
2  bad patch 0  {"id":"s","type":"T"}
2  bad patch 0  {"id":"s","serviceEndpoint":"","type":"T"}
2  bad patch 0  {"id":"s","serviceEndpoint":"aaaaaaaaaaaaaaaaaaaaaaaaaaaaaaaaaaaaaaaaaaaaaaaaaaaaaaaaaaaaaaaaaaaaaaaaaaaaaaaaaaaaaaaaaaaaaaaaaaaaa","type":"T"}
2  bad patch 0  {"id":"s","serviceEndpoint":["e"],"type":"T"}
2  bad patch 0  {"id":"s","serviceEndpoint":"e","type":"T","x":1}
2  bad patch 0  {"id":"s","serviceEndpoint":"e","type":"T"},{"id":"s","serviceEndpoint":"f","type":"T"}
2  bad patch 0  {"id":"\u0001","serviceEndpoint":"e","type":"T"}
2  accepted  {"id":"s","serviceEndpoint":"[[[[[[[[[[[[[[[[[[[[[[[[[[[[[[[[[[[[[[[[[[[[[[[[[[[[[[[[[[[[[[[[[[[[","type":"T"}
2  accepted  {"id":"s","serviceEndpoint":"e","type":"\"\"\"\"\"\"\"\"\"\"\"\"\"\"\"\"\"\"\"\"\"\"\"\"\"\"\"\"\"\""}
2  bad patch 0  {"id":"s","serviceEndpoint":"e","type":"\"\"\"\"\"\"\"\"\"\"\"\"\"\"\"\"\"\"\"\"\"\"\"\"\"\"\"\"\"\"\""}"#;

const NAMES: &str = r#"2  accepted  "https://a/"
2  accepted  "aaaaaaaaaaaaaaaaaaaaaaaaaaaaaaaaaaaaaaaaaaaaaaaaaaaaaaaaaaaaaaaaaaaaaaaaaaaaaaaaaaaaaaaaaaaaaaaaaaaa"
2  bad patch 0  ""
2  bad patch 0  "aaaaaaaaaaaaaaaaaaaaaaaaaaaaaaaaaaaaaaaaaaaaaaaaaaaaaaaaaaaaaaaaaaaaaaaaaaaaaaaaaaaaaaaaaaaaaaaaaaaaa"
2  bad patch 0  7
2  bad patch 0  "a","a"
2  accepted  "a","b""#;

// Version, the answer, patches.
const FORMS: &str = r#"1  accepted  [{"action":"replace","document":{}}]
1  bad patch 0  [{}]
1  bad patch 0  [7]
1  bad patch 1  [{"action":"replace","document":{}},{"action":"no"}]
1  bad patch 0  [{"action":"replace","document":{},"x":1}]
1  bad patch 0  [{"action":"replace","document":[]}]
1  bad patch 0  [{"action":"replace","document":{"x":1}}]
1  bad patch 0  [{"action":"replace","document":{"services":{}}}]
1  bad patch 0  [{"action":"add-public-keys","publicKeys":{}}]
1  bad patch 0  [{"action":"add-services","publicKeys":[]}]
1  accepted  [{"action":"remove-public-keys","ids":["a","a"]},{"action":"remove-services","ids":[]}]
1  bad patch 0  [{"action":"remove-public-keys","ids":[""]}]
1  bad patch 0  [{"action":"remove-services","ids":[7]}]
1  accepted  [{"action":"ietf-json-patch","patches":[]}]
1  bad patch 0  [{"action":"ietf-json-patch","patches":[{"op":"remove"}]}]
1  bad patch 0  [{"action":"add-also-known-as","uris":[]}]
1  bad patch 0  [{"action":"remove-also-known-as","uris":[]}]
2  accepted  [{"action":"remove-also-known-as","uris":["a","a"]}]
2  bad patch 0  [{"action":"remove-also-known-as","uris":[""]}]
1  bad patch 0  [{"action":"replace","document":{"alsoKnownAs":[]}}]
2  accepted  [{"action":"replace","document":{"alsoKnownAs":["a"]}}]
2  bad patch 0  [{"action":"replace","document":{"alsoKnownAs":["a","a"]}}]
2  bad patch 0  [{"action":"replace","document":{"alsoKnownAs":[7]}}]"#;

// Version, the answer, delta. The last two have a hash text of SHA-512.
const DELTAS: &str =
    r#"1  accepted  {"patches":[],"updateCommitment":"EiC6eBa_jwHP6kFBQN5driIjsANho5YXepy0EP9h8gAVrQ"}
1  bad delta  []
1  bad delta  {"patches":[]}
1  bad delta  {"updateCommitment":"EiC6eBa_jwHP6kFBQN5driIjsANho5YXepy0EP9h8gAVrQ"}
1  bad delta  {"patches":{},"updateCommitment":"EiC6eBa_jwHP6kFBQN5driIjsANho5YXepy0EP9h8gAVrQ"}
1  bad delta  {"patches":[],"updateCommitment":"x"}
1  bad delta  {"patches":[],"updateCommitment":"\t"}
1  bad delta  {"patches":[],"updateCommitment":"EiC6eBa_jwHP6kFBQN5driIjsANho5YXepy0EP9h8gAVrQ","x":1}
1  bad delta  {"patches":[{}],"updateCommitment":7}
1  bad delta  {"patches":[],"updateCommitment":"E0DdrzWhk2F6usxBc0muIEExEub6TompfqIKnu7mS1XTmiGSmSonT8GoNro8I6P-671FTUQjZDzoDiqayU-lTKSf"}
2  accepted  {"patches":[],"updateCommitment":"E0DdrzWhk2F6usxBc0muIEExEub6TompfqIKnu7mS1XTmiGSmSonT8GoNro8I6P-671FTUQjZDzoDiqayU-lTKSf"}"#;

// Whether the answer to the frame is that of the line: a version, the answer, and the text for the
// frame.
fn is_so(alloc: Global, frame: &str, line: &str) -> bool {
    let Some((version, rest)) = line.split_once("  ") else {
        return false;
    };
    let Some((taken, text)) = rest.split_once("  ") else {
        return false;
    };
    match framed(alloc, frame, text) {
        Some(value) => is_taken(alloc, value, &params(version), taken),
        None => false,
    }
}

fn each_is_so(alloc: Global, frame: &str, lines: &'static str) -> Result<(), Fail> {
    for line in lines.lines() {
        if !is_so(alloc, frame, line) {
            return Err(Fail::from(line));
        }
    }
    Ok(())
}

#[test]
fn keys_have_their_form(rt: HostRuntime) -> Result<(), Fail> {
    each_is_so(rt.alloc(), ADDS_KEYS, KEYS)
}

#[test]
fn services_have_their_form(rt: HostRuntime) -> Result<(), Fail> {
    each_is_so(rt.alloc(), ADDS_SERVICES, SERVICES)
}

#[test]
fn names_have_their_form(rt: HostRuntime) -> Result<(), Fail> {
    each_is_so(rt.alloc(), ADDS_NAMES, NAMES)
}

#[test]
fn patches_have_their_forms_in_each_version(rt: HostRuntime) -> Result<(), Fail> {
    each_is_so(rt.alloc(), PATCHES, FORMS)
}

#[test]
fn deltas_have_their_form_in_each_version(rt: HostRuntime) -> Result<(), Fail> {
    each_is_so(rt.alloc(), "%", DELTAS)
}
