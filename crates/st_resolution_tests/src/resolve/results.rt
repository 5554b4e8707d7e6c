use crate::made::{operation, packed};
use crate::words::three;
use st_apply::{DidState, apply};
use st_base::{Bytes, Copied, Work};
use st_hash::{Hash, hash256, read_hash};
use st_indexfiles::SuffixData;
use st_ops::Operation;
use st_params::Schedule;
use st_resolve::{Did, RenderRefused, read_did, render};
use std::alloc::Global;
use std::test::Fail;

// The hash texts of `abc` and of no bytes.
const OF_ABC: &str = "EiC6eBa_jwHP6kFBQN5driIjsANho5YXepy0EP9h8gAVrQ";

const OF_NOTHING: &str = "EiDjsMRCmPwcFJr79MiZb7kkJ65B5GSbk0yklZkbeFK4VQ";

// A delta that puts a document with an entry of each kind.
const DESCRIBING: &str =
    r#"{"patches":[{"action":"replace","document":{"alsoKnownAs":["https://a/"],"publicKeys":[{"id":"k1","publicKeyJwk":{"x":1},"purposes":["keyAgreement","authentication"],"type":"T"},{"controller":"did:example:c","id":"k2","publicKeyJwk":{},"purposes":["authentication"],"type":"U"}],"services":[{"id":"s1","serviceEndpoint":"https://example.com/","type":"T"}]}}],"updateCommitment":"EiC6eBa_jwHP6kFBQN5driIjsANho5YXepy0EP9h8gAVrQ"}"#;

// The state, the number of operations counted for its result, the identifier, and the result, in
// which `$` is the identifier. The long form has a delta that adds a service; the delta of the
// anchored create was not received.
const CASES: &str =
    r##"created 1 did:sidetree:EiATdX8Q5MV_plJJmuNAF_0nOfwoAX70r-tP5eSOPf86vA {"didDocument":{"id":"$"},"didDocumentMetadata":{"canonicalId":"$","method":{"published":true,"recoveryCommitment":"EiDjsMRCmPwcFJr79MiZb7kkJ65B5GSbk0yklZkbeFK4VQ"}}}
absent 0 did:sidetree:EiBPOn7LUBWUVhugbEAIr6R1y-FxzC7-zPzDYQOGJ1Lfyw NotFound
absent 1 did:sidetree:EiBPOn7LUBWUVhugbEAIr6R1y-FxzC7-zPzDYQOGJ1Lfyw:eyJkZWx0YSI6eyJwYXRjaGVzIjpbeyJhY3Rpb24iOiJhZGQtc2VydmljZXMiLCJzZXJ2aWNlcyI6W3siaWQiOiJzMSIsInNlcnZpY2VFbmRwb2ludCI6Imh0dHBzOi8vZXhhbXBsZS5jb20vIiwidHlwZSI6IlQifV19XSwidXBkYXRlQ29tbWl0bWVudCI6IkVpQzZlQmFfandIUDZrRkJRTjVkcmlJanNBTmhvNVlYZXB5MEVQOWg4Z0FWclEifSwic3VmZml4RGF0YSI6eyJkZWx0YUhhc2giOiJFaUE4WFY5akx4MnpMYUNhdFJkY3ZHQWRhM2MzVG1JVWJuLVpXamRpWTAyVlh3IiwicmVjb3ZlcnlDb21taXRtZW50IjoiRWlEanNNUkNtUHdjRkpyNzlNaVpiN2trSjY1QjVHU2JrMHlrbFprYmVGSzRWUSJ9fQ {"didDocument":{"id":"$","service":[{"id":"#s1","serviceEndpoint":"https://example.com/","type":"T"}]},"didDocumentMetadata":{"method":{"published":false,"recoveryCommitment":"EiDjsMRCmPwcFJr79MiZb7kkJ65B5GSbk0yklZkbeFK4VQ","updateCommitment":"EiC6eBa_jwHP6kFBQN5driIjsANho5YXepy0EP9h8gAVrQ"}}}
created 1 did:sidetree:EiBPOn7LUBWUVhugbEAIr6R1y-FxzC7-zPzDYQOGJ1Lfyw:eyJkZWx0YSI6eyJwYXRjaGVzIjpbeyJhY3Rpb24iOiJhZGQtc2VydmljZXMiLCJzZXJ2aWNlcyI6W3siaWQiOiJzMSIsInNlcnZpY2VFbmRwb2ludCI6Imh0dHBzOi8vZXhhbXBsZS5jb20vIiwidHlwZSI6IlQifV19XSwidXBkYXRlQ29tbWl0bWVudCI6IkVpQzZlQmFfandIUDZrRkJRTjVkcmlJanNBTmhvNVlYZXB5MEVQOWg4Z0FWclEifSwic3VmZml4RGF0YSI6eyJkZWx0YUhhc2giOiJFaUE4WFY5akx4MnpMYUNhdFJkY3ZHQWRhM2MzVG1JVWJuLVpXamRpWTAyVlh3IiwicmVjb3ZlcnlDb21taXRtZW50IjoiRWlEanNNUkNtUHdjRkpyNzlNaVpiN2trSjY1QjVHU2JrMHlrbFprYmVGSzRWUSJ9fQ {"didDocument":{"id":"$"},"didDocumentMetadata":{"canonicalId":"did:sidetree:EiBPOn7LUBWUVhugbEAIr6R1y-FxzC7-zPzDYQOGJ1Lfyw","method":{"published":true,"recoveryCommitment":"EiDjsMRCmPwcFJr79MiZb7kkJ65B5GSbk0yklZkbeFK4VQ"}}}
described 2 did:sidetree:EiATdX8Q5MV_plJJmuNAF_0nOfwoAX70r-tP5eSOPf86vA {"didDocument":{"alsoKnownAs":["https://a/"],"authentication":["#k1","#k2"],"id":"$","keyAgreement":["#k1"],"service":[{"id":"#s1","serviceEndpoint":"https://example.com/","type":"T"}],"verificationMethod":[{"controller":"$","id":"#k1","publicKeyJwk":{"x":1},"type":"T"},{"controller":"did:example:c","id":"#k2","publicKeyJwk":{},"type":"U"}]},"didDocumentMetadata":{"canonicalId":"$","method":{"published":true,"recoveryCommitment":"EiDjsMRCmPwcFJr79MiZb7kkJ65B5GSbk0yklZkbeFK4VQ","updateCommitment":"EiC6eBa_jwHP6kFBQN5driIjsANho5YXepy0EP9h8gAVrQ"}}}
deactivated 2 did:sidetree:EiATdX8Q5MV_plJJmuNAF_0nOfwoAX70r-tP5eSOPf86vA {"didDocument":{"id":"$"},"didDocumentMetadata":{"canonicalId":"$","deactivated":true,"method":{"published":true}}}"##;

fn hash(text: &str) -> Option<Hash> {
    read_hash(text.as_bytes()).ok()
}

// A create with a delta of this text, or with none.
fn create(alloc: Global, delta_hash: Hash, delta: Option<&str>) -> Option<Operation> {
    let suffix_data = SuffixData {
        delta_hash,
        recovery_commitment: hash(OF_NOTHING)?,
    };
    let delta = match delta {
        Some(text) => Some(packed(alloc, text)?),
        None => None,
    };
    Some(Operation::Create { suffix_data, delta })
}

// The state after one more operation.
fn stepped(
    alloc: Global,
    state: &DidState,
    operation: &Operation,
    work: &mut Work,
) -> Option<DidState> {
    let params = Schedule::with_second(0).newest();
    apply(alloc, state, operation, &params, work).ok()
}

fn begun(
    alloc: Global,
    delta_hash: Hash,
    delta: Option<&str>,
    work: &mut Work,
) -> Option<DidState> {
    let create = create(alloc, delta_hash, delta)?;
    stepped(alloc, &DidState::absent(), &create, work)
}

fn ended(alloc: Global, work: &mut Work) -> Option<DidState> {
    let create = operation(alloc, "create - r u a")?;
    let state = stepped(alloc, &DidState::absent(), &create, work)?;
    let deactivate = operation(alloc, "deactivate r - - -")?;
    stepped(alloc, &state, &deactivate, work)
}

fn state(alloc: Global, name: &str, work: &mut Work) -> Option<DidState> {
    match name {
        "created" => begun(alloc, hash(OF_ABC)?, None, work),
        "described" => {
            let delta_hash = hash256(DESCRIBING.as_bytes());
            begun(alloc, delta_hash, Some(DESCRIBING), work)
        }
        "deactivated" => ended(alloc, work),
        _ => Some(DidState::absent()),
    }
}

// Whether the result is the expected one, in which `$` is the identifier.
fn is_result(
    alloc: Global,
    answer: Result<Bytes, RenderRefused>,
    did: &str,
    expected: &str,
) -> bool {
    match answer {
        Ok(result) => is_text(alloc, result.as_slice(), did, expected),
        Err(RenderRefused::NotFound) => expected == "NotFound",
        Err(RenderRefused::WantOfMemory) => false,
    }
}

fn is_text(alloc: Global, text: &[u8], did: &str, expected: &str) -> bool {
    match expected.replace(alloc, "$", did) {
        Ok(expected) => text == expected.as_bytes(),
        Err(_) => false,
    }
}

fn copied_did(alloc: Global, text: &str) -> Option<Did> {
    let did = read_did(alloc, text.as_bytes(), 2).ok()?;
    did.copy(alloc).ok()
}

// Whether a copy of the identifier is rendered like this in the state of this name.
fn is_rendered(
    alloc: Global,
    text: &str,
    name: &str,
    expected: &str,
    work: &mut Work,
) -> Option<bool> {
    let did = copied_did(alloc, text)?;
    let state = state(alloc, name, work)?;
    let answer = render(alloc, &did, &state, &Schedule::new().newest(), work);
    Some(is_result(alloc, answer, text, expected))
}

pub(super) fn is_so(rt: &HostRuntime, line: &str) -> bool {
    let Some((state, counted, rest)) = three(line) else {
        return false;
    };
    let Some((text, expected)) = rest.split_once(' ') else {
        return false;
    };
    let mut work = Work::new(rt);
    is_rendered(rt.alloc(), text, state, expected, &mut work) == Some(true)
        && counted.parse() == Ok(work.applies())
}

#[test]
fn each_state_says_its_result(rt: HostRuntime) -> Result<(), Fail> {
    for line in CASES.lines() {
        assert!(rt; is_so(&rt, line), "{line}");
    }
    Ok(())
}
