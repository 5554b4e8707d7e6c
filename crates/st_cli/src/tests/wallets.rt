use crate::tests::support::run_words;
use st_base::{Bytes, WantOfMemory};
use std::alloc::Global;
use std::test::Fail;

// A key whose seed is public makes an identifier, changes it and recovers it. Here and below, a
// Python program computed each hash text.
const WALLET: &str = concat!(
    "format 3 5 000102030405060708090a0b0c0d0e0f 202122232425262728292a2b2c2d2e2f303132333435363738393a3b3c3d3e3f\n",
    "create - {\"patches\":[{\"action\":\"add-services\",\"services\":[{\"id\":\"home\",\"serviceEndpoint\":\"https://example.com/\",\"type\":\"Home\"}]}],",
    "\"updateCommitment\":\"EiBwILo1hnHuzmW9MztdmK0ckgyvorLqlom2Q4tP9RRy1A\"}\n",
    "update EiCZDKR9P9gxyknSWWRwK86QelvkMh5D7oHcWq4tdIw3Ww 0123456789abcdef0123456789abcdef ",
    "{\"patches\":[{\"action\":\"add-services\",\"services\":[{\"id\":\"shop\",\"serviceEndpoint\":\"https://example.com/\",\"type\":\"Home\"}]}],",
    "\"updateCommitment\":\"EiDFqfOq-rCEoJUzoilhmzpxCfOEswJlqFUlLOt-BJZFgQ\"}\n",
    "recover EiCZDKR9P9gxyknSWWRwK86QelvkMh5D7oHcWq4tdIw3Ww - fedcba9876543210fedcba9876543210 ",
    "{\"patches\":[{\"action\":\"add-services\",\"services\":[{\"id\":\"new\",\"serviceEndpoint\":\"https://example.com/\",\"type\":\"Home\"}]}],",
    "\"updateCommitment\":\"EiBwILo1hnHuzmW9MztdmK0ckgyvorLqlom2Q4tP9RRy1A\"}\n",
    "left\n",
);

const RESOLVE: &str = "resolve did:sidetree:EiCZDKR9P9gxyknSWWRwK86QelvkMh5D7oHcWq4tdIw3Ww\n";

// The replies of the node to the anchors of the three batches, each followed by a resolution of the
// identifier.
const RESOLVED: &str = concat!(
    "anchored 0\n",
    "resolved {\"didDocument\":{\"id\":\"did:sidetree:EiCZDKR9P9gxyknSWWRwK86QelvkMh5D7oHcWq4tdIw3Ww\",",
    "\"service\":[{\"id\":\"#home\",\"serviceEndpoint\":\"https://example.com/\",\"type\":\"Home\"}]}",
    ",\"didDocumentMetadata\":{\"canonicalId\":\"did:sidetree:EiCZDKR9P9gxyknSWWRwK86QelvkMh5D7oHcWq4tdIw3Ww\",\"method\":{\"published\":true,\"recoveryCommitment\":\"EiC88VDoChJyvYXSXyqhfPQeHBrvFKK6oTC3QgIZ1Kgp-A\"",
    ",\"updateCommitment\":\"EiBwILo1hnHuzmW9MztdmK0ckgyvorLqlom2Q4tP9RRy1A\"}}}\n",
    "anchored 1\n",
    "resolved {\"didDocument\":{\"id\":\"did:sidetree:EiCZDKR9P9gxyknSWWRwK86QelvkMh5D7oHcWq4tdIw3Ww\",",
    "\"service\":[{\"id\":\"#home\",\"serviceEndpoint\":\"https://example.com/\",\"type\":\"Home\"},{\"id\":\"#shop\",\"serviceEndpoint\":\"https://example.com/\",\"type\":\"Home\"}]}",
    ",\"didDocumentMetadata\":{\"canonicalId\":\"did:sidetree:EiCZDKR9P9gxyknSWWRwK86QelvkMh5D7oHcWq4tdIw3Ww\",\"method\":{\"published\":true,\"recoveryCommitment\":\"EiC88VDoChJyvYXSXyqhfPQeHBrvFKK6oTC3QgIZ1Kgp-A\"",
    ",\"updateCommitment\":\"EiDFqfOq-rCEoJUzoilhmzpxCfOEswJlqFUlLOt-BJZFgQ\"}}}\n",
    "anchored 2\n",
    "resolved {\"didDocument\":{\"id\":\"did:sidetree:EiCZDKR9P9gxyknSWWRwK86QelvkMh5D7oHcWq4tdIw3Ww\",",
    "\"service\":[{\"id\":\"#new\",\"serviceEndpoint\":\"https://example.com/\",\"type\":\"Home\"}]}",
    ",\"didDocumentMetadata\":{\"canonicalId\":\"did:sidetree:EiCZDKR9P9gxyknSWWRwK86QelvkMh5D7oHcWq4tdIw3Ww\",\"method\":{\"published\":true,\"recoveryCommitment\":\"EiDFqfOq-rCEoJUzoilhmzpxCfOEswJlqFUlLOt-BJZFgQ\"",
    ",\"updateCommitment\":\"EiBwILo1hnHuzmW9MztdmK0ckgyvorLqlom2Q4tP9RRy1A\"}}}\n",
);

// The request in a reply of the wallet, after its suffix.
fn request_in(line: &str) -> Option<&str> {
    let rest = line.strip_prefix("request ")?;
    let (_suffix, request) = rest.split_once(' ')?;
    Some(request)
}

fn anchor_in(line: &str) -> Option<&str> {
    let rest = line.strip_prefix("batch ")?;
    let (anchor, _files) = rest.split_once(' ')?;
    Some(anchor)
}

// The lines with which a node makes a batch of each request in the replies of a wallet.
fn submits(alloc: Global, replies: &str) -> Result<Bytes, WantOfMemory> {
    let mut lines = Bytes::new(alloc);
    'replies: for reply in replies.lines() {
        if let Some(request) = request_in(reply) {
            lines.push_all(alloc, b"submit ")?;
            lines.push_all(alloc, request.as_bytes())?;
            lines.push_all(alloc, b"\nflush\n")?;
        }
    }
    Ok(lines)
}

// The lines that anchor each batch in the replies of a node, at height 1, and then resolve the
// identifier.
fn anchors(alloc: Global, replies: &str) -> Result<Bytes, WantOfMemory> {
    let mut lines = Bytes::new(alloc);
    'replies: for reply in replies.lines() {
        if let Some(anchor) = anchor_in(reply) {
            lines.push_all(alloc, b"anchor 1 ")?;
            lines.push_all(alloc, anchor.as_bytes())?;
            lines.push_all(alloc, b"\n")?;
            lines.push_all(alloc, RESOLVE.as_bytes())?;
        }
    }
    Ok(lines)
}

// The lines for a node from these replies of a wallet: it makes the batches, and they are anchored.
fn lines_for(rt: &HostRuntime, signed: &str) -> Result<Bytes, WantOfMemory> {
    let mut lines = submits(rt.alloc(), signed)?;
    let (_status, batches) = run_words(rt, "node", lines.as_slice())?;
    if let Ok(batches) = str::from_utf8(batches.as_slice()) {
        let more = anchors(rt.alloc(), batches)?;
        lines.push_all(rt.alloc(), more.as_slice())?;
    }
    Ok(lines)
}

fn are_taken(rt: &HostRuntime, signed: &str) -> Result<bool, WantOfMemory> {
    let lines = lines_for(rt, signed)?;
    let (status, replies) = run_words(rt, "node", lines.as_slice())?;
    Ok(status == 0 && replies.as_slice().ends_with(RESOLVED.as_bytes()))
}

// Whether a node accepts, anchors and resolves the wallet's signed requests; it has 30 of 32
// signatures left.
fn resolves_what_is_signed(rt: &HostRuntime) -> Result<bool, WantOfMemory> {
    let (status, replies) = run_words(rt, "wallet", WALLET.as_bytes())?;
    match str::from_utf8(replies.as_slice()) {
        Ok(signed) => Ok(status == 0 && signed.ends_with("left 30\n") && are_taken(rt, signed)?),
        Err(_) => Ok(false),
    }
}

#[test]
fn a_node_resolves_what_a_wallet_signs(rt: HostRuntime) -> Result<(), Fail> {
    assert!(rt; resolves_what_is_signed(&rt)?);
    Ok(())
}
