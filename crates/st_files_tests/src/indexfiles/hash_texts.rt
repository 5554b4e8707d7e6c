use super::{OF_ABC, SHA_512, text_of};
use st_base::Bytes;
use st_canon::{Json, write};
use st_hash::{Hash, SHA_512 as SHA_512_CODE, hash_with, hash256};
use st_indexfiles::{hash_in, hash_json};
use st_scan::CanonicalText;
use std::alloc::Global;
use std::test::Fail;

// The hash text of `abc` by SHA-256 with escapes.
const ESCAPED: &str = r#""\u0045iC6eBa_jwHP6kFBQN5driIjsANho5YXepy0EP9h8gAVr\u0051""#;

// Values that are not hash texts of any version.
const OTHERS: &str = r#"null
true
7
[]
{}
""
"x"
"\n"
"\u0000iC6eBa_jwHP6kFBQN5driIjsANho5YXepy0EP9h8gAVrQ"
"EiC6eBa_jwHP6kFBQN5driIjsANho5YXepy0EP9h8gAVr\\"
"EiC6eBa_jwHP6kFBQN5driIjsANho5YXepy0EP9h8gAVrQ\""
["EiC6eBa_jwHP6kFBQN5driIjsANho5YXepy0EP9h8gAVrQ"]"#;

fn is_quoted(alloc: Global, value: &Json, text: &str) -> bool {
    match write(alloc, value) {
        Ok(written) => match format!(in alloc; "\"{text}\"") {
            Ok(quoted) => written.as_slice() == quoted.as_bytes(),
            Err(_) => false,
        },
        Err(_) => false,
    }
}

// Whether the value is read as the hash in version 2, and in version 1 if expected.
fn is_read(alloc: Global, value: &Json, hash: &Hash, in_first: bool) -> bool {
    match write(alloc, value) {
        Ok(written) => is_read_from(alloc, &written, hash, in_first),
        Err(_) => false,
    }
}

fn is_read_from(alloc: Global, written: &Bytes, hash: &Hash, in_first: bool) -> bool {
    match text_of(alloc, written) {
        Some(text) => {
            hash_in(Some(text.root()), 2) == Some(*hash)
                && hash_in(Some(text.root()), 1).is_some() == in_first
        }
        None => false,
    }
}

// Whether the hash is written as this text, and read again in version 2, and in version 1 only if
// it is of SHA-256.
fn is_hash_text(alloc: Global, hash: &Hash, text: &str, in_first: bool) -> bool {
    match hash_json(alloc, hash) {
        Ok(value) => is_quoted(alloc, &value, text) && is_read(alloc, &value, hash, in_first),
        Err(_) => false,
    }
}

fn are_hash_texts(alloc: Global) -> bool {
    is_hash_text(alloc, &hash256(b"abc"), OF_ABC, true)
        && is_hash_text(alloc, &hash_with(b"abc", SHA_512_CODE), SHA_512, false)
        && hash_in(None, 2).is_none()
}

#[test]
fn a_hash_text_stands_as_json(rt: HostRuntime) -> Result<(), Fail> {
    assert!(rt; are_hash_texts(rt.alloc()));
    Ok(())
}

// The hash of this JSON in version 2.
fn read_of(alloc: Global, json: &str) -> Option<Hash> {
    let text = CanonicalText::read_json(alloc, json.as_bytes()).ok()??;
    hash_in(Some(text.root()), 2)
}

#[test]
fn a_hash_text_may_be_spelled_with_escapes(rt: HostRuntime) -> Result<(), Fail> {
    assert!(rt; read_of(rt.alloc(), ESCAPED) == Some(hash256(b"abc")));
    Ok(())
}

fn first_hash_text(alloc: Global) -> Option<&'static str> {
    for line in OTHERS.lines() {
        if read_of(alloc, line).is_some() {
            return Some(line);
        }
    }
    None
}

#[test]
fn what_is_no_hash_text_is_read_as_none(rt: HostRuntime) -> Result<(), Fail> {
    match first_hash_text(rt.alloc()) {
        Some(line) => Err(Fail::from(line)),
        None => Ok(()),
    }
}
