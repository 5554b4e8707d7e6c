use st_base::{Bytes, WantOfMemory};
use st_content::{Content, Put};
use st_hash::{Hash, SHA_512, hash_text, hash_with, hash256};
use std::alloc::Global;
use std::test::Fail;

// The hash text of `abc`.
const OF_ABC: &str = "EiC6eBa_jwHP6kFBQN5driIjsANho5YXepy0EP9h8gAVrQ";

// Whether a file of these bytes is put at this URI, and was there or not.
fn is_put(
    alloc: Global,
    content: &mut Content,
    bytes: &[u8],
    uri: &Hash,
    found: Put,
) -> Result<bool, WantOfMemory> {
    let (named, put) = content.put(alloc, Bytes::from_slice(alloc, bytes)?)?;
    Ok(named == *uri && put == found)
}

fn are_put(alloc: Global, content: &mut Content, uri: &Hash) -> Result<bool, WantOfMemory> {
    Ok(
        is_put(alloc, content, b"abc", uri, Put::New)?
            && is_put(alloc, content, b"abc", uri, Put::Had)?
            && is_put(alloc, content, b"", &hash256(b""), Put::New)?,
    )
}

fn stays(alloc: Global) -> Result<bool, WantOfMemory> {
    let mut content = Content::new(alloc);
    let uri = hash256(b"abc");
    Ok(
        hash_text(alloc, &uri)?.as_str() == OF_ABC
            && are_put(alloc, &mut content, &uri)?
            && is_file(&content, &uri, b"abc")
            && content.get(&hash256(b"{}")).is_none()
            && content.get(&hash_with(b"abc", SHA_512)).is_none(),
    )
}

fn is_file(content: &Content, uri: &Hash, bytes: &[u8]) -> bool {
    match content.get(uri) {
        Some(file) => file.get().as_slice() == bytes,
        None => false,
    }
}

#[test]
fn the_first_file_of_a_uri_stays(rt: HostRuntime) -> Result<(), Fail> {
    assert!(rt; stays(rt.alloc())?);
    Ok(())
}
