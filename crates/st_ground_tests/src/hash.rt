use st_base::{Copied, List, WantOfMemory};
use st_hash::{
    BadHash, DecRefused, Hash, SHA_256, SHA_512, dec, enc, hash_text, hash_with, hash256,
    read_fixed, read_hash, read_hash_at, rehash, uri_of,
};
use std::alloc::Global;
use std::test::Fail;

// The SHA-512 example of FIPS 180-4 for `abc`, as a hash text.
const SHA_512_OF_ABC: &str =
    "E0DdrzWhk2F6usxBc0muIEExEub6TompfqIKnu7mS1XTmiGSmSonT8GoNro8I6P-671FTUQjZDzoDiqayU-lTKSf";

fn has_text(alloc: Global, hash: &Hash, text: &str) -> bool {
    match hash_text(alloc, hash) {
        Ok(written) => written.as_str() == text,
        Err(_) => false,
    }
}

// Whether the hash of the bytes has this text, and is read from it again.
fn is_written(alloc: Global, bytes: &[u8], text: &str) -> bool {
    let hash = hash256(bytes);
    has_text(alloc, &hash, text)
        && uri_of(bytes) == hash
        && hash_with(bytes, SHA_256) == hash
        && read_hash(text.as_bytes()) == Ok(hash)
        && read_hash_at(text.as_bytes(), 1) == Ok(hash)
        && read_hash_at(text.as_bytes(), 2) == Ok(hash)
}

// The hash texts of no bytes, of `abc` and of `{}`.
#[test]
fn a_hash_text_is_written_and_read_again(rt: HostRuntime) -> Result<(), Fail> {
    let alloc = rt.alloc();
    assert!(rt; is_written(alloc, b"", "EiDjsMRCmPwcFJr79MiZb7kkJ65B5GSbk0yklZkbeFK4VQ"));
    assert!(rt;
        is_written(
            alloc,
            b"abc",
            "EiC6eBa_jwHP6kFBQN5driIjsANho5YXepy0EP9h8gAVrQ"
        )
    );
    assert!(rt;
        is_written(
            alloc,
            b"{}",
            "EiBEE2-jVbNnihFGrRb36GSelPtPwh_nfoMQwGD2HKr_ig"
        )
    );
    Ok(())
}

fn is_sha_512_of_abc(alloc: Global, hash: &Hash) -> bool {
    hash.code() == 0x13
        && hash.digest().len() == 64
        && has_text(alloc, hash, SHA_512_OF_ABC)
        && read_hash(SHA_512_OF_ABC.as_bytes()) == Err(BadHash)
        && read_hash_at(SHA_512_OF_ABC.as_bytes(), 1) == Err(BadHash)
        && read_hash_at(SHA_512_OF_ABC.as_bytes(), 2) == Ok(*hash)
}

#[test]
fn a_sha_512_text_is_read_at_version_2_alone(rt: HostRuntime) -> Result<(), Fail> {
    assert!(rt; is_sha_512_of_abc(rt.alloc(), &hash_with(b"abc", SHA_512)));
    Ok(())
}

// The SHA-256 example of FIPS 180-4 for `abc`.
#[test]
fn a_digest_is_sha_256(rt: HostRuntime) -> Result<(), Fail> {
    let hash = hash256(b"abc");
    assert!(rt; hash.code() == 0x12);
    assert!(rt;
        hash.digest()
            == b"\xba\x78\x16\xbf\x8f\x01\xcf\xea\x41\x41\x40\xde\x5d\xae\x22\x23\xb0\x03\x61\xa3\x96\x17\x7a\x9c\xb4\x10\xff\x61\xf2\x00\x15\xad".as_slice()
    );
    Ok(())
}

#[test]
fn a_digest_is_hashed_again_with_its_algorithm(rt: HostRuntime) -> Result<(), Fail> {
    assert!(rt;
        has_text(
            rt.alloc(),
            &rehash(&hash256(b"abc")),
            "EiBPi0LCLdNym1GbpvaNLafMWy1gbQXa7VrVEozAPmxjWA"
        )
    );
    assert!(rt;
        has_text(
            rt.alloc(),
            &rehash(&hash_with(b"abc", SHA_512)),
            "E0A3Op86kCz1YQA7UTyUxRZLpK8TXLxOtNhWuJ6lYJUj8TC75eRT5sZFsnZaJlqusTkMgskTEwhwY2zQyOz5gNhR"
        )
    );
    Ok(())
}

fn is_copied(alloc: Global) -> Result<bool, WantOfMemory> {
    let mut hashes = List::new(alloc);
    hashes.push(alloc, hash256(b"abc"))?;
    let copied = hashes.copy(alloc)?;
    Ok(copied.as_slice() == [hash256(b"abc")].as_slice())
}

// The digest of `abc` starts with 0xba, and that of `{}` with 0x44.
#[test]
fn hashes_are_copied_and_ordered_by_code_and_digest(rt: HostRuntime) -> Result<(), Fail> {
    assert!(rt; is_copied(rt.alloc())?);
    assert!(rt; hash256(b"{}") < hash256(b"abc"));
    assert!(rt; hash256(b"abc") < hash_with(b"abc", SHA_512));
    Ok(())
}

fn is_refused(text: &[u8]) -> bool {
    read_hash(text) == Err(BadHash) && read_hash_at(text, 2) == Err(BadHash)
}

// For `abc`, in turn: the last character has spare bits that are not zero; padding; the other
// alphabet; a space; one character fewer or more; the code 0x13 or the length 0x21 in a text of 46
// characters; the code 0x12 or 0x14 or the length 0x20 in one of 88; a digest of 63 or 65 bytes.
#[test]
fn a_hash_text_has_one_spelling(rt: HostRuntime) -> Result<(), Fail> {
    let refused = "
e31
EiC6eBa_jwHP6kFBQN5driIjsANho5YXepy0EP9h8gAVrR
EiC6eBa_jwHP6kFBQN5driIjsANho5YXepy0EP9h8gAVrQ==
EiC6eBa/jwHP6kFBQN5driIjsANho5YXepy0EP9h8gAVrQ
EiC6eBa_jwHP6kFBQN5driIjsANho5YXepy0EP9h8gAVr 
EiC6eBa_jwHP6kFBQN5driIjsANho5YXepy0EP9h8gAVr
EiC6eBa_jwHP6kFBQN5driIjsANho5YXepy0EP9h8gAVrQA
EyC6eBa_jwHP6kFBQN5driIjsANho5YXepy0EP9h8gAVrQ
EiG6eBa_jwHP6kFBQN5driIjsANho5YXepy0EP9h8gAVrQ
EkDdrzWhk2F6usxBc0muIEExEub6TompfqIKnu7mS1XTmiGSmSonT8GoNro8I6P-671FTUQjZDzoDiqayU-lTKSf
FEDdrzWhk2F6usxBc0muIEExEub6TompfqIKnu7mS1XTmiGSmSonT8GoNro8I6P-671FTUQjZDzoDiqayU-lTKSf
EyDdrzWhk2F6usxBc0muIEExEub6TompfqIKnu7mS1XTmiGSmSonT8GoNro8I6P-671FTUQjZDzoDiqayU-lTKSf
E0DdrzWhk2F6usxBc0muIEExEub6TompfqIKnu7mS1XTmiGSmSonT8GoNro8I6P-671FTUQjZDzoDiqayU-lTKQ
E0DdrzWhk2F6usxBc0muIEExEub6TompfqIKnu7mS1XTmiGSmSonT8GoNro8I6P-671FTUQjZDzoDiqayU-lTKSfAA";
    for text in refused.lines() {
        assert!(rt; is_refused(text.as_bytes()), "{text}");
    }
    Ok(())
}

#[test]
fn so_many_bytes_are_read_and_no_other_number(rt: HostRuntime) {
    let bytes: [u8; 16] = [0, 1, 2, 3, 4, 5, 6, 7, 8, 9, 10, 11, 12, 13, 14, 15];
    assert!(rt; read_fixed(b"AAECAwQFBgcICQoLDA0ODw") == Some(bytes));
    for text in "|AAECAwQFBgcICQoLDA0O|AAECAwQFBgcICQoLDA0ODxA|AAECAwQFBgcICQoLDA0OD_".split('|') {
        assert!(rt; read_fixed::<16>(text.as_bytes()).is_none(), "{text}");
    }
}

fn is_encoded(alloc: Global, bytes: &[u8], text: &str) -> bool {
    match enc(alloc, bytes) {
        Ok(written) => written.as_str() == text,
        Err(_) => false,
    }
}

fn is_decoded(alloc: Global, text: &str, bytes: &[u8]) -> bool {
    match dec(alloc, text.as_bytes()) {
        Ok(read) => read.as_slice() == bytes,
        Err(_) => false,
    }
}

// The examples of RFC 4648, section 10, without padding.
#[test]
fn base64url_is_written_and_read_again(rt: HostRuntime) -> Result<(), Fail> {
    for case in " \nf Zg\nfo Zm8\nfoo Zm9v\nfoob Zm9vYg\nfooba Zm9vYmE\nfoobar Zm9vYmFy".lines() {
        let (bytes, text) = case.split_once(' ').ok_or(case)?;
        assert!(rt; is_encoded(rt.alloc(), bytes.as_bytes(), text), "{case}");
        assert!(rt; is_decoded(rt.alloc(), text, bytes.as_bytes()), "{case}");
    }
    Ok(())
}

#[test]
fn base64url_has_one_spelling(rt: HostRuntime) -> Result<(), Fail> {
    for text in "e31 Zg== Zh Z Zm9+ Zm9/ Zm9v! Zm9v= Zm\u{e4}9".split(' ') {
        assert!(rt;
            matches!(dec(rt.alloc(), text.as_bytes()), Err(DecRefused::BadBase64)),
            "{text}"
        );
    }
    Ok(())
}
