ghost use Rattle.st_hash.specs.Hash.{IsCode};

use st_base::WantOfMemory;
use st_canon::{Json, read, write};
use st_hash::{Hash, SHA_256, SHA_512, hash_text};
use st_jws::{BadJwk, Jwk, commitment, commitment_with, meets, reveal, reveal_with};
use std::alloc::Global;
use std::test::Fail;

// The value of `PUB` in the tables: the key of a signer in Python.
const PUBLIC: &str = "AAAABQAAAAQAAQIDBAUGBwgJCgsMDQ4P99GZhaxRFDHM-2Y073OyPKnZ1Mf6yB1qQoylqzRU-Ds";

// The JSON of keys, their reveal values and commitments, by SHA-256 and by SHA-512, from Python.
const BY_SHA_256: &str =
    r#"{"alg":"LMS","kty":"LMS","pub":"PUB"} EiD4WU1DzIRr7sRi3ioP0jkOU_wJOjtimmJaBlhmWsktPg EiDK-vU4QMf7kD0L0ZfapZ4Ekg7vJBN5E1P6BlFKe51Kmg
{"alg":"LMS","kty":"LMS","nonce":"ZGVmZ2hpamtsbW5vcHFycw","pub":"PUB"} EiCsuxMWSibqRaFvAGum6cbJbLinsANWE75dhTadYKhNXw EiA970zHxUSndFiM9YXRbyNronsjhwn6hrPs3vVwmDHNkQ"#;

const BY_SHA_512: &str =
    r#"{"alg":"LMS","kty":"LMS","pub":"PUB"} E0BUnuUvbC42BVmgAzvcYQoxTrL4piJuLm8AJboX27YFziwyAbPYB3hBuuKjRgproUP85WSZJerS47JWK33C-73f E0DlcPOZ301o2QniNOs2P7JNISXGUDwYLvRSnDQclli30FmHyRL5_65DyOr3V_uJxVfjWbMPsc_u59YqMMPMahXc
{"alg":"LMS","kty":"LMS","nonce":"ZGVmZ2hpamtsbW5vcHFycw","pub":"PUB"} E0AaEPdZyzCDJLjc2_h8jWOcc85d7h5pFSpgtNr_czt3c0elL-ozyWxo_q2tgWd-M9UIoUzFkk0MVSa5qFrWWsK9 E0B5EkodZe1td1BQ4xe8GbZbEZmzuS6rgocM9gwswsceCaDl8pH6DdOv0cHuDqHnHYg1EiprwH11_ShtX13XtB8n"#;

fn json_of(alloc: Global, line: &str) -> Option<Json> {
    match line.replace(alloc, "PUB", PUBLIC) {
        Ok(text) => read(alloc, text.as_bytes()).ok(),
        Err(_) => None,
    }
}

fn key_of(alloc: Global, line: &str) -> Option<Jwk> {
    match json_of(alloc, line) {
        Some(json) => Jwk::read(&json).ok(),
        None => None,
    }
}

// Whether the key has this text, and is read from it again.
fn is_written(alloc: Global, key: &Jwk, text: &str) -> Result<bool, WantOfMemory> {
    let json = key.json(alloc)?;
    let written = write(alloc, &json)?;
    let wanted = text.replace(alloc, "PUB", PUBLIC)?;
    Ok(written.as_slice() == wanted.as_bytes() && Jwk::read(&json) == Ok(*key))
}

#[test]
fn a_key_is_read_and_written_and_read_again(rt: HostRuntime) -> Result<(), Fail> {
    for line in BY_SHA_256.lines() {
        let (text, _) = line.split_once(' ').ok_or("no hashes")?;
        let key = key_of(rt.alloc(), text).ok_or("no key")?;
        assert!(rt; is_written(rt.alloc(), &key, text)?, "{line}");
    }
    Ok(())
}

fn is_hash(alloc: Global, hash: &Hash, text: &str) -> bool {
    match hash_text(alloc, hash) {
        Ok(written) => written.as_str() == text,
        Err(_) => false,
    }
}

// Whether the key has this reveal value and this commitment; only the first meets the second.
fn gives(
    alloc: Global,
    key: &Jwk,
    code: u8,
    revealed: &str,
    committed: &str,
) -> Result<bool, WantOfMemory>
    requires { IsCode code }
{
    let reveal = reveal_with(alloc, key, code)?;
    let commitment = commitment_with(alloc, key, code)?;
    Ok(
        is_hash(alloc, &reveal, revealed)
            && is_hash(alloc, &commitment, committed)
            && meets(&reveal, &commitment)
            && !meets(&commitment, &reveal),
    )
}

// Whether the key of the line has the line's reveal value and commitment.
fn has_hashes(alloc: Global, line: &str, code: u8) -> Result<bool, WantOfMemory>
    requires { IsCode code }
{
    let Some((text, hashes)) = line.split_once(' ') else {
        return Ok(false);
    };
    let Some((revealed, committed)) = hashes.split_once(' ') else {
        return Ok(false);
    };
    match key_of(alloc, text) {
        Some(key) => gives(alloc, &key, code, revealed, committed),
        None => Ok(false),
    }
}

#[test]
fn a_reveal_value_meets_its_commitment(rt: HostRuntime) -> Result<(), Fail> {
    for line in BY_SHA_256.lines() {
        assert!(rt; has_hashes(rt.alloc(), line, SHA_256)?, "{line}");
    }
    for line in BY_SHA_512.lines() {
        assert!(rt; has_hashes(rt.alloc(), line, SHA_512)?, "{line}");
    }
    Ok(())
}

fn meets_its_own_alone(alloc: Global, key: &Jwk) -> Result<bool, WantOfMemory> {
    let reveal = reveal(alloc, key)?;
    let by_sha_256 = commitment(alloc, key)?;
    let by_sha_512 = commitment_with(alloc, key, SHA_512)?;
    Ok(meets(&reveal, &by_sha_256) && !meets(&reveal, &by_sha_512))
}

#[test]
fn a_reveal_value_meets_no_commitment_by_another_algorithm(rt: HostRuntime) -> Result<(), Fail> {
    let key = key_of(rt.alloc(), r#"{"alg":"LMS","kty":"LMS","pub":"PUB"}"#).ok_or("no key")?;
    assert!(rt; meets_its_own_alone(rt.alloc(), &key)?);
    Ok(())
}

const NO_KEYS: &str = r#"{"kty":"LMS","pub":"PUB"}
{"alg":"LMS","pub":"PUB"}
{"alg":"LMS","kty":"LMS"}
{"alg":"lms","kty":"LMS","pub":"PUB"}
{"alg":null,"kty":"LMS","pub":"PUB"}
{"alg":["LMS"],"kty":"LMS","pub":"PUB"}
{"alg":"LMS","kty":"lms","pub":"PUB"}
{"alg":"LMS","kty":null,"pub":"PUB"}
{"alg":"LMS","kty":["LMS"],"pub":"PUB"}
{"alg":"LMS","kty":"LMS","pub":1}
{"alg":"LMS","kty":"LMS","pub":null}
{"alg":"LMS","kty":"LMS","pub":""}
{"alg":"LMS","kty":"LMS","pub":"AAAABQAAAAQAAQIDBAUGBwgJCgsMDQ4P99GZhaxRFDHM-2Y073OyPKnZ1Mf6yB1qQoylqzRU-A"}
{"alg":"LMS","kty":"LMS","pub":"PUBA"}
{"alg":"LMS","kty":"LMS","pub":"PUB="}
{"alg":"LMS","kty":"LMS","pub":"AAAABQAAAAQAAQIDBAUGBwgJCgsMDQ4P99GZhaxRFDHM-2Y073OyPKnZ1Mf6yB1qQoylqzRU-Dt"}
{"alg":"LMS","kty":"LMS","pub":"AAAABwAAAAQAAQIDBAUGBwgJCgsMDQ4P99GZhaxRFDHM-2Y073OyPKnZ1Mf6yB1qQoylqzRU-Ds"}
{"alg":"LMS","kty":"LMS","pub":"AAAABQAAAAAAAQIDBAUGBwgJCgsMDQ4P99GZhaxRFDHM-2Y073OyPKnZ1Mf6yB1qQoylqzRU-Ds"}
{"alg":"LMS","kty":"LMS","pub":"PUB","nonce":"AAAAAAAAAAAAAAAAAAAA"}
{"alg":"LMS","kty":"LMS","pub":"PUB","nonce":"AAAAAAAAAAAAAAAAAAAAAAA"}
{"alg":"LMS","kty":"LMS","pub":"PUB","nonce":""}
{"alg":"LMS","kty":"LMS","pub":"PUB","nonce":null}
{"alg":"LMS","kty":"LMS","pub":"PUB","nonce":0}
{"alg":"LMS","kty":"LMS","pub":"PUB","nonce":"AAAAAAAAAAAAAAAAAAAAAB"}
{"alg":"LMS","kty":"LMS","pub":"PUB","kid":"k1"}
[]
"LMS"
{}"#;

fn is_no_key(alloc: Global, line: &str) -> bool {
    match json_of(alloc, line) {
        Some(json) => Jwk::read(&json) == Err(BadJwk),
        None => false,
    }
}

#[test]
fn what_differs_in_a_member_is_no_key(rt: HostRuntime) -> Result<(), Fail> {
    for line in NO_KEYS.lines() {
        assert!(rt; is_no_key(rt.alloc(), line), "{line}");
    }
    Ok(())
}
