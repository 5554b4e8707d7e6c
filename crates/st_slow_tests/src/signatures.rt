ghost use Rattle.std.specs.Prelude.{◌≡◌, ◌≤◌};

mod hss;
mod standard;
mod types;
mod vectors;

use hex::FromHex;
use sha2::{Digest, Sha256};
use st_base::{Bytes, WantOfMemory, read_number};
use st_lms::{Public, Secret, Signer, sign_at, verify};
use std::alloc::Global;

/// Whether the signature still holds after these bits of one of its bytes were flipped.
fn holds_turned(
    public: &Public,
    message: &[u8],
    signature: &mut [u8],
    at: usize,
    bits: u8,
) -> bool {
    if at >= signature.len() {
        return true;
    }
    signature[at] ^= bits;
    let holds = verify(public, message, signature);
    signature[at] ^= bits;
    holds
}

/// Each field of the signature is damaged in turn: q, the LM-OTS type, the randomizer, the first
/// and the last value, the LMS type, the path at both ends.
fn no_damage_holds(public: &Public, message: &[u8], signature: &mut [u8], path_len: usize) -> bool
    requires { path_len ≤ 320 }
{
    let len = signature.len();
    if len < 48 + path_len {
        return false;
    }
    let path = len - path_len;
    for at in [3, 7, 8, 40, path - 5, path - 1, path, len - 1] {
        if holds_turned(public, message, signature, at, 1) {
            return false;
        }
    }
    true
}

/// The secret key of a line, and its public key as bytes.
fn keys_of(line: &str) -> Option<(Secret, [u8; 56])> {
    let mut words = line.split(' ');
    let ots = read_number(words.next()?.as_bytes(), 4)?;
    let tree = read_number(words.next()?.as_bytes(), 6)?;
    let id = <[u8; 16]>::from_hex(words.next()?).ok()?;
    let seed = <[u8; 32]>::from_hex(words.next()?).ok()?;
    let public = <[u8; 56]>::from_hex(words.next()?).ok()?;
    Some((Secret::new(ots, tree, id, seed).ok()?, public))
}

/// The number of a line, its message in hexadecimal, and the SHA-256 of the signature.
fn case_of(line: &str) -> Option<(u32, &str, [u8; 32])> {
    let (number, rest) = line.split_once(' ')?;
    let (message, digest) = rest.split_once(' ')?;
    Some((
        read_number(number.as_bytes(), 1023)?,
        message,
        <[u8; 32]>::from_hex(digest).ok()?,
    ))
}

/// Whether this is the signature: its length is that of its types, and it holds only if it is
/// undamaged.
fn is_signature(secret: &Secret, public: &Public, message: &[u8], signature: Bytes) -> bool {
    let right = signature.as_slice().len() == public.signature_len()
        && verify(public, message, signature.as_slice());
    let mut bytes = signature.into_vec();
    right
        && no_damage_holds(
            public,
            message,
            bytes.as_mut_slice(),
            32 * secret.height() as usize,
        )
}

/// Whether this is the key's signature of the message, with and without its nodes.
fn signs(
    alloc: Global,
    secret: &Secret,
    signer: &Signer,
    q: u32,
    message: &[u8],
    digest: [u8; 32],
) -> Result<bool, WantOfMemory>
    requires { signer.now ≡ secret.now }
{
    if q >= secret.leaf_count() {
        return Ok(false);
    }
    let signature = sign_at(alloc, secret, q, message)?;
    let kept = signer.sign(alloc, q, message)?;
    Ok(
        Sha256::digest(signature.as_slice()) == digest
            && kept.as_slice() == signature.as_slice()
            && is_signature(secret, &signer.public(), message, signature),
    )
}

fn signs_line(alloc: Global, secret: &Secret, signer: &Signer, line: &str) -> bool
    requires { signer.now ≡ secret.now }
{
    let Some(case) = case_of(line) else {
        return false;
    };
    let (q, message, digest) = case;
    match hex::decode(alloc, message) {
        Ok(message) => match signs(alloc, secret, signer, q, message.as_slice(), digest) {
            Ok(right) => right,
            Err(_) => false,
        },
        Err(_) => false,
    }
}

fn signs_all(alloc: Global, secret: &Secret, signer: &Signer, lines: &str) -> bool
    requires { signer.now ≡ secret.now }
{
    for line in lines.lines() {
        if !signs_line(alloc, secret, signer, line) {
            return false;
        }
    }
    true
}

/// Whether these are the bytes of the public key, which is read again, and the same with the nodes.
fn is_public(secret: &Secret, signer: &Signer, written: &[u8; 56]) -> bool {
    let public = secret.public();
    public.write() == *written && Public::read(written) == Ok(public) && signer.public() == public
}

/// Whether the key of the first line has its public key, and signs as each other line says.
fn signs_so(alloc: Global, text: &str) -> bool {
    let Some((first, lines)) = text.split_once('\n') else {
        return false;
    };
    let Some(keys) = keys_of(first) else {
        return false;
    };
    let (secret, written) = keys;
    match Signer::new(alloc, &secret) {
        Ok(signer) => is_public(&secret, &signer, &written)
            && signs_all(alloc, &secret, &signer, lines),
        Err(_) => false,
    }
}
