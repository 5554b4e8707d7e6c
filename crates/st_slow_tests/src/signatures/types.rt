use super::holds_turned;
use st_base::{Bytes, WantOfMemory};
use st_lms::{BadType, Public, Secret, sign_at, verify};
use std::alloc::Global;
use std::test::Fail;

fn key() -> Result<Secret, BadType> {
    Secret::new(4, 5, [7; 16], [9; 32])
}

fn all_but_last(bytes: &[u8]) -> &[u8] {
    match bytes {
        [front @ .., _] => front,
        [] => bytes,
    }
}

/// Whether the signature holds for its message and no other, and no shorter or longer one holds.
fn holds_alone(public: &Public, signature: &[u8], longer: &[u8]) -> bool {
    signature.len() == 1292
        && verify(public, b"message", signature)
        && !verify(public, b"massage", signature)
        && !verify(public, b"message", b"")
        && !verify(public, b"message", all_but_last(signature))
        && !verify(public, b"message", longer)
}

// q is 3, the LM-OTS type 4, the LMS type 5: changed to 32, 3 and 6 in turn.
fn holds_with_its_types(public: &Public, signature: &mut [u8]) -> bool {
    !holds_turned(public, b"message", signature, 3, 3 ^ 32)
        && !holds_turned(public, b"message", signature, 7, 4 ^ 3)
        && !holds_turned(public, b"message", signature, 1131, 5 ^ 6)
        && verify(public, b"message", signature)
}

/// Whether a signature holds only for its message, and only with its types and number.
fn holds(alloc: Global, secret: &Secret) -> Result<(bool, bool), WantOfMemory> {
    if secret.leaf_count() != 32 {
        return Ok((false, false));
    }
    let public = secret.public();
    let signature = sign_at(alloc, secret, 3, b"message")?;
    let mut longer = Bytes::from_slice(alloc, signature.as_slice())?;
    longer.push_all(alloc, &[0])?;
    let alone = holds_alone(&public, signature.as_slice(), longer.as_slice());
    let mut bytes = signature.into_vec();
    Ok((alone, holds_with_its_types(&public, bytes.as_mut_slice())))
}

#[test]
fn a_signature_of_types_4_and_5_holds_for_its_message_alone(rt: HostRuntime) -> Result<(), Fail> {
    let (for_its_message, with_its_types) = holds(rt.alloc(), &key()?)?;
    assert!(rt; for_its_message);
    assert!(rt; with_its_types);
    Ok(())
}

fn gives_back(secret: &Secret) -> bool {
    secret.ots() == 4
        && secret.tree() == 5
        && secret.id() == [7; 16]
        && secret.seed() == [9; 32]
        && secret.height() == 5
}

fn is_written(public: &Public) -> bool {
    let text = public.write();
    public.ots() == 4
        && public.tree() == 5
        && public.id() == [7; 16]
        && Public::read(&text) == Ok(*public)
        && &text[24..] == public.root().as_slice()
}

#[test]
fn a_key_gives_back_what_it_was_made_of(rt: HostRuntime) -> Result<(), Fail> {
    let secret = key()?;
    assert!(rt; gives_back(&secret));
    assert!(rt; is_written(&secret.public()));
    Ok(())
}
