ghost use Rattle.std.specs.Prelude.{◌≡◌, codes, length, option_and_then, option_map, IfOk, IfSome, OnOk, Some};
ghost use Rattle.std.specs.Result.{result_ok};
ghost use Rattle.base64.specs.GeneralPurpose.{IsBytes};
ghost use Rattle.st_plain.specs.Objects.{member_at, some_listed};
ghost use Rattle.st_plain.specs.Plain.{object, text, IsProper, MembersAreProper};
ghost use Rattle.st_plain.specs.Shapes.{text_at};
ghost use Rattle.st_canon.specs.View.{plain, plain_members};
ghost use Rattle.st_hash.specs.Hash.{base64url, fixed_of_text};
ghost use Rattle.st_lms.specs.Tree.{IsPublicKey, public_text};
ghost use Rattle.st_jws.specs.Jwk.{bytes_json, is_lms, is_lms_key, jwk_json, jwk_members, jwk_of, lms, nonce_at, public_of_text};
ghost use Rattle.st_jws.specs.Signing.{key_in};
ghost use Rattle.st_jws.specs.inside.Jwk.{HasKey, IsNonce};

use st_base::{Text, WantOfMemory};
use st_canon::{Json, Object};
use st_hash::{enc, read_fixed};
use st_lms::Public;
use std::alloc::Global;
use thiserror::Error;

const LMS: &str = "LMS";

/// The value is not a JWK of an LMS key.
#[derive(Clone, Copy, Debug, PartialEq, Eq, Error)]
#[error("not a JWK of an LMS key")]
pub struct BadJwk;

/// An LMS key as a JSON Web Key (RFC 7517): the public key, and a nonce, so that one LMS key can
/// have several JWKs with different reveal values.
#[derive(Clone, Copy, Debug, PartialEq, Eq)]
pub struct Jwk {
    /// The LMS public key.
    pub public: Public,
    /// Distinguishes the JWKs of one public key.
    pub nonce: Option<[u8; 16]>,
}

impl Jwk {
    /// The key of this value. It allocates nothing.
    ///
    /// The result is `BadJwk` if and only if the value is not an object with exactly `alg` = `LMS`,
    /// `kty` = `LMS`, `pub`, the base64url of the 56 bytes of a public key, and optionally `nonce`,
    /// the base64url of 16 bytes.
    pub fn read(value: &Json) -> Result<Jwk, BadJwk>
        ensures value { result_ok result ≡ jwk_of (plain value.now) }
        // A proper value that is read as a key is the one that `json` writes for it.
        ensures written { IfOk result (λ key. IsProper (plain value.now)
            → plain value.now ≡ jwk_json key) }
    {
        match value {
            Json::Object(members) => match read_members(members) {
                Some(key) => Ok(key),
                None => Err(BadJwk),
            },
            _ => Err(BadJwk),
        }
    }

    /// The JSON object of this key, which is read as this key again.
    pub fn json(&self, alloc: Global) -> Result<Json, WantOfMemory>
        ensures value { IfOk result (λ json. plain json ≡ jwk_json self.now) }
        ensures read { IfOk result (λ json. jwk_of (plain json) ≡ Some self.now) }
    {
        Ok(Json::Object(all_members(alloc, self)?))
    }
}

fn all_members(alloc: Global, key: &Jwk) -> Result<Object, WantOfMemory>
    ensures members { IfOk result (λ members.
        plain_members members ≡ some_listed (jwk_members key.now)) }
    ensures read { IfOk result (λ members.
        jwk_of (object (plain_members members)) ≡ Some key.now) }
{
    let members = set_members(alloc, key)?;
    Ok(members)
}

#[tactic(auto, unfolding(st_plain::proofs::NameLemmas::names_on_literals, st_plain::specs::Objects::put_some))]
fn set_members(alloc: Global, key: &Jwk) -> Result<Object, WantOfMemory>
    ensures members { IfOk result (λ members.
        plain_members members ≡ some_listed (jwk_members key.now)) }
    ensures public { OnOk result (IsPublicKey key.now.public) }
    ensures public_long { OnOk result (length (public_text key.now.public) ≡ 56) }
    ensures public_bytes { OnOk result (IsBytes (public_text key.now.public)) }
    ensures nonce { OnOk result (IsNonce key.now.nonce) }
{
    let mut members = Object::new(alloc);
    members.set(alloc, "alg", lms_json(alloc)?)?;
    members.set(alloc, "kty", lms_json(alloc)?)?;
    members.set(alloc, "pub", public_json(alloc, &key.public)?)?;
    members.set_some(alloc, "nonce", nonce_json(alloc, &key.nonce)?)?;
    Ok(members)
}

fn public_json(alloc: Global, public: &Public) -> Result<Json, WantOfMemory>
    ensures value { IfOk result (λ json. plain json ≡ bytes_json (public_text public.now)) }
    ensures known { OnOk result (IsPublicKey public.now) }
    ensures long { OnOk result (length (public_text public.now) ≡ 56) }
    ensures bytes { OnOk result (IsBytes (public_text public.now)) }
{
    Ok(Json::Text(enc(alloc, &public.write())?))
}

fn nonce_json(alloc: Global, nonce: &Option<[u8; 16]>) -> Result<Option<Json>, WantOfMemory>
    ensures value { IfOk result (λ json. option_map plain json ≡ option_map bytes_json nonce.now) }
    ensures known { OnOk result (IsNonce nonce.now) }
{
    match nonce {
        Some(nonce) => Ok(Some(sixteen_json(alloc, nonce)?)),
        None => Ok(None),
    }
}

fn sixteen_json(alloc: Global, bytes: &[u8; 16]) -> Result<Json, WantOfMemory>
    ensures value { IfOk result (λ json. plain json ≡ bytes_json bytes.now) }
    ensures long { OnOk result (length bytes.now ≡ 16) }
    ensures bytes { OnOk result (IsBytes bytes.now) }
{
    Ok(Json::Text(enc(alloc, bytes)?))
}

fn lms_json(alloc: Global) -> Result<Json, WantOfMemory>
    ensures { IfOk result (λ json. plain json ≡ text lms) }
{
    Ok(Json::Text(Text::from_text(alloc, LMS)?))
}

fn read_members(members: &Object) -> Option<Jwk>
    ensures value { result ≡ jwk_of (object (plain_members members.now)) }
    ensures written { IfSome result (λ key. MembersAreProper (plain_members members.now)
        → plain_members members.now ≡ some_listed (jwk_members key)) }
{
    let key = find_key(members)?;
    Some(key)
}

fn find_key(members: &Object) -> Option<Jwk>
    ensures value { result ≡ jwk_of (object (plain_members members.now)) }
    ensures has { IfSome result (HasKey (plain_members members.now)) }
{
    if !is_lms_key(members) {
        return None;
    }
    let public = read_public(members)?;
    let nonce = read_nonce(members)?;
    Some(Jwk { public, nonce })
}

fn is_lms_key(members: &Object) -> bool
    ensures { result ≡ is_lms_key (Some (object (plain_members members.now))) }
{
    members.has_only(&["alg", "kty", "pub", "nonce"])
        && is_lms(members.text("alg"))
        && is_lms(members.text("kty"))
}

/// Whether the text is `LMS`; `None` is not.
pub(crate) fn is_lms(text: Option<&str>) -> bool
    ensures { result ≡ is_lms (option_map (λ text. text.now) text.entry) }
{
    match text {
        Some(text) => text == LMS,
        None => false,
    }
}

fn read_public(members: &Object) -> Option<Public>
    ensures value { result ≡ option_and_then public_of_text
        (text_at (codes "pub") (Some (object (plain_members members.now)))) }
    ensures spelled { IfSome result (λ public.
        text_at (codes "pub") (Some (object (plain_members members.now)))
        ≡ Some (base64url (public_text public))) }
{
    let text = members.text("pub")?;
    public_of_text(text.as_bytes())
}

fn public_of_text(text: &[u8]) -> Option<Public>
    ensures value { result ≡ public_of_text text.now }
    ensures spelled { IfSome result (λ public. text.now ≡ base64url (public_text public)) }
{
    let bytes = read_fixed::<56>(text)?;
    match Public::read(&bytes) {
        Ok(public) => Some(public),
        Err(_) => None,
    }
}

fn read_nonce(members: &Object) -> Option<Option<[u8; 16]>>
    ensures value { result ≡ nonce_at (member_at (codes "nonce") (plain_members members.now)) }
    ensures spelled { IfSome result (λ nonce. member_at (codes "nonce") (plain_members members.now)
        ≡ option_map bytes_json nonce) }
{
    match members.get("nonce") {
        None => Some(None),
        Some(Json::Text(text)) => match read_fixed::<16>(text.as_str().as_bytes()) {
            Some(nonce) => Some(Some(nonce)),
            None => None,
        },
        Some(_) => None,
    }
}

/// The key of a payload: the value of its only member `updateKey` or `recoveryKey`.
pub(crate) fn key_in(payload: &Json) -> Option<Jwk>
    ensures { result ≡ key_in (plain payload.now) }
{
    match (payload.member("updateKey"), payload.member("recoveryKey")) {
        (Some(key), None) => key_of(key),
        (None, Some(key)) => key_of(key),
        _ => None,
    }
}

fn key_of(value: &Json) -> Option<Jwk>
    ensures { result ≡ jwk_of (plain value.now) }
{
    match Jwk::read(value) {
        Ok(key) => Some(key),
        Err(_) => None,
    }
}
