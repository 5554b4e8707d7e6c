ghost use Rattle.std.specs.Option.{ok_or};
ghost use Rattle.std.specs.Prelude.{◌≡◌, option_map, IfOk, Some};
ghost use Rattle.st_base.specs.Answers.{Gives, GivesAs};
ghost use Rattle.st_base.specs.Work.{one_proof};
ghost use Rattle.st_plain.specs.Plain.{object, IsProper};
ghost use Rattle.st_plain.specs.Shapes.{json_in};
ghost use Rattle.st_canon.specs.View.{plain, plain_members};
ghost use Rattle.st_hash.specs.Hash.{bytes_of_text};
ghost use Rattle.st_jws.specs.Signing.{opened_view, is_header, opened, refusal_of};
ghost use Rattle.st_jws.specs.Texts.{texts_of};
ghost use Rattle.st_jws.specs.declared.signed.SignedRefused.TheVariants.{BadForm};
ghost use Rattle.st_jws.specs.inside.Jwk.{found_view};

use crate::jwk::{Jwk, is_lms, key_in};
use st_base::{Bytes, Copied, KeptText, WantOfMemory, Work, cut_at};
use st_canon::{Json, Object, PackedJson, is_text_if_there, read_json};
use st_hash::{DecRefused, dec};
use st_lms::verify;
use std::alloc::Global;
use thiserror::Error;

/// Why a signed text is not opened: the first of these that holds, in this order.
#[derive(Clone, Copy, Debug, Drop, PartialEq, Eq, Error)]
pub enum SignedRefused {
    /// The text has more bytes than the limit, or is not three base64url texts joined by two dots.
    #[error("not a signed text")]
    BadForm,
    /// The header is not a JSON object with exactly `alg` = `LMS` and optionally a text `kid`.
    #[error("not the header of an LMS signature")]
    BadHeader,
    /// The payload is not a JSON object with exactly one of `updateKey` and `recoveryKey` among its
    /// members, whose value is a JWK.
    #[error("not a payload with a key")]
    BadPayload,
    /// The signature is not one of the first two texts and their dot, under the payload's key.
    #[error("the signature does not hold")]
    BadSignature,
    /// Out of memory.
    #[error("out of memory")]
    WantOfMemory,
}

impl From<WantOfMemory> for SignedRefused {
    ghost use Rattle.std.specs.Prelude.{◌≡◌};
    ghost use Rattle.st_jws.specs.declared.signed.SignedRefused.TheVariants.{WantOfMemory};

    ghost from_gives = { λ _ refused. refused ≡ WantOfMemory };

    fn from(_want: WantOfMemory) -> SignedRefused {
        SignedRefused::WantOfMemory
    }
}

// The three texts of a signed text, split at its first two dots, and the first two with their dot.
#[derive(Clone, Copy)]
pub(crate) struct Texts<'a> {
    pub(crate) input: &'a [u8],
    pub(crate) header: &'a [u8],
    pub(crate) payload: &'a [u8],
    pub(crate) signature: &'a [u8],
}

pub(crate) fn texts_of(text: &[u8]) -> Option<Texts<'_>>
    ensures { option_map (λ texts. record {
      input = texts.input.now;
      header = texts.header.now;
      payload = texts.payload.now;
      signature = texts.signature.now;
    }) result ≡ texts_of text.now }
{
    let (header, rest) = cut_at(text, b'.')?;
    let (payload, signature) = cut_at(rest, b'.')?;
    let input = &text[..header.len() + 1 + payload.len()];
    Some(Texts {
        input,
        header,
        payload,
        signature,
    })
}

/// Whether these bytes are the JSON of a header.
pub(crate) fn is_header(alloc: Global, bytes: &[u8]) -> Result<bool, WantOfMemory>
    ensures { IfOk result (λ is. is ≡ is_header (json_in bytes.now)) }
{
    let Some(json) = read_json(alloc, bytes)? else {
        return Ok(false);
    };
    Ok(has_header(&json))
}

fn has_header(json: &Json) -> bool
    ensures { result ≡ is_header (Some (plain json.now)) }
{
    match json {
        Json::Object(members) => has_names(members),
        _ => false,
    }
}

fn has_names(members: &Object) -> bool
    ensures { result ≡ is_header (Some (object (plain_members members.now))) }
{
    members.has_only(&["alg", "kid"])
        && is_lms(members.text("alg"))
        && is_text_if_there(members.get("kid"))
}

/// A signed text whose signature holds under the key in its payload.
#[derive(Drop)]
pub struct Signed {
    /// The original text.
    pub text: KeptText,
    /// The signed payload, stored as its canonical text.
    pub payload: PackedJson,
    /// The key in the payload, under which the signature holds.
    pub key: Jwk,
}

impl Copied for Signed {
    fn copy(&self, alloc: Global) -> Result<Signed, WantOfMemory> {
        let text = self.text.copy(alloc)?;
        let payload = self.payload.copy(alloc)?;
        let key = self.key;
        Ok(Signed { text, payload, key })
    }
}

/// Opens a signed text of at most `limit` bytes. Parts shared with a file stay shared. It counts as
/// one proof, whatever the answer is.
///
/// A refusal other than `WantOfMemory` is returned if and only if it is the first, in the order of
/// `SignedRefused`, that holds.
pub fn open_signed(
    alloc: Global,
    text: &KeptText,
    limit: usize,
    work: &mut Work,
) -> Result<Signed, SignedRefused>
    ensures opened { GivesAs opened_view refusal_of (opened text.now limit) result }
    ensures text { IfOk result (λ signed. signed.text ≡ text.now) }
    ensures proper { IfOk result (λ signed. IsProper signed.payload) }
    ensures counted { work.new ≡ one_proof work.old }
{
    work.tick_proofs();
    let (payload, key) = open_text(alloc, text.as_slice(), limit)?;
    let text = text.copy(alloc)?;
    let payload = PackedJson::pack(alloc, &payload)?;
    Ok(Signed { text, payload, key })
}

fn open_text(alloc: Global, text: &[u8], limit: usize) -> Result<(Json, Jwk), SignedRefused>
    ensures opened { GivesAs found_view refusal_of (opened text.now limit) result }
    ensures proper { IfOk result (λ found. IsProper (plain found.0)) }
{
    if text.len() > limit {
        return Err(SignedRefused::BadForm);
    }
    let Some(texts) = texts_of(text) else {
        return Err(SignedRefused::BadForm);
    };
    let header = decode(alloc, texts.header)?;
    let payload = decode(alloc, texts.payload)?;
    let signature = decode(alloc, texts.signature)?;
    if !is_header(alloc, header.as_slice())? {
        return Err(SignedRefused::BadHeader);
    }
    let Some(payload) = read_json(alloc, payload.as_slice())? else {
        return Err(SignedRefused::BadPayload);
    };
    let Some(key) = key_in(&payload) else {
        return Err(SignedRefused::BadPayload);
    };
    if !verify(&key.public, texts.input, signature.as_slice()) {
        return Err(SignedRefused::BadSignature);
    }
    Ok((payload, key))
}

// The bytes with this base64url text.
fn decode(alloc: Global, text: &[u8]) -> Result<Bytes, SignedRefused>
    ensures { Gives refusal_of (ok_or (bytes_of_text text.now) BadForm) result }
{
    match dec(alloc, text) {
        Ok(bytes) => Ok(bytes),
        Err(DecRefused::BadBase64) => Err(SignedRefused::BadForm),
        Err(DecRefused::WantOfMemory) => Err(SignedRefused::WantOfMemory),
    }
}
