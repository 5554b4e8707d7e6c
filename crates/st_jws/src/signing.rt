ghost use Rattle.std.specs.Prelude.{◌≡◌, ◌≤◌, ◌++◌, ◌∷◌, ℕ, length, IfOk, IsAscii, OnOk, Ok};
ghost use Rattle.base64.specs.GeneralPurpose.{IsBytes};
ghost use Rattle.st_plain.specs.Plain.{Plain, IsProper};
ghost use Rattle.st_canon.specs.View.{plain};
ghost use Rattle.st_jws.specs.Signing.{opened, Signs, join_signed, signing_input};
ghost use Rattle.st_jws.specs.Texts.{dot};
ghost use Rattle.st_jws.specs.declared.jwk.Jwk.{Jwk};

use st_base::{Bytes, Text, WantOfMemory};
use st_canon::{Json, write};
use st_hash::enc;
use std::alloc::Global;

const HEADER: &[u8] = b"{\"alg\":\"LMS\"}";

/// The bytes that are signed for a payload: the base64url of the header `{"alg":"LMS"}`, a dot, and
/// the base64url of the canonical payload (RFC 7515, section 5.1).
pub fn signing_input(alloc: Global, payload: &Json) -> Result<Bytes, WantOfMemory>
    ensures value { IfOk result (λ input. input ≡ signing_input (plain payload.now)) }
    ensures ascii { IfOk result IsAscii }
    ensures proper { OnOk result (IsProper (plain payload.now)) }
{
    let header = enc(alloc, HEADER)?;
    let canonical = write(alloc, payload)?;
    let payload = enc(alloc, canonical.as_slice())?;
    let input = with_dot(
        alloc,
        header.as_str().as_bytes(),
        payload.as_str().as_bytes(),
    )?;
    Ok(input)
}

fn with_dot(alloc: Global, first: &[u8], second: &[u8]) -> Result<Bytes, WantOfMemory>
    ensures { IfOk result (λ joined. joined ≡ first.now ++ dot ∷ second.now) }
{
    let mut joined = Bytes::from_slice(alloc, first)?;
    joined.push_all(alloc, b".")?;
    joined.push_all(alloc, second)?;
    Ok(joined)
}

/// The signed text of an input and its signature: the input, a dot, and the base64url of the
/// signature (RFC 7515, section 7.1).
pub fn join_signed(alloc: Global, input: &Bytes, signature: &Bytes) -> Result<Text, WantOfMemory>
    requires { IsAscii input.now }
    ensures value { IfOk result (λ text. text ≡ join_signed input.now signature.now) }
    // A signature over a payload under the only key in it opens to that payload and key.
    ensures opens { IfOk result (λ text. (payload : Plain) (key : Jwk) (limit : ℕ)
        → Signs payload key signature.now → input.now ≡ signing_input payload → length text ≤ limit
        → opened text limit ≡ Ok (record { payload = payload; key = key })) }
{
    let text = joined(alloc, input.as_slice(), signature.as_slice())?;
    Ok(text)
}

fn joined(alloc: Global, input: &[u8], signature: &[u8]) -> Result<Text, WantOfMemory>
    requires { IsAscii input.now }
    ensures value { IfOk result (λ text. text ≡ join_signed input.now signature.now) }
    ensures bytes { OnOk result (IsBytes signature.now) }
{
    let mut text = String::from_str(alloc, ascii_text(input))?;
    text.push_str(".")?;
    text.push_str(enc(alloc, signature)?.as_str())?;
    Ok(Text::from_string(text))
}

fn ascii_text(bytes: &[u8]) -> &str
    requires { IsAscii bytes.now }
    ensures { result.now ≡ bytes.now }
{
    std::str::from_utf8(bytes).unwrap()
}
