ghost use Rattle.std.specs.Prelude.{◌≡◌, ◌≢◌, ℕ, List, None, Some, IfOk, Err, length, IfNone, IfSome};
ghost use Rattle.base64.specs.GeneralPurpose.{IsBytes};
ghost use Rattle.st_hash.specs.Hash.{base64url, bytes_of_text, fixed_of_text};

use base64::DecodeAllocError;
use base64::engine::general_purpose::URL_SAFE_NO_PAD;
use st_base::{Bytes, Text, WantOfMemory};
use std::alloc::Global;
use thiserror::Error;

/// Why a text was not decoded.
#[derive(Clone, Copy, Debug, PartialEq, Eq, Error)]
pub enum DecRefused {
    /// The text is not the base64url of any bytes: a character of another alphabet, padding, a
    /// length that no bytes have, or spare bits that are not zero.
    #[error("not base64url")]
    BadBase64,
    /// Out of memory.
    #[error("out of memory")]
    WantOfMemory,
}

/// The base64url text of the bytes, without padding (RFC 4648, section 5).
pub fn enc(alloc: Global, bytes: &[u8]) -> Result<Text, WantOfMemory>
    ensures value { IfOk result (λ text. text ≡ base64url bytes.now) }
    // It is read again as these bytes.
    ensures read { IfOk result (λ text. bytes_of_text text ≡ Some bytes.now) }
{
    Ok(Text::from_string(URL_SAFE_NO_PAD.encode(alloc, bytes)?))
}

/// The bytes with this base64url text.
///
/// The result is `BadBase64` if and only if there are no such bytes.
pub fn dec(alloc: Global, text: &[u8]) -> Result<Bytes, DecRefused>
    ensures spelled { IfOk result (λ bytes. text.now ≡ base64url bytes) }
    ensures bytes { IfOk result IsBytes }
    ensures found { IfOk result (λ bytes. bytes_of_text text.now ≡ Some bytes) }
    ensures no_spelling { result ≡ Err DecRefused.BadBase64
        → (bytes : List ℕ) → IsBytes bytes → text.now ≢ base64url bytes }
    ensures not_found { result ≡ Err DecRefused.BadBase64 → bytes_of_text text.now ≡ None }
{
    match URL_SAFE_NO_PAD.decode(alloc, text) {
        Ok(bytes) => Ok(Bytes::from_vec(bytes)),
        Err(DecodeAllocError::OutOfMemory) => Err(DecRefused::WantOfMemory),
        Err(DecodeAllocError::DecodeError(_)) => Err(DecRefused::BadBase64),
    }
}

/// The `N` bytes with this base64url text (RFC 4648, section 5). It allocates nothing.
///
/// `None` if and only if there are no such bytes.
pub fn read_fixed<const N: usize>(text: &[u8]) -> Option<[u8; N]>
    ensures value { result ≡ fixed_of_text N text.now }
    ensures spelled { IfSome result (λ bytes. text.now ≡ base64url bytes) }
    ensures no_spelling { IfNone result ((bytes : List ℕ) → IsBytes bytes → length bytes ≡ N → text.now ≢ base64url bytes) }
{
    match decoded(text) {
        Some(bytes) => Some(bytes),
        None => None,
    }
}

fn decoded<const N: usize>(text: &[u8]) -> Option<[u8; N]>
    ensures { result ≡ fixed_of_text N text.now }
{
    let mut bytes = [0u8; N];
    match URL_SAFE_NO_PAD.decode_slice(text, &mut bytes) {
        Ok(count) => { if count == N { Some(bytes) } else { None } }
        Err(_) => None,
    }
}
