ghost use Rattle.std.specs.Prelude.{◌≡◌, ◌∷◌, [], IfOk};
ghost use Rattle.st_base.specs.Texts.{reply, spaced};
ghost use Rattle.st_plain.specs.Plain.{canonical};
ghost use Rattle.st_ops.specs.Operation.{plain_operation};
ghost use Rattle.st_ops.specs.Request.{IsComplete};
ghost use Rattle.st_jws.specs.Jwk.{jwk_json};
ghost use Rattle.st_wallet.specs.Machine.{cause_word, formatted_reply, hss_reply, key_reply, request_reply};

use crate::command::LineCause;
use st_base::{Bytes, WantOfMemory, push_word, reply};
use st_canon::write;
use st_hash::{enc, hash_text};
use st_hss::HssPublic;
use st_jws::{Jwk, commitment, reveal};
use st_lms::Public;
use st_ops::{Operation, suffix, write_request};
use std::alloc::Global;

/// The word of a cause in a reply.
pub(crate) fn cause_word(cause: LineCause) -> &'static str
    ensures { result.now ≡ cause_word cause }
{
    match cause {
        LineCause::Long => "long",
        LineCause::Command => "command",
        LineCause::Words => "words",
        LineCause::Number => "number",
        LineCause::Hex => "hex",
        LineCause::Base64 => "base64",
    }
}

/// The reply to a `format` that made a vault with this public key.
pub(crate) fn tell_formatted(alloc: Global, public: &Public) -> Result<Bytes, WantOfMemory>
    ensures { IfOk result (λ text. text ≡ formatted_reply public.now) }
{
    let text = enc(alloc, &public.write())?;
    reply(alloc, "formatted ", text.as_str().as_bytes())
}

/// The reply with a key: its reveal value, its commitment, and its JSON.
pub(crate) fn tell_key(alloc: Global, key: &Jwk) -> Result<Bytes, WantOfMemory>
    ensures { IfOk result (λ text. text ≡ key_reply key.now) }
{
    let revealed = hash_text(alloc, &reveal(alloc, key)?)?;
    let committed = hash_text(alloc, &commitment(alloc, key)?)?;
    let json = key_text(alloc, key)?;
    tell_three(
        alloc,
        "key",
        revealed.as_str().as_bytes(),
        committed.as_str().as_bytes(),
        json.as_slice(),
    )
}

// A reply of a word and three more.
fn tell_three(
    alloc: Global,
    word: &str,
    first: &[u8],
    second: &[u8],
    third: &[u8],
) -> Result<Bytes, WantOfMemory>
    ensures { IfOk result (λ text.
        text ≡ reply word.now (spaced (first.now ∷ second.now ∷ third.now ∷ []))) }
{
    let mut words = Vec::new(alloc);
    push_word(&mut words, first)?;
    push_word(&mut words, second)?;
    push_word(&mut words, third)?;
    reply(alloc, word, words.as_slice())
}

fn key_text(alloc: Global, key: &Jwk) -> Result<Bytes, WantOfMemory>
    ensures { IfOk result (λ text. text ≡ canonical (jwk_json key.now)) }
{
    let json = key.json(alloc)?;
    Ok(write(alloc, &json)?)
}

/// The reply with the request for an operation, which has its proof and its delta if its kind has
/// them: the suffix, and the request.
pub(crate) fn tell_request(alloc: Global, operation: &Operation) -> Result<Bytes, WantOfMemory>
    requires { IsComplete (plain_operation operation.now) }
    ensures { IfOk result (λ text. text ≡ request_reply (plain_operation operation.now)) }
{
    let named = hash_text(alloc, &suffix(alloc, operation)?)?;
    let request = write_request(alloc, operation)?;
    let mut words = Vec::new(alloc);
    push_word(&mut words, named.as_str().as_bytes())?;
    push_word(&mut words, request.as_slice())?;
    reply(alloc, "request", words.as_slice())
}

/// The reply with a signature of two levels, after the public key that verifies it.
pub(crate) fn tell_hss(
    alloc: Global,
    public: &HssPublic,
    signature: &Bytes,
) -> Result<Bytes, WantOfMemory>
    ensures { IfOk result (λ text. text ≡ hss_reply public.now signature.now) }
{
    let public = enc(alloc, &public.write())?;
    let signature = enc(alloc, signature.as_slice())?;
    let mut words = Vec::new(alloc);
    push_word(&mut words, public.as_str().as_bytes())?;
    push_word(&mut words, signature.as_str().as_bytes())?;
    reply(alloc, "hss", words.as_slice())
}
