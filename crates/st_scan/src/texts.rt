ghost use Rattle.std.specs.List.{flat_map};
ghost use Rattle.std.specs.Prelude.{◌≡◌, ◌≢◌, ◌++◌, ◌∷◌, [], ℕ, List, IfNone, IfSome, true, IfOk, Some, is_some};
ghost use Rattle.st_plain.specs.Plain.{escape, quoted, text};
ghost use Rattle.st_plain.specs.Objects.{name_in, text_in};
ghost use Rattle.st_plain.specs.Measures.{size_of};
ghost use Rattle.st_plain.specs.ReadAgain.{IsReadAgain, value_read};
ghost use Rattle.st_plain.specs.Shapes.{json_of};
ghost use Rattle.st_scan.specs.Standing.{IsText, value_of};
ghost use Rattle.st_scan.specs.Texts.{is_text_of};

use crate::scanned::is_text;
use st_base::{Bytes, KeptText, Shared, Text, WantOfMemory, cut_at};
use st_plain::{behind_first, is_quoted, next_byte, opened};
use std::alloc::Global;

// The bytes between the quotation marks of a JSON string, if none of them is escaped.
pub(crate) fn bare(text: &[u8]) -> Option<&[u8]>
    ensures some { IfSome result (λ bytes. (word : List ℕ) → text.now ≡ quoted word → bytes.now ≡ word) }
    ensures none { IfNone result ((word : List ℕ) → text.now ≡ quoted word → flat_map escape word ≢ word) }
{
    let left = opened(text, b'"')?;
    let inside = before_last(left);
    match cut_at(inside, b'\\') {
        None => Some(inside),
        Some(_) => None,
    }
}

fn before_last(bytes: &[u8]) -> &[u8]
    ensures { (front : List ℕ) (b : ℕ) → bytes.now ≡ front ++ b ∷ [] → result.now ≡ front }
{
    &bytes[..bytes.len().saturating_sub(1)]
}

// The bytes of the text, if JSON escapes none of them.
pub(crate) fn bare_text(canonical: &[u8]) -> Option<&[u8]>
    requires { IsText canonical.now }
    ensures some { IfSome result (λ bytes. value_of canonical.now ≡ text bytes.now) }
    ensures none { IfNone result ((bytes : List ℕ) → value_of canonical.now ≡ text bytes → flat_map escape bytes ≢ bytes) }
{
    if !is_text(canonical) {
        return None;
    }
    match bare(canonical) {
        Some(bytes) => Some(bytes),
        None => None,
    }
}

pub(crate) fn is_text_of(canonical: &[u8], word: &str) -> bool
    requires { IsText canonical.now }
    ensures { result ≡ is_text_of word.now (value_of canonical.now) }
{
    if !is_text(canonical) {
        return false;
    }
    is_quoted(canonical, word.as_bytes())
}

// The text, if it is one. Escapes are decoded.
pub(crate) fn text_of(alloc: Global, canonical: &[u8]) -> Result<Option<Text>, WantOfMemory>
    requires { IsText canonical.now }
    ensures { IfOk result (λ found. found ≡ text_in (value_of canonical.now)) }
{
    if !is_text(canonical) {
        return Ok(None);
    }
    if let Some(bytes) = bare_text(canonical) {
        if let Ok(word) = simdutf8::basic::from_utf8(bytes) {
            return Ok(Some(Text::from_text(alloc, word)?));
        }
    }
    Ok(Some(read_text(alloc, canonical)?))
}

// The same, but it shares its bytes with the file if JSON escapes none of them and the file has
// them at this offset.
pub(crate) fn text_within(
    alloc: Global,
    canonical: &[u8],
    file: &Shared<Bytes>,
    at: usize,
) -> Result<Option<KeptText>, WantOfMemory>
    requires { IsText canonical.now }
    ensures { IfOk result (λ found. found ≡ text_in (value_of canonical.now)) }
{
    if let Some(bytes) = bare_text(canonical) {
        if let Ok(word) = simdutf8::basic::from_utf8(bytes) {
            return Ok(Some(KeptText::within(alloc, word, file, at)?));
        }
    }
    match text_of(alloc, canonical)? {
        Some(text) => Ok(Some(KeptText::new(text))),
        None => Ok(None),
    }
}

// The same, if some of its bytes are escaped.
fn read_text(alloc: Global, canonical: &[u8]) -> Result<Text, WantOfMemory>
    requires text { IsText canonical.now }
    requires kind { is_some (text_in (value_of canonical.now)) ≡ true }
    ensures { IfOk result (λ word. Some word ≡ text_in (value_of canonical.now)) }
{
    match String::from_utf8(unescaped(alloc, behind_first(canonical))?) {
        Ok(word) => Ok(Text::from_string(word)),
        Err(_) => unreachable!(),
    }
}

// The decoded bytes of the string that ends at the first quotation mark.
fn unescaped(alloc: Global, inside: &[u8]) -> Result<Vec<u8>, WantOfMemory>
    ensures { IfOk result (λ word. word.items ≡ name_in inside.now) }
{
    let mut word = Vec::with_capacity(alloc, inside.len())?;
    let mut rest = inside;
    'bytes: while let Some((byte, behind)) = next_byte(rest) {
        word.push(byte)?;
        rest = behind;
    }
    Ok(word)
}

pub(crate) fn size(canonical: &[u8]) -> usize
    requires { IsText canonical.now }
    ensures { result ≡ size_of (value_of canonical.now) }
{
    canonical.len()
}

// The text itself, which is read as the value again.
#[tactic(auto, unfolding(crate::specs::Standing::value_of), using(crate::proofs::TextLemmas::read_from_text))]
pub(crate) fn as_slice(canonical: &[u8]) -> &[u8]
    requires { IsText canonical.now }
    ensures again { IsReadAgain result.now }
    ensures value { value_read (json_of result.now) ≡ value_of canonical.now }
{
    canonical
}
