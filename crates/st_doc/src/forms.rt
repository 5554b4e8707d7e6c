ghost use Rattle.std.specs.List.{list_all};
ghost use Rattle.std.specs.Prelude.{◌≡◌, IfOk, ◌≤◌, map};
ghost use Rattle.st_plain.specs.Measures.{depth_of};
ghost use Rattle.st_plain.specs.Objects.{list_in};
ghost use Rattle.st_canon.specs.View.{plain};
ghost use Rattle.st_doc.specs.Document.{is_base64url_sign, is_id, is_id_text, is_name, is_object, is_short, is_short_text, is_short_text_if_there, texts_of};

use st_base::{List, Text, WantOfMemory};
use st_canon::{Json, read_again, write};
use st_scan::{CanonicalText, Entries, Scanned, entries_in};
use std::alloc::Global;

/// 1 to `most` bytes.
pub(crate) fn is_short(bytes: &[u8], most: usize) -> bool
    ensures { result ≡ is_short most bytes.now }
{
    1 <= bytes.len() && bytes.len() <= most
}

/// 1 to 50 base64url characters.
pub(crate) fn is_id(bytes: &[u8]) -> bool
    ensures { result ≡ is_id bytes.now }
{
    is_short(bytes, 50) && are_base64url_signs(bytes)
}

fn are_base64url_signs(bytes: &[u8]) -> bool
    ensures { result ≡ list_all is_base64url_sign bytes.now }
{
    for byte in bytes {
        if !is_base64url_sign(*byte) {
            return false;
        }
    }
    true
}

fn is_base64url_sign(byte: u8) -> bool
    ensures { result ≡ is_base64url_sign byte }
{
    byte.is_ascii_alphanumeric() || (byte == b'-' || byte == b'_')
}

/// 1 to 100 bytes.
pub(crate) fn is_name(text: &str) -> bool
    ensures { result ≡ is_name text.now }
{
    is_short(text.as_bytes(), 100)
}

/// Whether the value is a text of 1 to `most` bytes.
pub(crate) fn is_short_text(
    alloc: Global,
    there: &Option<Scanned<'_>>,
    most: usize,
) -> Result<bool, WantOfMemory>
    ensures { IfOk result (λ is. is ≡ is_short_text most there.now) }
{
    let Some(value) = there else {
        return Ok(false);
    };
    if let Some(bytes) = value.bare_text() {
        return Ok(is_short(bytes, most));
    }
    match value.text(alloc)? {
        Some(text) => Ok(is_short(text.as_str().as_bytes(), most)),
        None => Ok(false),
    }
}

/// The same, or missing.
pub(crate) fn is_short_text_if_there(
    alloc: Global,
    there: &Option<Scanned<'_>>,
    most: usize,
) -> Result<bool, WantOfMemory>
    ensures { IfOk result (λ is. is ≡ is_short_text_if_there most there.now) }
{
    if there.is_none() {
        return Ok(true);
    }
    is_short_text(alloc, there, most)
}

/// Whether the value is an id.
pub(crate) fn is_id_text(alloc: Global, there: &Option<Scanned<'_>>) -> Result<bool, WantOfMemory>
    ensures { IfOk result (λ is. is ≡ is_id_text there.now) }
{
    let Some(value) = there else {
        return Ok(false);
    };
    if let Some(bytes) = value.bare_text() {
        return Ok(is_id(bytes));
    }
    match value.text(alloc)? {
        Some(text) => Ok(is_id(text.as_str().as_bytes())),
        None => Ok(false),
    }
}

/// Whether the value is an object.
pub(crate) fn is_object(there: &Option<Scanned<'_>>) -> bool
    ensures { result ≡ is_object there.now }
{
    match there {
        Some(value) => value.is_object(),
        None => false,
    }
}

/// The entries of the list, if it is one.
#[tactic(auto, using(crate::proofs::DeltaLemmas::listed, crate::proofs::DeltaLemmas::not_listed))]
pub(crate) fn list_in<'a>(value: Scanned<'a>) -> Option<Entries<'a>>
    ensures { result ≡ list_in value.entry }
{
    if !value.is_list() {
        return None;
    }
    Some(entries_in(Some(value)))
}

/// The value as a tree.
pub(crate) fn tree_of(alloc: Global, value: &Scanned<'_>) -> Result<Json, WantOfMemory>
    ensures { IfOk result (λ json. plain json ≡ value.now) }
{
    Ok(read_again(alloc, value.as_slice())?)
}

/// The canonical text of a value that does not nest too deep to be read again.
pub(crate) fn text_of(alloc: Global, value: &Json) -> Result<CanonicalText<'static>, WantOfMemory>
    requires { depth_of (plain value.now) ≤ 127 }
    ensures { IfOk result (λ text. text ≡ plain value.now) }
{
    let text = write(alloc, value)?;
    Ok(CanonicalText::again(text))
}

/// Entries as trees.
pub(crate) fn values_of(alloc: Global, entries: Entries<'_>) -> Result<List<Json>, WantOfMemory>
    ensures { IfOk result (λ values. map plain values ≡ entries.entry) }
{
    let mut values = List::new(alloc);
    let mut left = entries;
    'entries: while let Some(entry) = left.next() {
        values.push(alloc, tree_of(alloc, &entry)?)?;
    }
    Ok(values)
}

/// The texts among entries.
pub(crate) fn texts_in(alloc: Global, entries: Entries<'_>) -> Result<List<Text>, WantOfMemory>
    ensures { IfOk result (λ texts. texts ≡ texts_of entries.entry) }
{
    let mut texts = List::new(alloc);
    let mut left = entries;
    'entries: while let Some(entry) = left.next() {
        if let Some(text) = entry.text(alloc)? {
            texts.push(alloc, text)?;
        }
    }
    Ok(texts)
}
