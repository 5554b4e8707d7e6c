ghost use Rattle.std.specs.Option.{option_copied};
ghost use Rattle.std.specs.Prelude.{◌≡◌, ◌≤◌, ℕ, IfOk, OnOk, option_and_then, option_map, ◌++◌, ◌||◌, false, is_some, map};
ghost use Rattle.st_plain.specs.Plain.{canonical, canonical_items, comma};
ghost use Rattle.st_plain.specs.Objects.{some_list, items_of};
ghost use Rattle.st_plain.specs.inside.Objects.{member_text, name_text};
ghost use Rattle.st_canon.specs.View.{plain};
ghost use Rattle.st_hash.specs.Hash.{hash_of_text, hash_of_text_at};
ghost use Rattle.st_indexfiles.specs.CoreIndex.{hash_in, hash_json, is_uri_if_there, uri_in, IsHashReadAgain};
ghost use Rattle.st_indexfiles.specs.inside.CoreParts.{AreReadAgain, IsUriReadAgain};

use crate::entries::Entry;
use st_base::{Bytes, WantOfMemory};
use st_canon::{Json, append_comma, append_text};
use st_hash::{Hash, hash_text, read_hash, read_hash_at};
use st_scan::Scanned;
use std::alloc::Global;

/// The hash of the version whose hash text this value is. It allocates nothing.
pub fn hash_in(there: Option<Scanned<'_>>, version: u8) -> Option<Hash>
    requires first { 1 ≤ version }
    requires last { version ≤ 2 }
    ensures { result ≡ hash_in version there.entry }
{
    match hash_text_in(there.as_ref()) {
        Some(text) => match read_hash_at(text, version) {
            Ok(hash) => Some(hash),
            Err(_) => None,
        },
        None => None,
    }
}

/// The same for a value as a tree.
pub fn hash_in_json(there: Option<&Json>, version: u8) -> Option<Hash>
    requires first { 1 ≤ version }
    requires last { version ≤ 2 }
    ensures { result ≡ hash_in version (option_map plain (option_copied there.entry)) }
{
    match there {
        Some(Json::Text(text)) => match read_hash_at(text.as_str().as_bytes(), version) {
            Ok(hash) => Some(hash),
            Err(_) => None,
        },
        _ => None,
    }
}

/// The file whose URI this value is.
pub(crate) fn uri_in(there: Option<&Scanned<'_>>) -> Option<Hash>
    ensures { result ≡ uri_in (option_copied there.entry) }
{
    match hash_text_in(there) {
        Some(text) => match read_hash(text) {
            Ok(uri) => Some(uri),
            Err(_) => None,
        },
        None => None,
    }
}

// The text, if the value may be a hash text. JSON escapes no byte of a hash text, so a text with an
// escaped byte is none.
#[tactic(auto, using(crate::proofs::BareLemmas::no_hash_in, crate::proofs::BareLemmas::no_uri_in))]
fn hash_text_in<'a>(there: Option<&Scanned<'a>>) -> Option<&'a [u8]>
    ensures hash { (version : ℕ) → option_and_then (hash_of_text_at version) (option_copied result) ≡ hash_in version (option_copied there.entry) }
    ensures uri { option_and_then hash_of_text (option_copied result) ≡ uri_in (option_copied there.entry) }
{
    match there {
        Some(value) => match value.bare_text() {
            Some(text) => Some(text),
            None => None,
        },
        None => None,
    }
}

/// Whether the value is a URI or missing.
pub(crate) fn is_uri_if_there(there: Option<&Scanned<'_>>) -> bool
    ensures { result ≡ is_uri_if_there (option_copied there.entry) }
{
    match there {
        Some(value) => uri_in(Some(value)).is_some(),
        None => true,
    }
}

/// The hash text of a hash as JSON. Every version that reads it reads this hash.
pub fn hash_json(alloc: Global, hash: &Hash) -> Result<Json, WantOfMemory>
    ensures value { IfOk result (λ json. plain json ≡ hash_json hash.now) }
    ensures read { OnOk result (IsHashReadAgain hash.now) }
{
    Ok(Json::Text(hash_text(alloc, hash)?))
}

// Index files are written as canonical text (RFC 8785), one member after another in the order of
// their names. For an optional member each call returns whether a comma is due before the next.

/// Appends the name of a member and a colon.
pub(crate) fn append_name(
    alloc: Global,
    out: &mut Bytes,
    due: bool,
    name: &str,
) -> Result<(), WantOfMemory>
    ensures { OnOk result (out.new ≡ out.old ++ (comma due ++ name_text name.now)) }
{
    append_comma(alloc, out, due)?;
    append_text(alloc, out, name)?;
    out.push_all(alloc, b":")
}

/// Appends a hash text. Every version that reads it reads this hash.
pub(crate) fn append_hash(alloc: Global, out: &mut Bytes, hash: &Hash) -> Result<(), WantOfMemory>
    ensures text { OnOk result (out.new ≡ out.old ++ canonical (hash_json hash.now)) }
    ensures read { OnOk result (IsHashReadAgain hash.now) }
{
    let text = hash_text(alloc, hash)?;
    Ok(append_text(alloc, out, text.as_str())?)
}

/// Appends a member with a URI, if there is one.
pub(crate) fn append_uri(
    alloc: Global,
    out: &mut Bytes,
    due: bool,
    name: &str,
    uri: &Option<Hash>,
) -> Result<bool, WantOfMemory>
    ensures text { OnOk result (out.new ≡ out.old ++ member_text due name.now (option_map hash_json uri.now)) }
    ensures later { IfOk result (λ later. later ≡ (due || is_some (option_map hash_json uri.now))) }
    ensures read { OnOk result (IsUriReadAgain uri.now) }
{
    match uri {
        Some(uri) => {
            append_name(alloc, out, due, name)?;
            append_hash(alloc, out, uri)?;
            Ok(true)
        }
        None => Ok(due),
    }
}

/// Appends a member with the list of these entries, if there are any.
pub(crate) fn append_list<T: Entry>(
    alloc: Global,
    out: &mut Bytes,
    due: bool,
    name: &str,
    said: &[T],
) -> Result<bool, WantOfMemory>
    ensures text { OnOk result (out.new ≡ out.old ++ member_text due name.now (some_list (map T.json said.now))) }
    ensures later { IfOk result (λ later. later ≡ (due || is_some (some_list (map T.json said.now)))) }
    ensures read { OnOk result (AreReadAgain T.of T.json said.now) }
{
    if said.is_empty() {
        return Ok(due);
    }
    append_name(alloc, out, due, name)?;
    out.push_all(alloc, b"[")?;
    append_entries(alloc, out, said)?;
    out.push_all(alloc, b"]")?;
    Ok(true)
}

// Appends entries with commas between them.
fn append_entries<T: Entry>(alloc: Global, out: &mut Bytes, said: &[T]) -> Result<(), WantOfMemory>
    ensures text { OnOk result (out.new ≡ out.old ++ canonical_items false (items_of (map T.json said.now))) }
    ensures read { OnOk result (AreReadAgain T.of T.json said.now) }
{
    let mut comma = false;
    'entries: for one in said {
        append_comma(alloc, out, comma)?;
        one.append(alloc, out)?;
        comma = true;
    }
    Ok(())
}
