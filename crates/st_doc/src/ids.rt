ghost use Rattle.std.specs.Prelude.{◌≡◌, ◌+◌, ◌<◌, drop, length, map, IfOk};
ghost use Rattle.std.specs.BTreeSet.{IsFromIterResult};
ghost use Rattle.st_canon.specs.View.{plain};
ghost use Rattle.st_doc.specs.Alike.{is_among, none_twice};
ghost use Rattle.st_doc.specs.Document.{id_of};

use st_base::{List, Text, WantOfMemory};
use st_canon::Json;
use st_scan::{Entries, Scanned};
use std::alloc::{AllocError, Global};
use std::collections::BTreeSet;

// From this many texts on, a set decides. Fewer are compared with one another, without memory.
const MANY: usize = 8;

/// The id of a key or a service, or the empty text if it has none.
pub(crate) fn id_of(entry: &Json) -> &str
    ensures { result.now ≡ id_of (plain entry.now) }
{
    match entry.member("id") {
        Some(Json::Text(id)) => id.as_str(),
        _ => "",
    }
}

/// Whether the text is one of these.
pub(crate) fn is_among(texts: &[Text], text: &str) -> bool
    ensures { result ≡ is_among texts.now text.now }
{
    for other in texts {
        if text == other.as_str() {
            return true;
        }
    }
    false
}

/// Whether an entry has this id.
pub(crate) fn has_id(entries: &[Json], id: &str) -> bool
    ensures { result ≡ is_among (map id_of (map plain entries.now)) id.now }
{
    for entry in entries {
        if id == id_of(entry) {
            return true;
        }
    }
    false
}

/// Whether all ids differ.
pub(crate) fn ids_stand_once(alloc: Global, entries: Entries<'_>) -> Result<bool, WantOfMemory>
    ensures { IfOk result (λ once. once ≡ none_twice (map id_of entries.entry)) }
{
    let ids = ids_of(alloc, entries)?;
    texts_stand_once(alloc, ids.as_slice())
}

/// Whether all texts differ.
pub(crate) fn texts_stand_once(alloc: Global, texts: &[Text]) -> Result<bool, WantOfMemory>
    ensures { IfOk result (λ once. once ≡ none_twice texts.now) }
{
    if texts.len() < MANY {
        return Ok(few_texts_stand_once(texts));
    }
    let texts = strs_of(alloc, texts)?;
    none_twice(alloc, texts.as_slice())
}

fn few_texts_stand_once(texts: &[Text]) -> bool
    ensures { result ≡ none_twice texts.now }
{
    for (at, text) in texts.iter().enumerate() {
        if is_among(behind(texts, at), text.as_str()) {
            return false;
        }
    }
    true
}

// The items after this place.
fn behind<T>(items: &[T], at: usize) -> &[T]
    requires { at < length items.now }
    ensures { result.now ≡ drop (at + 1) items.now }
{
    &items[at + 1..]
}

fn ids_of(alloc: Global, entries: Entries<'_>) -> Result<List<Text>, WantOfMemory>
    ensures { IfOk result (λ ids. ids ≡ map id_of entries.entry) }
{
    let mut ids = List::new(alloc);
    let mut left = entries;
    'entries: while let Some(entry) = left.next() {
        ids.push(alloc, scanned_id(alloc, &entry)?)?;
    }
    Ok(ids)
}

fn scanned_id(alloc: Global, entry: &Scanned<'_>) -> Result<Text, WantOfMemory>
    ensures { IfOk result (λ id. id ≡ id_of entry.now) }
{
    if let Some(value) = entry.member("id") {
        if let Some(id) = value.text(alloc)? {
            return Ok(id);
        }
    }
    Text::from_text(alloc, "")
}

fn strs_of<'a>(alloc: Global, texts: &'a [Text]) -> Result<Vec<&'a str>, WantOfMemory>
    ensures { IfOk result (λ strs. map (λ text. text.now) strs.items ≡ texts.now) }
{
    let mut strs = Vec::new(alloc);
    for text in texts {
        strs.push(text.as_str())?;
    }
    Ok(strs)
}

fn none_twice(alloc: Global, texts: &[&str]) -> Result<bool, WantOfMemory>
    ensures { IfOk result (λ once. once ≡ none_twice (map (λ text. text.now) texts.now)) }
{
    let different = set_of(alloc, texts)?;
    Ok(different.len() == texts.len())
}

fn set_of<'a>(alloc: Global, texts: &[&'a str]) -> Result<BTreeSet<&'a str>, AllocError>
    ensures { IfOk result (IsFromIterResult ⟦<&'a str as Ord>⟧.cmp texts.now) }
{
    texts.iter().copied().collect(alloc)
}
