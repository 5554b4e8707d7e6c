ghost use Rattle.std.specs.Prelude.{◌≡◌, map, filter, not, option_map, unwrap_or, IfOk, OnOk};
ghost use Rattle.std.specs.Option.{option_copied};
ghost use Rattle.st_canon.specs.View.{plain};
ghost use Rattle.st_doc.specs.Alike.{is_among};
ghost use Rattle.st_doc.specs.Patch.{added, added_names, entry_of, removed, removed_names};
ghost use Rattle.st_doc.specs.Document.{id_of};

use crate::ids::{has_id, id_of, is_among};
use st_base::{Copied, List, Text, WantOfMemory};
use st_canon::Json;
use std::alloc::Global;

/// Each new entry replaces the entry of its id in its place, or is appended. If there are no
/// entries yet, the new ones are moved, not copied.
pub(crate) fn add_entries(
    alloc: Global,
    entries: List<Json>,
    new: List<Json>,
) -> Result<List<Json>, WantOfMemory>
    ensures { IfOk result (λ all. map plain all ≡ added (map plain new) (map plain entries)) }
{
    if entries.as_slice().is_empty() {
        return Ok(new);
    }
    add_copies(alloc, entries, new.as_slice())
}

// The same, with copies of the new entries.
#[tactic(auto, unfolding(crate::specs::Patch::added))]
fn add_copies(alloc: Global, entries: List<Json>, new: &[Json]) -> Result<List<Json>, WantOfMemory>
    ensures { IfOk result (λ all. map plain all ≡ added (map plain new.now) (map plain entries)) }
{
    let mut others = others(alloc, entries.as_slice(), new)?;
    let mut all = entries.into_vec();
    replace_entries(alloc, all.as_mut_slice(), new)?;
    all.append(&mut others)?;
    Ok(List::from_vec(all))
}

// Copies of the new entries whose id no entry has.
fn others(alloc: Global, entries: &[Json], new: &[Json]) -> Result<Vec<Json>, WantOfMemory>
    ensures { IfOk result (λ others. map plain others.items
        ≡ filter (λ entry. not (is_among (map id_of (map plain entries.now)) (id_of entry))) (map plain new.now)) }
{
    let mut others = Vec::new(alloc);
    for entry in new {
        if !has_id(entries, id_of(entry)) {
            others.push(entry.copy(alloc)?)?;
        }
    }
    Ok(others)
}

// Each entry becomes a copy of the new one of its id, if any.
fn replace_entries(alloc: Global, entries: &mut [Json], new: &[Json]) -> Result<(), WantOfMemory>
    ensures { OnOk result (map plain entries.new
        ≡ map (λ entry. unwrap_or (entry_of (id_of entry) (map plain new.now)) entry) (map plain entries.old)) }
{
    for entry in entries.iter_mut() {
        replace_entry(alloc, entry, new)?;
    }
    Ok(())
}

fn replace_entry(alloc: Global, entry: &mut Json, new: &[Json]) -> Result<(), WantOfMemory>
    ensures { OnOk result (plain entry.new ≡ unwrap_or
        (entry_of (id_of (plain entry.old)) (map plain new.now)) (plain entry.old)) }
{
    let replacement = match entry_of(new, id_of(entry)) {
        Some(replacement) => replacement.copy(alloc)?,
        None => return Ok(()),
    };
    *entry = replacement;
    Ok(())
}

fn entry_of<'a>(entries: &'a [Json], id: &str) -> Option<&'a Json>
    ensures { option_map plain (option_copied result) ≡ entry_of id.now (map plain entries.now) }
{
    for entry in entries {
        if id_of(entry) == id {
            return Some(entry);
        }
    }
    None
}

/// Removes each entry with one of the ids.
#[tactic(auto, unfolding(crate::specs::Patch::removed))]
pub(crate) fn remove_entries(entries: List<Json>, ids: &[Text]) -> List<Json>
    ensures { map plain result ≡ removed ids.now (map plain entries) }
{
    let mut kept = entries.into_vec();
    keep_others(&mut kept, ids);
    List::from_vec(kept)
}

fn keep_others(entries: &mut Vec<Json>, ids: &[Text])
    ensures { entries.new.items ≡ filter (λ entry. not (is_among ids.now (id_of (plain entry)))) entries.old.items }
{
    entries.retain(|entry| !is_among(ids, id_of(entry)));
}

/// Appends each name that is not there yet.
#[tactic(auto, unfolding(crate::specs::Patch::added_names))]
pub(crate) fn add_names(
    alloc: Global,
    names: List<Text>,
    new: &[Text],
) -> Result<List<Text>, WantOfMemory>
    ensures { IfOk result (λ all. all ≡ added_names new.now names) }
{
    let mut others = other_names(alloc, names.as_slice(), new)?;
    let mut all = names.into_vec();
    all.append(&mut others)?;
    Ok(List::from_vec(all))
}

// Copies of the new names that are not there yet.
fn other_names(alloc: Global, names: &[Text], new: &[Text]) -> Result<Vec<Text>, WantOfMemory>
    ensures { IfOk result (λ others. others.items ≡ filter (λ name. not (is_among names.now name)) new.now) }
{
    let mut others = Vec::new(alloc);
    for name in new {
        if !is_among(names, name.as_str()) {
            others.push(name.copy(alloc)?)?;
        }
    }
    Ok(others)
}

/// Removes each of these names.
#[tactic(auto, unfolding(crate::specs::Patch::removed_names))]
pub(crate) fn remove_names(names: List<Text>, gone: &[Text]) -> List<Text>
    ensures { result ≡ removed_names gone.now names }
{
    let mut kept = names.into_vec();
    keep_other_names(&mut kept, gone);
    List::from_vec(kept)
}

fn keep_other_names(names: &mut Vec<Text>, gone: &[Text])
    ensures { names.new.items ≡ filter (λ name. not (is_among gone.now name)) names.old.items }
{
    names.retain(|name| !is_among(gone, name.as_str()));
}
