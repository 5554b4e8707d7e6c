ghost use Rattle.std.specs.Prelude.{◌≡◌, ◌↔◌, IsTrue, map};
ghost use Rattle.st_apply.specs.Laws.{opened};
ghost use Rattle.st_canon.specs.View.{plain};
ghost use Rattle.st_doc.specs.Document.{plain_document};

use crate::opening::StateParts;
use crate::state::DidState;
use st_base::{Text, WantOfMemory};
use st_canon::{Json, equal};
use st_doc::Document;
use st_hash::Hash;
use std::alloc::Global;

impl DidState {
    ghost use Rattle.std.specs.Prelude.{◌≡◌, ◌↔◌, IfOk, IsTrue};
    ghost use Rattle.st_apply.specs.Laws.{opened};

    /// Whether the state has these parts. A delta that no step has read yet is read for this. That
    /// was counted when the create or the recover was applied, and is not counted again.
    pub fn holds(&self, alloc: Global, parts: &StateParts) -> Result<bool, WantOfMemory>
        ensures { IfOk result (λ same. IsTrue same ↔ (self.now ≡ opened parts.now)) }
    {
        let held = self.look(alloc)?;
        Ok(same_parts(&held, parts))
    }
}

// Whether two states have the same parts.
fn same_parts(first: &StateParts, second: &StateParts) -> bool
    ensures { IsTrue result ↔ (opened first.now ≡ opened second.now) }
{
    match (first, second) {
        (StateParts::Absent, StateParts::Absent) => true,
        (StateParts::Deactivated, StateParts::Deactivated) => true,
        (
            StateParts::Active {
                recovery,
                update,
                document,
            },
            StateParts::Active {
                recovery: other_recovery,
                update: other_update,
                document: other_document,
            },
        ) => {
            same_hash(recovery, other_recovery)
                && same_commitment(update, other_update)
                && same_document(document.get(), other_document.get())
        }
        _ => false,
    }
}

fn same_hash(first: &Hash, second: &Hash) -> bool
    ensures { IsTrue result ↔ (first.now ≡ second.now) }
{
    first == second
}

fn same_commitment(first: &Option<Hash>, second: &Option<Hash>) -> bool
    ensures { IsTrue result ↔ (first.now ≡ second.now) }
{
    match (first, second) {
        (None, None) => true,
        (Some(first), Some(second)) => same_hash(first, second),
        _ => false,
    }
}

fn same_document(first: &Document, second: &Document) -> bool
    ensures { IsTrue result ↔ (plain_document first.now ≡ plain_document second.now) }
{
    same_values(first.keys(), second.keys())
        && same_values(first.services(), second.services())
        && same_names(first.names(), second.names())
}

fn same_values(first: &[Json], second: &[Json]) -> bool
    ensures { IsTrue result ↔ (map plain first.now ≡ map plain second.now) }
{
    if first.len() != second.len() {
        return false;
    }
    for (at, value) in first.iter().enumerate() {
        if !equal(value, &second[at]) {
            return false;
        }
    }
    true
}

fn same_names(first: &[Text], second: &[Text]) -> bool
    ensures { IsTrue result ↔ (first.now ≡ second.now) }
{
    if first.len() != second.len() {
        return false;
    }
    for (at, name) in first.iter().enumerate() {
        if !same_name(name, &second[at]) {
            return false;
        }
    }
    true
}

fn same_name(first: &Text, second: &Text) -> bool
    ensures { IsTrue result ↔ (first.now ≡ second.now) }
{
    first.as_str() == second.as_str()
}
