ghost use Rattle.std.specs.Prelude.{◌≡◌, ◌++◌, ◌||◌, ℕ, codes, is_some, IfOk, OnOk, None};
ghost use Rattle.st_plain.specs.Plain.{canonical};
ghost use Rattle.st_plain.specs.inside.Objects.{member_text};
ghost use Rattle.st_plain.specs.Objects.{some_object};
ghost use Rattle.st_plain.specs.Shapes.{json_in};
ghost use Rattle.st_indexfiles.specs.CoreIndex.{core_index_of, core_json, core_operations, first_failing_core_rule, create_json, create_of, target_json, target_of};
ghost use Rattle.st_indexfiles.specs.inside.CoreParts.{AreReadAgain};
ghost use Rattle.st_params.specs.ParamsValue.{ParamsValue};

use crate::core_index::CoreIndex;
use crate::members::{append_list, append_name, append_uri};
use st_base::{Bytes, WantOfMemory};
use std::alloc::Global;

/// The canonical text of a core index file with this content. Empty lists are left out, and an
/// `operations` without lists.
pub fn write_core(alloc: Global, index: &CoreIndex) -> Result<Bytes, WantOfMemory>
    ensures text { IfOk result (λ text. text ≡ canonical (core_json index.now)) }
    // If the text fails no rule, it is read as the same index.
    ensures read { IfOk result (λ text. (limits : ParamsValue) (count : ℕ) → first_failing_core_rule limits count text ≡ None
        → core_index_of limits.version (json_in text) ≡ index.now) }
{
    let mut text = Bytes::new(alloc);
    text.push_all(alloc, b"{")?;
    let due = append_uri(
        alloc,
        &mut text,
        false,
        "coreProofFileUri",
        &index.core_proof,
    )?;
    let due = append_operations(alloc, &mut text, due, index)?;
    append_uri(
        alloc,
        &mut text,
        due,
        "provisionalIndexFileUri",
        &index.provisional,
    )?;
    text.push_all(alloc, b"}")?;
    Ok(text)
}

// Appends the operations by kind, if there are any.
fn append_operations(
    alloc: Global,
    text: &mut Bytes,
    due: bool,
    index: &CoreIndex,
) -> Result<bool, WantOfMemory>
    ensures text { OnOk result (text.new ≡ text.old ++ member_text due (codes "operations") (some_object (core_operations index.now))) }
    ensures later { IfOk result (λ later. later ≡ (due || is_some (some_object (core_operations index.now)))) }
    ensures creates { OnOk result (AreReadAgain create_of create_json index.now.creates) }
    ensures recovers { OnOk result (AreReadAgain target_of target_json index.now.recovers) }
    ensures deactivates { OnOk result (AreReadAgain target_of target_json index.now.deactivates) }
{
    if !has_operations(index) {
        return Ok(due);
    }
    append_name(alloc, text, due, "operations")?;
    text.push_all(alloc, b"{")?;
    let behind = append_list(alloc, text, false, "create", index.creates.as_slice())?;
    let behind = append_list(
        alloc,
        text,
        behind,
        "deactivate",
        index.deactivates.as_slice(),
    )?;
    append_list(alloc, text, behind, "recover", index.recovers.as_slice())?;
    text.push_all(alloc, b"}")?;
    Ok(true)
}

fn has_operations(index: &CoreIndex) -> bool
    ensures { result ≡ is_some (some_object (core_operations index.now)) }
{
    (index.creates.len() > 0) | (index.recovers.len() > 0) | (index.deactivates.len() > 0)
}
