ghost use Rattle.std.specs.Prelude.{◌≡◌, ◌++◌, [], OnOk, codes, false, map};
ghost use Rattle.st_plain.specs.Plain.{canonical, canonical_items, text};
ghost use Rattle.st_plain.specs.Objects.{text_there, object_of_some, some_list, items_of};
ghost use Rattle.st_doc.specs.Document.{plain_document};
ghost use Rattle.st_apply.specs.Laws.{opened};
ghost use Rattle.st_resolve.specs.Result.{described, did_document, id_alone};
ghost use Rattle.st_resolve.specs.inside.Texts.{alone_text, back_text, described_text, front_text, value_text};

use crate::keys::{append_methods, append_references};
use crate::services::append_services;
use st_apply::StateParts;
use st_base::{Bytes, Text, WantOfMemory};
use st_canon::{append_comma, append_text};
use st_doc::Document;
use std::alloc::Global;

/// Appends the DID document of the identifier `did`; if it is not active, it has only the
/// identifier.
#[tactic(auto, unfolding(crate::specs::inside::Texts::value_text))]
pub(crate) fn append_did_document(
    alloc: Global,
    out: &mut Bytes,
    did: &str,
    state: &StateParts,
) -> Result<(), WantOfMemory>
    ensures { OnOk result (out.new ≡ out.old ++ value_text (did_document did.now (opened state.now))) }
{
    match state {
        StateParts::Active { document, .. } => append_described(alloc, out, did, document.get()),
        _ => append_alone(alloc, out, did),
    }
}

fn append_alone(alloc: Global, out: &mut Bytes, did: &str) -> Result<(), WantOfMemory>
    ensures { OnOk result (out.new ≡ out.old ++ canonical (object_of_some (id_alone did.now))) }
{
    append_alone_parts(alloc, out, did)?;
    Ok(())
}

#[tactic(auto, unfolding(crate::specs::inside::Texts::alone_text))]
fn append_alone_parts(alloc: Global, out: &mut Bytes, did: &str) -> Result<(), WantOfMemory>
    ensures { OnOk result (out.new ≡ out.old ++ alone_text did.now) }
{
    out.push_all(alloc, b"{\"id\":")?;
    append_text(alloc, out, did)?;
    out.push_all(alloc, b"}")
}

fn append_described(
    alloc: Global,
    out: &mut Bytes,
    did: &str,
    document: &Document,
) -> Result<(), WantOfMemory>
    ensures { OnOk result (out.new ≡ out.old ++ canonical
        (object_of_some (described did.now (plain_document document.now)))) }
{
    append_described_parts(alloc, out, did, document)?;
    Ok(())
}

#[tactic(auto, unfolding(crate::specs::inside::Texts::described_text))]
fn append_described_parts(
    alloc: Global,
    out: &mut Bytes,
    did: &str,
    document: &Document,
) -> Result<(), WantOfMemory>
    ensures { OnOk result (out.new ≡ out.old ++ described_text did.now (plain_document document.now)) }
{
    out.push_all(alloc, b"{")?;
    append_front(alloc, out, document)?;
    out.push_all(alloc, b"\"id\":")?;
    append_text(alloc, out, did)?;
    append_back(alloc, out, did, document)?;
    Ok(())
}

#[tactic(auto, unfolding(crate::specs::inside::Texts::front_text))]
fn append_front(alloc: Global, out: &mut Bytes, document: &Document) -> Result<(), WantOfMemory>
    ensures { OnOk result (out.new ≡ out.old ++ front_text (plain_document document.now)) }
{
    append_names(alloc, out, b"\"alsoKnownAs\":", document.names(), b",")?;
    let keys = document.keys();
    append_references(
        alloc,
        out,
        b"\"assertionMethod\":",
        "assertionMethod",
        keys,
        b",",
    )?;
    append_references(
        alloc,
        out,
        b"\"authentication\":",
        "authentication",
        keys,
        b",",
    )?;
    append_references(
        alloc,
        out,
        b"\"capabilityDelegation\":",
        "capabilityDelegation",
        keys,
        b",",
    )?;
    append_references(
        alloc,
        out,
        b"\"capabilityInvocation\":",
        "capabilityInvocation",
        keys,
        b",",
    )
}

#[tactic(auto, unfolding(crate::specs::inside::Texts::back_text))]
fn append_back(
    alloc: Global,
    out: &mut Bytes,
    did: &str,
    document: &Document,
) -> Result<(), WantOfMemory>
    ensures { OnOk result (out.new ≡ out.old ++ back_text did.now (plain_document document.now)) }
{
    let keys = document.keys();
    append_references(alloc, out, b",\"keyAgreement\":", "keyAgreement", keys, b"")?;
    append_services(alloc, out, b",\"service\":", document.services())?;
    append_methods(alloc, out, b",\"verificationMethod\":", did, keys)?;
    out.push_all(alloc, b"}")
}

// Appends the list of the names between these texts, or nothing if there is none.
#[tactic(auto, unfolding(st_plain::specs::Objects::some_list))]
fn append_names(
    alloc: Global,
    out: &mut Bytes,
    front: &[u8],
    names: &[Text],
    back: &[u8],
) -> Result<(), WantOfMemory>
    ensures { OnOk result (out.new ≡ out.old ++ text_there front.now (some_list (map text names.now)) back.now) }
{
    if names.is_empty() {
        return Ok(());
    }
    out.push_all(alloc, front)?;
    out.push_all(alloc, b"[")?;
    append_each_name(alloc, out, names)?;
    out.push_all(alloc, b"]")?;
    out.push_all(alloc, back)
}

fn append_each_name(alloc: Global, out: &mut Bytes, names: &[Text]) -> Result<(), WantOfMemory>
    ensures { OnOk result (out.new ≡ out.old ++ canonical_items false (items_of (map text names.now))) }
{
    let mut comma = false;
    for name in names {
        append_comma(alloc, out, comma)?;
        append_text(alloc, out, name.as_str())?;
        comma = true;
    }
    Ok(())
}
