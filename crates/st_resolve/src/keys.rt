ghost use Rattle.std.specs.Prelude.{◌≡◌, ◌++◌, OnOk, codes, ◌∷◌, [], false, is_some, map, true};
ghost use Rattle.st_plain.specs.Plain.{quoted, canonical, canonical_items};
ghost use Rattle.st_plain.specs.Objects.{text_there, some_list, items_of};
ghost use Rattle.st_canon.specs.View.{plain};
ghost use Rattle.st_doc.specs.Alike.{is_among};
ghost use Rattle.st_doc.specs.Document.{id_of, texts_of};
ghost use Rattle.st_resolve.specs.Result.{reference_to, controller_of, has_purpose, method_of, references_for};
ghost use Rattle.st_resolve.specs.inside.Texts.{method_text, references_text, value_text};

use st_base::{Bytes, WantOfMemory};
use st_canon::{Json, append, append_comma, append_escaped, append_text, append_there, entries_in};
use std::alloc::Global;

/// Appends the reference to a key or a service: `#` and its id, between quotes.
#[tactic(auto, unfolding(st_plain::specs::Plain::escape))]
pub(crate) fn append_reference(
    alloc: Global,
    out: &mut Bytes,
    entry: &Json,
) -> Result<(), WantOfMemory>
    ensures { OnOk result (out.new ≡ out.old ++ quoted (reference_to (plain entry.now))) }
{
    out.push_all(alloc, b"\"#")?;
    append_escaped(alloc, out, id_of(entry).as_bytes())?;
    out.push_all(alloc, b"\"")
}

// The id of a key or a service, or the empty text if it has none.
fn id_of(entry: &Json) -> &str
    ensures { result.now ≡ id_of (plain entry.now) }
{
    match entry.member("id") {
        Some(Json::Text(id)) => id.as_str(),
        _ => "",
    }
}

/// Appends the list of the keys as verification methods after this prefix, or nothing if there is
/// none.
#[tactic(auto, unfolding(st_plain::specs::Objects::some_list))]
pub(crate) fn append_methods(
    alloc: Global,
    out: &mut Bytes,
    front: &[u8],
    did: &str,
    keys: &[Json],
) -> Result<(), WantOfMemory>
    ensures { OnOk result (out.new ≡ out.old ++ text_there front.now
        (some_list (map (method_of did.now) (map plain keys.now))) []) }
{
    if keys.is_empty() {
        return Ok(());
    }
    out.push_all(alloc, front)?;
    out.push_all(alloc, b"[")?;
    append_each_method(alloc, out, did, keys)?;
    out.push_all(alloc, b"]")
}

fn append_each_method(
    alloc: Global,
    out: &mut Bytes,
    did: &str,
    keys: &[Json],
) -> Result<(), WantOfMemory>
    ensures { OnOk result (out.new ≡ out.old ++ canonical_items false
        (items_of (map (method_of did.now) (map plain keys.now)))) }
{
    let mut comma = false;
    for key in keys {
        append_comma(alloc, out, comma)?;
        append_method(alloc, out, did, key)?;
        comma = true;
    }
    Ok(())
}

fn append_method(alloc: Global, out: &mut Bytes, did: &str, key: &Json) -> Result<(), WantOfMemory>
    ensures { OnOk result (out.new ≡ out.old ++ canonical (method_of did.now (plain key.now))) }
{
    append_method_parts(alloc, out, did, key)?;
    Ok(())
}

#[tactic(auto, unfolding(crate::specs::inside::Texts::method_text))]
fn append_method_parts(
    alloc: Global,
    out: &mut Bytes,
    did: &str,
    key: &Json,
) -> Result<(), WantOfMemory>
    ensures { OnOk result (out.new ≡ out.old ++ method_text did.now (plain key.now)) }
{
    out.push_all(alloc, b"{\"controller\":")?;
    append_controller(alloc, out, did, key)?;
    out.push_all(alloc, b",\"id\":")?;
    append_reference(alloc, out, key)?;
    let jwk = key.member("publicKeyJwk");
    append_there(alloc, out, b",\"publicKeyJwk\":", jwk, b"")?;
    let kind = key.member("type");
    append_there(alloc, out, b",\"type\":", kind, b"")?;
    out.push_all(alloc, b"}")?;
    Ok(())
}

// The controller of the key: the one that it names, or else the identifier.
#[tactic(auto, unfolding(crate::specs::inside::Texts::value_text))]
fn append_controller(
    alloc: Global,
    out: &mut Bytes,
    did: &str,
    key: &Json,
) -> Result<(), WantOfMemory>
    ensures { OnOk result (out.new ≡ out.old ++ value_text (controller_of did.now (plain key.now))) }
{
    match key.member("controller") {
        Some(controller) => append(alloc, out, controller),
        None => append_text(alloc, out, did),
    }
}

/// Appends the list of references to the keys that serve this purpose between these texts, or
/// nothing if there is none.
#[tactic(auto, using(crate::proofs::ResultLemmas::none_there))]
pub(crate) fn append_references(
    alloc: Global,
    out: &mut Bytes,
    front: &[u8],
    purpose: &str,
    keys: &[Json],
    back: &[u8],
) -> Result<(), WantOfMemory>
    ensures { OnOk result (out.new ≡ out.old ++ references_text front.now purpose.now (map plain keys.now) back.now) }
{
    if serves_any(purpose, keys) {
        append_some_references(alloc, out, front, purpose, keys, back)
    } else {
        Ok(())
    }
}

#[tactic(auto, unfolding(st_plain::specs::Objects::some_list))]
fn serves_any(purpose: &str, keys: &[Json]) -> bool
    ensures { result ≡ is_some (some_list (references_for purpose.now (map plain keys.now))) }
{
    for key in keys {
        if has_purpose(purpose, key) {
            return true;
        }
    }
    false
}

fn append_some_references(
    alloc: Global,
    out: &mut Bytes,
    front: &[u8],
    purpose: &str,
    keys: &[Json],
    back: &[u8],
) -> Result<(), WantOfMemory>
    requires { is_some (some_list (references_for purpose.now (map plain keys.now))) ≡ true }
    ensures { OnOk result (out.new ≡ out.old ++ references_text front.now purpose.now (map plain keys.now) back.now) }
{
    append_list(alloc, out, front, purpose, keys, back)?;
    Ok(())
}

fn append_list(
    alloc: Global,
    out: &mut Bytes,
    front: &[u8],
    purpose: &str,
    keys: &[Json],
    back: &[u8],
) -> Result<(), WantOfMemory>
    ensures { OnOk result (out.new ≡ out.old ++ (front.now ++ (91 ∷ (canonical_items false
        (items_of (references_for purpose.now (map plain keys.now))) ++ 93 ∷ back.now)))) }
{
    out.push_all(alloc, front)?;
    out.push_all(alloc, b"[")?;
    append_each_reference(alloc, out, purpose, keys)?;
    out.push_all(alloc, b"]")?;
    out.push_all(alloc, back)
}

fn append_each_reference(
    alloc: Global,
    out: &mut Bytes,
    purpose: &str,
    keys: &[Json],
) -> Result<(), WantOfMemory>
    ensures { OnOk result (out.new ≡ out.old ++ canonical_items false
        (items_of (references_for purpose.now (map plain keys.now)))) }
{
    let mut comma = false;
    for key in keys {
        if has_purpose(purpose, key) {
            append_comma(alloc, out, comma)?;
            append_reference(alloc, out, key)?;
            comma = true;
        }
    }
    Ok(())
}

fn has_purpose(purpose: &str, key: &Json) -> bool
    ensures { result ≡ has_purpose purpose.now (plain key.now) }
{
    has_text(entries_in(key.member("purposes")), purpose)
}

fn has_text(values: &[Json], text: &str) -> bool
    ensures { result ≡ is_among (texts_of (map plain values.now)) text.now }
{
    for value in values {
        if let Json::Text(other) = value {
            if other.as_str() == text {
                return true;
            }
        }
    }
    false
}
