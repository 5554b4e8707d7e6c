ghost use Rattle.std.specs.Prelude.{◌≡◌, map, IfOk, option_map, Some};
ghost use Rattle.std.specs.Result.{result_ok};
ghost use Rattle.st_base.specs.Answers.{GivesAs};
ghost use Rattle.st_base.specs.Lists.{each_is};
ghost use Rattle.st_plain.specs.Objects.{items_in, text_in};
ghost use Rattle.st_plain.specs.Plain.{text, object};
ghost use Rattle.st_plain.specs.Shapes.{entries_in, member_in, is_object_of};
ghost use Rattle.st_plain.specs.inside.Walk.{list_at};
ghost use Rattle.st_canon.specs.View.{plain, plain_members, plain_items};
ghost use Rattle.st_doc.specs.Document.{document_json, document_members, plain_document, document_in, document_names, document_of, has_document_form, refusal_of, texts_of};

use crate::check::{if_document, may_have_names};
use st_base::{Copied, List, Text, WantOfMemory};
use st_canon::{Json, Object, entries_in, is_list_if_there, some_list};
use st_params::Params;
use std::alloc::Global;
use thiserror::Error;

/// The document of an identifier: its keys, its services, and its other names (`alsoKnownAs`).
#[derive(Drop)]
pub struct Document {
    pub(crate) keys: List<Json>,
    pub(crate) services: List<Json>,
    pub(crate) names: List<Text>,
}

impl Document {
    ghost use Rattle.std.specs.Prelude.{◌≡◌, map};
    ghost use Rattle.st_canon.specs.View.{plain};
    ghost use Rattle.st_doc.specs.Document.{empty_document, plain_document};

    /// The document without keys, services and names. It allocates nothing.
    pub fn empty(alloc: Global) -> Document
        ensures { plain_document result ≡ empty_document }
    {
        Document {
            keys: List::new(alloc),
            services: List::new(alloc),
            names: List::new(alloc),
        }
    }

    /// The keys, in order.
    pub fn keys(&self) -> &[Json]
        ensures { map plain result.now ≡ (plain_document self.now).keys }
    {
        self.keys.as_slice()
    }

    /// The services, in order.
    pub fn services(&self) -> &[Json]
        ensures { map plain result.now ≡ (plain_document self.now).services }
    {
        self.services.as_slice()
    }

    /// The names, in order.
    pub fn names(&self) -> &[Text]
        ensures { result.now ≡ (plain_document self.now).names }
    {
        self.names.as_slice()
    }
}

impl Copied for Document {
    fn copy(&self, alloc: Global) -> Result<Document, WantOfMemory> {
        Ok(Document {
            keys: self.keys.copy(alloc)?,
            services: self.services.copy(alloc)?,
            names: self.names.copy(alloc)?,
        })
    }
}

impl Document {
    /// Its JSON: the keys and the services, and the names, if there is one.
    pub fn json(&self, alloc: Global) -> Result<Json, WantOfMemory>
        ensures { IfOk result (λ json. plain json ≡ document_json (plain_document self.now)) }
    {
        let copy = self.copy(alloc)?;
        copy.into_json(alloc)
    }

    /// The same; it takes over keys and services without a copy.
    pub fn into_json(self, alloc: Global) -> Result<Json, WantOfMemory>
        ensures { IfOk result (λ json. plain json ≡ document_json (plain_document self)) }
    {
        Ok(Json::Object(self.into_members(alloc)?))
    }

    #[tactic(auto, unfolding(st_plain::specs::Objects::put_some))]
    fn into_members(self, alloc: Global) -> Result<Object, WantOfMemory>
        ensures { IfOk result (λ members. plain_members members ≡ document_members (plain_document self)) }
    {
        let Document {
            keys,
            services,
            names,
        } = self;
        let names = text_list(alloc, names.as_slice())?;
        let mut members = Object::new(alloc);
        members.set(alloc, "publicKeys", Json::List(keys))?;
        members.set(alloc, "services", Json::List(services))?;
        members.set_some(alloc, "alsoKnownAs", some_list(names))?;
        Ok(members)
    }
}

fn text_list(alloc: Global, texts: &[Text]) -> Result<List<Json>, WantOfMemory>
    ensures { IfOk result (λ list. map plain list ≡ map text texts.now) }
{
    let mut list = List::new(alloc);
    for text in texts {
        let text = text.copy(alloc)?;
        list.push(alloc, Json::Text(text))?;
    }
    Ok(list)
}

impl Document {
    /// The contents of the value's lists, which are taken out. The result does not depend on the
    /// parameters: whether a document may have these contents is not checked.
    pub fn from_json(alloc: Global, value: Json) -> Result<Document, WantOfMemory>
        ensures { IfOk result (λ document. plain_document document ≡ document_in (plain value)) }
    {
        match value {
            Json::Object(members) => taken_out(alloc, members),
            _ => Ok(Document::empty(alloc)),
        }
    }
}

#[tactic(auto, using(st_plain::proofs::NameLemmas::by_name))]
fn taken_out(alloc: Global, members: Object) -> Result<Document, WantOfMemory>
    ensures { IfOk result (λ document. plain_document document ≡ document_in (object (plain_members members))) }
{
    let mut members = members;
    let names = texts_of(alloc, entries_in(members.get("alsoKnownAs")))?;
    let keys = list_out(alloc, members.remove("publicKeys"));
    let services = list_out(alloc, members.remove("services"));
    Ok(Document {
        keys,
        services,
        names,
    })
}

/// The items of a list. A missing value and any other kind have none.
pub(crate) fn list_out(alloc: Global, there: Option<Json>) -> List<Json>
    ensures { map plain result ≡ entries_in (option_map plain there) }
{
    match there {
        Some(value) => list_of(alloc, value),
        None => List::new(alloc),
    }
}

// The list, if the value is one; else no items.
#[tactic(auto, using(st_canon::proofs::TreeLemmas::entries_listed))]
fn list_of(alloc: Global, value: Json) -> List<Json>
    ensures { map plain result ≡ entries_in (Some (plain value)) }
{
    match items_of(value) {
        Some(items) => items,
        None => List::new(alloc),
    }
}

fn items_of(value: Json) -> Option<List<Json>>
    ensures { option_map plain_items result ≡ items_in (plain value) }
{
    match value {
        Json::List(items) => Some(items),
        _ => None,
    }
}

/// Copies of the texts among these values.
pub(crate) fn texts_of(alloc: Global, values: &[Json]) -> Result<List<Text>, WantOfMemory>
    ensures { IfOk result (λ texts. texts ≡ texts_of (map plain values.now)) }
{
    let mut texts = List::new(alloc);
    for value in values {
        if let Json::Text(text) = value {
            texts.push(alloc, text.copy(alloc)?)?;
        }
    }
    Ok(texts)
}

impl Document {
    /// The document at these parameters of a value.
    ///
    /// The result is `NotDocument` if and only if the value is not one.
    pub fn read(alloc: Global, value: &Json, params: &Params) -> Result<Document, DocumentRefused>
        ensures { GivesAs plain_document refusal_of (document_of params.now (plain value.now)) result }
    {
        match take_document(alloc, value.copy(alloc)?, params)? {
            Some(document) => Ok(document),
            None => Err(DocumentRefused::NotDocument),
        }
    }
}

/// The document at these parameters of a value, which it takes over.
pub(crate) fn take_document(
    alloc: Global,
    value: Json,
    params: &Params,
) -> Result<Option<Document>, WantOfMemory>
    ensures { IfOk result (λ document. option_map plain_document document
        ≡ result_ok (document_of params.now (plain value))) }
{
    if !has_document_form(&value, params.version()) {
        return Ok(None);
    }
    let document = Document::from_json(alloc, value)?;
    if_document(alloc, document, params)
}

// Whether the value is an object of lists, and that of the names is a list of texts.
#[tactic(auto, unfolding(crate::specs::Document::has_document_form))]
fn has_document_form(value: &Json, version: u8) -> bool
    ensures { result ≡ has_document_form version (plain value.now) }
{
    if !has_document_names(value, version) {
        return false;
    }
    if !is_list_if_there(value.member("publicKeys")) {
        return false;
    }
    if !is_list_if_there(value.member("services")) {
        return false;
    }
    if !is_list_if_there(value.member("alsoKnownAs")) {
        return false;
    }
    are_texts(entries_in(value.member("alsoKnownAs")))
}

fn has_document_names(value: &Json, version: u8) -> bool
    ensures { result ≡ is_object_of (document_names version) (Some (plain value.now)) }
{
    if may_have_names(version) {
        value.is_object_of(&["publicKeys", "services", "alsoKnownAs"])
    } else {
        value.is_object_of(&["publicKeys", "services"])
    }
}

pub(crate) fn are_texts(values: &[Json]) -> bool
    ensures { result ≡ each_is text_in (map plain values.now) }
{
    for value in values {
        if value.as_text().is_none() {
            return false;
        }
    }
    true
}

/// Why a value is not read as a document.
#[derive(Clone, Copy, Debug, Drop, Error, PartialEq, Eq)]
pub enum DocumentRefused {
    /// The value is not a document of the version.
    #[error("not a document")]
    NotDocument,
    #[error("out of memory")]
    WantOfMemory,
}

impl From<WantOfMemory> for DocumentRefused {
    ghost use Rattle.std.specs.Prelude.{◌≡◌};
    ghost use Rattle.st_doc.specs.declared.document.DocumentRefused.TheVariants.{WantOfMemory};

    ghost from_gives = { λ _ refused. refused ≡ WantOfMemory };

    fn from(_want: WantOfMemory) -> DocumentRefused {
        DocumentRefused::WantOfMemory
    }
}
