ghost use Rattle.std.specs.Prelude.{◌≡◌, IfOk};
ghost use Rattle.st_doc.specs.Document.{document_in, empty_document, plain_document};

use st_base::{Copied, Shared, WantOfMemory};
use st_canon::PackedJson;
use st_doc::Document;
use std::alloc::Global;
use std::marker::Model;

/// The document of a state, shared between states: a copy only adds to a count. It stays a tree
/// until the state is packed, since it may be updated again soon. Contracts see the document.
#[derive(Drop)]
pub(crate) struct KeptDocument {
    form: DocumentForm,
}

// The stored form of a document: its packed JSON, or its parts.
#[derive(Drop)]
pub(crate) enum DocumentForm {
    Packed(PackedJson),
    Parts(Shared<Document>),
}

impl Model for KeptDocument {
    ghost use Rattle.st_apply.specs.Codes.{document_code};
    ghost use Rattle.st_apply.specs.inside.Applied.{document_kept};
    ghost use Rattle.st_doc.specs.Document.{PlainDocument};

    ghost Value = { PlainDocument };

    ghost coded = { document_code };

    ghost view = { λ kept. document_kept kept.form };
}

impl KeptDocument {
    /// The document without entries.
    pub(crate) fn empty(alloc: Global) -> Result<KeptDocument, WantOfMemory>
        ensures { IfOk result (λ kept. kept ≡ empty_document) }
    {
        KeptDocument::share(alloc, Document::empty(alloc))
    }

    /// The document in compact form.
    pub fn pack(alloc: Global, document: Document) -> Result<KeptDocument, WantOfMemory>
        ensures { IfOk result (λ kept. kept ≡ plain_document document) }
    {
        let json = document.into_json(alloc)?;
        let json = PackedJson::pack(alloc, &json)?;
        Ok(KeptDocument {
            form: DocumentForm::Packed(json),
        })
    }

    /// The document as a tree.
    pub(crate) fn share(alloc: Global, document: Document) -> Result<KeptDocument, WantOfMemory>
        ensures { IfOk result (λ kept. kept ≡ plain_document document) }
    {
        Ok(KeptDocument {
            form: DocumentForm::Parts(Shared::new(alloc, document)?),
        })
    }

    /// The same document, packed.
    pub(crate) fn packed(&self, alloc: Global) -> Result<KeptDocument, WantOfMemory>
        ensures { IfOk result (λ kept. kept ≡ self.now) }
    {
        match &self.form {
            DocumentForm::Packed(json) => Ok(KeptDocument {
                form: DocumentForm::Packed(json.copy(alloc)?),
            }),
            DocumentForm::Parts(document) => KeptDocument::pack(alloc, document.get().copy(alloc)?),
        }
    }

    /// The document, for reading. A packed one is read, a tree is shared.
    pub fn open(&self, alloc: Global) -> Result<Shared<Document>, WantOfMemory>
        ensures { IfOk result (λ document. plain_document document ≡ self.now) }
    {
        match &self.form {
            DocumentForm::Packed(json) => Shared::new(alloc, document_of(alloc, json)?),
            DocumentForm::Parts(document) => document.copy(alloc),
        }
    }

    /// The document, for changing: it shares nothing.
    pub(crate) fn unpack(&self, alloc: Global) -> Result<Document, WantOfMemory>
        ensures { IfOk result (λ document. plain_document document ≡ self.now) }
    {
        match &self.form {
            DocumentForm::Packed(json) => document_of(alloc, json),
            DocumentForm::Parts(document) => document.get().copy(alloc),
        }
    }
}

impl Copied for KeptDocument {
    /// Another reference to the same document.
    fn copy(&self, alloc: Global) -> Result<KeptDocument, WantOfMemory> {
        match &self.form {
            DocumentForm::Packed(json) => Ok(KeptDocument {
                form: DocumentForm::Packed(json.copy(alloc)?),
            }),
            DocumentForm::Parts(document) => Ok(KeptDocument {
                form: DocumentForm::Parts(document.copy(alloc)?),
            }),
        }
    }
}

fn document_of(alloc: Global, json: &PackedJson) -> Result<Document, WantOfMemory>
    ensures { IfOk result (λ document. plain_document document ≡ document_in json.now) }
{
    let json = json.unpack(alloc)?;
    Document::from_json(alloc, json)
}
