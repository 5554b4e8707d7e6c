ghost use Rattle.std.specs.Prelude.{◌≡◌, IfOk, IfSome};
ghost use Rattle.std.specs.Str.{IsUtf8};
ghost use Rattle.st_base.specs.Texts.{IsKeptText, bytes_of};

use crate::bytes::{Bytes, Text};
use crate::copied::Copied;
use crate::errors::WantOfMemory;
use crate::pointers::Shared;
use std::alloc::Global;
use std::marker::Model;

/// A text in compact form: part of a file in memory if the file has it, else by itself. Contracts
/// see its bytes, which are UTF-8.
#[derive(Drop)]
pub struct KeptText {
    form: KeptForm,
}

// The stored form: the text itself, or its place in a file.
#[derive(Drop)]
pub(crate) enum KeptForm {
    Own(Text),
    Within(Part),
}

impl Model for KeptText {
    ghost use Rattle.std.specs.Prelude.{List, ℕ};
    ghost use Rattle.st_base.specs.Texts.{IsKeptText, bytes_of};

    ghost Value = { List ℕ };

    ghost view = { λ kept. bytes_of kept.form };

    ghost invariant = { λ kept. IsKeptText kept.form };
}

impl KeptText {
    /// This text, stored by itself.
    pub fn new(text: Text) -> KeptText
        ensures { result ≡ text }
    {
        KeptText {
            form: KeptForm::Own(text),
        }
    }

    /// This text. If the file has it at this offset, in bytes, it is shared with the file;
    /// otherwise, also for an offset beyond the file's end, a copy is stored by itself.
    pub fn within(
        alloc: Global,
        text: &str,
        file: &Shared<Bytes>,
        at: usize,
    ) -> Result<KeptText, WantOfMemory>
        ensures { IfOk result (λ kept. kept ≡ text.now) }
    {
        let form = form_of(alloc, text, file, at)?;
        Ok(KeptText { form })
    }

    /// Its bytes.
    pub fn as_slice(&self) -> &[u8]
        ensures bytes { result.now ≡ self.now }
        ensures utf8 { IsUtf8 self.now }
    {
        bytes_of(&self.form)
    }

    /// The text. If it is shared, this checks all of its bytes.
    pub fn as_str(&self) -> &str
        ensures { result.now ≡ self.now }
    {
        text_of(&self.form)
    }
}

impl Copied for KeptText {
    /// An equal text, which shares the same file, if any.
    fn copy(&self, alloc: Global) -> Result<KeptText, WantOfMemory> {
        let form = copy_form(alloc, &self.form)?;
        Ok(KeptText { form })
    }
}

fn form_of(
    alloc: Global,
    text: &str,
    file: &Shared<Bytes>,
    at: usize,
) -> Result<KeptForm, WantOfMemory>
    ensures value { IfOk result (λ form. bytes_of form ≡ text.now) }
    ensures utf8 { IfOk result IsKeptText }
{
    match Part::find(alloc, file, at, text.as_bytes())? {
        Some(part) => Ok(KeptForm::Within(part)),
        None => Ok(KeptForm::Own(Text::from_text(alloc, text)?)),
    }
}

fn bytes_of(form: &KeptForm) -> &[u8]
    requires { IsKeptText form.now }
    ensures bytes { result.now ≡ bytes_of form.now }
    ensures utf8 { IsUtf8 result.now }
{
    match form {
        KeptForm::Own(text) => text.as_str().as_bytes(),
        KeptForm::Within(part) => part.as_slice(),
    }
}

fn copy_form(alloc: Global, form: &KeptForm) -> Result<KeptForm, WantOfMemory>
    requires { IsKeptText form.now }
    ensures value { IfOk result (λ copied. bytes_of copied ≡ bytes_of form.now) }
    ensures utf8 { IfOk result IsKeptText }
{
    match form {
        KeptForm::Own(text) => Ok(KeptForm::Own(text.copy(alloc)?)),
        KeptForm::Within(part) => Ok(KeptForm::Within(part.copy(alloc)?)),
    }
}

fn text_of(form: &KeptForm) -> &str
    requires { IsKeptText form.now }
    ensures { result.now ≡ bytes_of form.now }
{
    match form {
        KeptForm::Own(text) => text.as_str(),
        KeptForm::Within(part) => decoded(part.as_slice()),
    }
}

// Bytes in UTF-8 as a text.
fn decoded(bytes: &[u8]) -> &str
    requires { IsUtf8 bytes.now }
    ensures { result.now ≡ bytes.now }
{
    match simdutf8::basic::from_utf8(bytes) {
        Ok(text) => text,
        Err(_) => unreachable!(),
    }
}

/// A part of a file, which shares the file with others. Contracts see its bytes.
#[derive(Drop)]
pub struct Part {
    file: Shared<Bytes>,
    from: usize,
    to: usize,
}

impl Model for Part {
    ghost use Rattle.std.specs.Prelude.{◌≤◌, ℕ, List, length, slice_range};

    ghost Value = { List ℕ };

    ghost view = { λ part. slice_range part.file part.from part.to };

    ghost invariant = { λ part. (part.from ≤ part.to) × (part.to ≤ length part.file) };
}

impl Part {
    /// The part of the file at this offset, in bytes, if that is this text.
    pub fn find(
        alloc: Global,
        file: &Shared<Bytes>,
        from: usize,
        text: &[u8],
    ) -> Result<Option<Part>, WantOfMemory>
        ensures { IfOk result (λ found. IfSome found (λ part. part ≡ text.now)) }
    {
        let bytes = file.get().as_slice();
        if from > bytes.len() || text.len() > bytes.len() - from {
            return Ok(None);
        }
        let to = from + text.len();
        if &bytes[from..to] != text {
            return Ok(None);
        }
        Ok(Some(Part {
            file: file.copy(alloc)?,
            from,
            to,
        }))
    }

    /// Its bytes.
    pub fn as_slice(&self) -> &[u8]
        ensures { result.now ≡ self.now }
    {
        &self.file.get().as_slice()[self.from..self.to]
    }
}

impl Copied for Part {
    /// Another reference to the same file.
    fn copy(&self, alloc: Global) -> Result<Part, WantOfMemory> {
        Ok(Part {
            file: self.file.copy(alloc)?,
            from: self.from,
            to: self.to,
        })
    }
}
