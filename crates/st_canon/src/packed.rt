ghost use Rattle.std.specs.Prelude.{◌≡◌, IfOk, Ok};
ghost use Rattle.st_plain.specs.ReadAgain.{IsReadAgain, value_read};
ghost use Rattle.st_plain.specs.Shapes.{json_of};
ghost use Rattle.st_canon.specs.Packed.{IsPacked, packed_value};
ghost use Rattle.st_canon.specs.View.{plain};

use crate::measures::{depth, size};
use crate::spelling::write;
use crate::trees::read_again;
use crate::value::Json;
use st_base::{Bytes, Copied, Part, Shared, WantOfMemory};
use std::alloc::Global;
use std::marker::Model;

// The depth up to which the text of every value is read again.
const READ_AGAIN: u64 = 127;

/// A JSON value in compact form, shared by several owners. It is stored as its canonical text,
/// which takes a sixth of the memory of its parts and is read again on demand. If that text is part
/// of a file in memory, it takes almost none. A copy only adds to a count. Contracts see the plain
/// value.
#[derive(Drop)]
pub struct PackedJson {
    form: Shared<Form>,
}

// The stored form: the canonical text, by itself or within a file, or the value's parts if the text
// nests too deep to be read again.
#[derive(Drop)]
pub(crate) enum Form {
    Text(Bytes),
    Within(Part),
    Parts(Json),
}

impl Model for PackedJson {
    ghost use Rattle.st_plain.specs.Plain.{Plain, coded_plain};
    ghost use Rattle.st_canon.specs.Packed.{IsPacked, packed_value};

    ghost Value = { Plain };

    ghost coded = { coded_plain };

    ghost view = { λ packed. packed_value packed.form };

    ghost invariant = { λ packed. IsPacked packed.form };
}

impl PackedJson {
    ghost use Rattle.std.specs.Prelude.{IfSome, min, ◌^◌, ◌-◌};
    ghost use Rattle.st_plain.specs.Plain.{canonical, IsProper};
    ghost use Rattle.st_plain.specs.Measures.{size_of};

    /// The value in compact form.
    pub fn pack(alloc: Global, value: &Json) -> Result<PackedJson, WantOfMemory>
        ensures { IfOk result (λ packed. packed ≡ plain value.now) }
    {
        let form = form_of(alloc, value)?;
        Ok(PackedJson {
            form: Shared::new(alloc, form)?,
        })
    }

    /// The value with this canonical text. If the file has the text at this offset, in bytes, it is
    /// shared with the file; otherwise, also for an offset beyond the file's end, it is stored by
    /// itself.
    pub fn keep_within(
        alloc: Global,
        text: &[u8],
        file: &Shared<Bytes>,
        at: usize,
    ) -> Result<PackedJson, WantOfMemory>
        requires { IsReadAgain text.now }
        ensures { IfOk result (λ packed. packed ≡ value_read (json_of text.now)) }
    {
        let form = form_of_text(alloc, text, Some((file, at)))?;
        Ok(PackedJson {
            form: Shared::new(alloc, form)?,
        })
    }

    /// The value with this canonical text, stored by itself.
    pub fn keep(alloc: Global, text: &[u8]) -> Result<PackedJson, WantOfMemory>
        requires { IsReadAgain text.now }
        ensures { IfOk result (λ packed. packed ≡ value_read (json_of text.now)) }
    {
        let form = form_of_text(alloc, text, None)?;
        Ok(PackedJson {
            form: Shared::new(alloc, form)?,
        })
    }

    /// The value as a tree.
    pub fn unpack(&self, alloc: Global) -> Result<Json, WantOfMemory>
        ensures { IfOk result (λ value. plain value ≡ self.now) }
    {
        match self.form.get() {
            Form::Text(text) => read_again(alloc, text.as_slice()),
            Form::Within(part) => read_again(alloc, part.as_slice()),
            Form::Parts(value) => value.copy(alloc),
        }
    }

    /// The canonical text, if the value is stored as that. `None` says nothing about the value:
    /// `unpack` and `write` then give its text.
    pub fn text(&self) -> Option<&[u8]>
        ensures value { IfSome result (λ text. text.now ≡ canonical self.now) }
        ensures proper { IfSome result (λ _. IsProper self.now) }
        ensures again { IfSome result (λ text. IsReadAgain text.now) }
        ensures read { IfSome result (λ text. value_read (json_of text.now) ≡ self.now) }
    {
        match self.form.get() {
            Form::Text(text) => Some(text.as_slice()),
            Form::Within(part) => Some(part.as_slice()),
            Form::Parts(_) => None,
        }
    }

    /// The length of its canonical text, or `u64::MAX` if that is longer.
    pub fn size(&self) -> u64
        ensures { result ≡ min (size_of self.now) (2 ^ 64 - 1) }
    {
        match self.form.get() {
            Form::Text(text) => text.as_slice().len() as u64,
            Form::Within(part) => part.as_slice().len() as u64,
            Form::Parts(value) => size(value),
        }
    }
}

impl Copied for PackedJson {
    /// Another reference to the same value.
    fn copy(&self, alloc: Global) -> Result<PackedJson, WantOfMemory> {
        Ok(PackedJson {
            form: self.form.copy(alloc)?,
        })
    }
}

// The stored form of a value.
fn form_of(alloc: Global, value: &Json) -> Result<Form, WantOfMemory>
    ensures value { IfOk result (λ form. packed_value form ≡ plain value.now) }
    ensures packed { IfOk result IsPacked }
{
    if depth(value) > READ_AGAIN {
        return Ok(Form::Parts(value.copy(alloc)?));
    }
    let text = write(alloc, value)?;
    form_of_text(alloc, text.as_slice(), None)
}

// The stored form of the value with this canonical text, which a file may have at this offset.
fn form_of_text(
    alloc: Global,
    text: &[u8],
    place: Option<(&Shared<Bytes>, usize)>,
) -> Result<Form, WantOfMemory>
    requires { IsReadAgain text.now }
    ensures value { IfOk result (λ form. packed_value form ≡ value_read (json_of text.now)) }
    ensures packed { IfOk result IsPacked }
{
    if let Some((file, at)) = place {
        if let Some(part) = Part::find(alloc, file, at, text)? {
            return Ok(Form::Within(part));
        }
    }
    // A copy has no spare room.
    Ok(Form::Text(Bytes::from_slice(alloc, text)?))
}
