ghost use Rattle.std.specs.Cow.{cow_slice_items};
ghost use Rattle.std.specs.Prelude.{◌≡◌, IfOk};
ghost use Rattle.st_base.specs.Answers.{GivesAs};
ghost use Rattle.st_plain.specs.Plain.{canonical, IsProper};
ghost use Rattle.st_plain.specs.ReadAgain.{IsReadAgain, value_read};
ghost use Rattle.st_plain.specs.Shapes.{json_of, refusal_of, json_in};
ghost use Rattle.st_scan.specs.Standing.{IsText, value_of};

use crate::scanned::Scanned;
use st_base::{Bytes, WantOfMemory};
use st_plain::{ReadRefused, canonical_text};
use std::alloc::Global;
use std::borrow::CowSlice;
use std::marker::Model;

/// The canonical text (RFC 8785) of a JSON value. Bytes that are canonical already are borrowed.
/// Contracts see the plain value.
#[derive(Drop)]
pub struct CanonicalText<'a> {
    text: CowSlice<'a, u8>,
}

impl<'a> Model for CanonicalText<'a> {
    ghost use Rattle.std.specs.Cow.{cow_slice_items};
    ghost use Rattle.st_plain.specs.Plain.{Plain, coded_plain};
    ghost use Rattle.st_scan.specs.Standing.{IsText, value_of};

    ghost Value = { Plain };

    ghost coded = { coded_plain };

    ghost view = { λ canonical. value_of (cow_slice_items canonical.text) };

    ghost invariant = { λ canonical. IsText (cow_slice_items canonical.text) };
}

impl<'a> CanonicalText<'a> {
    /// The canonical text of JSON of any spelling. A member that appears twice has its last value.
    ///
    /// The result is `NotJson` if and only if the bytes are not JSON, and `NotWhole` if and only if
    /// they are JSON with a number that no `Whole` holds or that is written as a float.
    pub fn read(alloc: Global, bytes: &'a [u8]) -> Result<CanonicalText<'a>, ReadRefused>
        ensures value { GivesAs (λ text. text) refusal_of (json_of bytes.now) result }
        ensures proper { IfOk result (λ text. IsProper text) }
    {
        let text = text_of(alloc, bytes)?;
        Ok(CanonicalText { text })
    }

    /// The same; `None` if and only if the bytes are not JSON with whole numbers.
    pub fn read_json(
        alloc: Global,
        bytes: &'a [u8],
    ) -> Result<Option<CanonicalText<'a>>, WantOfMemory>
        ensures { IfOk result (λ found. found ≡ json_in bytes.now) }
    {
        match text_of(alloc, bytes) {
            Ok(text) => Ok(Some(CanonicalText { text })),
            Err(ReadRefused::NotJson) => Ok(None),
            Err(ReadRefused::NotWhole) => Ok(None),
            Err(ReadRefused::WantOfMemory) => Err(WantOfMemory),
        }
    }

    /// The value with this canonical text.
    #[tactic(auto, unfolding(crate::specs::Standing::value_of), using(crate::proofs::TextLemmas::text_from_read))]
    pub fn again(text: Bytes) -> CanonicalText<'a>
        requires { IsReadAgain text }
        ensures { result ≡ value_read (json_of text) }
    {
        CanonicalText {
            text: CowSlice::Owned(text.into_vec()),
        }
    }

    /// The text.
    pub fn as_slice(&self) -> &[u8]
        ensures { result.now ≡ canonical self.now }
    {
        self.text.as_slice()
    }

    /// The value, in the text.
    pub fn root(&self) -> Scanned<'_>
        ensures { result ≡ self.now }
    {
        Scanned {
            text: self.text.as_slice(),
        }
    }
}

// The canonical text of JSON of any spelling.
#[tactic(auto, unfolding(crate::specs::Standing::value_of), using(crate::proofs::TextLemmas::text_from_read))]
pub(crate) fn text_of(alloc: Global, bytes: &[u8]) -> Result<CowSlice<'_, u8>, ReadRefused>
    ensures value { GivesAs (λ text. value_of (cow_slice_items text)) refusal_of (json_of bytes.now) result }
    ensures text { IfOk result (λ text. IsText (cow_slice_items text)) }
{
    match canonical_text(alloc, bytes) {
        Ok(text) => Ok(text),
        Err(refused) => Err(refused),
    }
}
