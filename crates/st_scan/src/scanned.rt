ghost use Rattle.std.specs.List.{flat_map, list_all};
ghost use Rattle.std.specs.Prelude.{◌≡◌, is_some, ◌∷◌, IfSome, Some, map, option_map, ◌≢◌, ◌+◌, ◌≤◌, ℕ, List, IfOk, IfNone};
ghost use Rattle.st_plain.specs.Plain.{canonical, escape, text};
ghost use Rattle.st_plain.specs.Measures.{depth_of, opening_count, size_of};
ghost use Rattle.st_plain.specs.Objects.{items_in, members_in, text_in};
ghost use Rattle.st_plain.specs.ReadAgain.{IsReadAgain, value_read};
ghost use Rattle.st_plain.specs.Shapes.{json_of, is_object_of, member_in, both_members, is_list_if_there, only_member};
ghost use Rattle.st_scan.specs.Standing.{is_object_of_lists_if_there, is_object_of_lists, IsText, value_of, members_left};
ghost use Rattle.st_scan.specs.Texts.{is_text_of};

use crate::members::{Members, find, have_only};
use crate::{brackets, texts};
use st_base::{Bytes, KeptText, Shared, Text, WantOfMemory};
use st_plain::{opened, starts};
use std::alloc::Global;
use std::marker::Model;

// The first byte of a canonical text determines its kind.

#[tactic(auto, using(crate::proofs::ContentLemmas::text_kind))]
pub(crate) fn is_text(text: &[u8]) -> bool
    requires { IsText text.now }
    ensures { result ≡ is_some (text_in (value_of text.now)) }
{
    starts(text, b'"')
}

#[tactic(auto, using(crate::proofs::ContentLemmas::list_kind))]
pub(crate) fn is_list(text: &[u8]) -> bool
    requires { IsText text.now }
    ensures { result ≡ is_some (items_in (value_of text.now)) }
{
    starts(text, b'[')
}

#[tactic(auto, using(crate::proofs::ContentLemmas::object_kind))]
pub(crate) fn is_object(text: &[u8]) -> bool
    requires { IsText text.now }
    ensures { result ≡ is_some (members_in (value_of text.now)) }
{
    starts(text, b'{')
}

// The text after the bracket of an object, if the text is one.
pub(crate) fn members(text: &[u8]) -> Option<&[u8]>
    requires { IsText text.now }
    ensures value { option_map (λ left. members_left left.now) result ≡ members_in (value_of text.now) }
    ensures text { IfSome result (λ left. IsText (123 ∷ left.now)) }
{
    match opened(text, b'{') {
        Some(left) => Some(left),
        None => None,
    }
}

// The text of the value of the member of this name, if the text is an object that has one.
pub(crate) fn member<'a>(text: &'a [u8], name: &str) -> Option<&'a [u8]>
    requires { IsText text.now }
    ensures value { option_map (λ found. value_of found.now) result ≡ member_in name.now (Some (value_of text.now)) }
    ensures text { IfSome result (λ found. IsText found.now) }
{
    let Some(left) = opened(text, b'{') else {
        return None;
    };
    match find(left, name) {
        Some(value) => Some(value),
        None => None,
    }
}

pub(crate) fn is_object_of(text: &[u8], names: &[&str]) -> bool
    requires { IsText text.now }
    ensures { result ≡ is_object_of (map (λ n. n.now) names.now) (Some (value_of text.now)) }
{
    match opened(text, b'{') {
        Some(left) => have_only(left, names),
        None => false,
    }
}

/// Whether the value is missing, or an object whose members all have one of these names and are
/// lists.
pub fn is_object_of_lists_if_there(there: Option<Scanned<'_>>, names: &[&str]) -> bool
    ensures { result ≡ is_object_of_lists_if_there (map (λ n. n.now) names.now) there.entry }
{
    match there {
        None => true,
        Some(value) => value.is_object_of_lists(names),
    }
}

/// A JSON value in its canonical text (RFC 8785). Contracts see the plain value.
#[derive(Drop)]
pub struct Scanned<'a> {
    pub(crate) text: &'a [u8],
}

impl<'a> Model for Scanned<'a> {
    ghost use Rattle.st_plain.specs.Plain.{Plain, coded_plain};
    ghost use Rattle.st_scan.specs.Standing.{IsText, value_of};

    ghost Value = { Plain };

    ghost coded = { coded_plain };

    ghost view = { λ scanned. value_of scanned.text.now };

    ghost invariant = { λ scanned. IsText scanned.text.now };
}

impl<'a> Scanned<'a> {
    /// The value with this canonical text.
    #[tactic(auto, unfolding(crate::specs::Standing::value_of), using(crate::proofs::TextLemmas::text_from_read))]
    pub fn again(text: &'a [u8]) -> Scanned<'a>
        requires { IsReadAgain text.now }
        ensures { result ≡ value_read (json_of text.now) }
    {
        Scanned { text }
    }

    /// Whether it is a text.
    pub fn is_text(&self) -> bool
        ensures { result ≡ is_some (text_in self.now) }
    {
        is_text(self.text)
    }

    /// Whether it is a list.
    pub fn is_list(&self) -> bool
        ensures { result ≡ is_some (items_in self.now) }
    {
        is_list(self.text)
    }

    /// Whether it is an object.
    pub fn is_object(&self) -> bool
        ensures { result ≡ is_some (members_in self.now) }
    {
        is_object(self.text)
    }

    /// The text, if it is one.
    pub fn text(&self, alloc: Global) -> Result<Option<Text>, WantOfMemory>
        ensures { IfOk result (λ found. found ≡ text_in self.now) }
    {
        Ok(texts::text_of(alloc, self.text)?)
    }

    /// The text, if it is one. If JSON escapes none of its bytes and the file has them at this
    /// offset, they are shared with the file.
    pub fn text_within(
        &self,
        alloc: Global,
        file: &Shared<Bytes>,
        at: usize,
    ) -> Result<Option<KeptText>, WantOfMemory>
        ensures { IfOk result (λ found. found ≡ text_in self.now) }
    {
        Ok(texts::text_within(alloc, self.text, file, at)?)
    }

    /// The bytes of the text, if it is one and JSON escapes none of them.
    pub fn bare_text(&self) -> Option<&'a [u8]>
        ensures some { IfSome result (λ bytes. self.now ≡ text bytes.now) }
        ensures none { IfNone result ((bytes : List ℕ) → self.now ≡ text bytes → flat_map escape bytes ≢ bytes) }
    {
        match texts::bare_text(self.text) {
            Some(bytes) => Some(bytes),
            None => None,
        }
    }

    /// Whether it is this text.
    pub fn is_text_of(&self, word: &str) -> bool
        ensures { result ≡ is_text_of word.now self.now }
    {
        texts::is_text_of(self.text, word)
    }

    /// Its members, if it is an object.
    pub fn members(&self) -> Option<Members<'a>>
        ensures { result ≡ members_in self.now }
    {
        match members(self.text) {
            Some(left) => Some(Members { left }),
            None => None,
        }
    }

    /// The value of the member of this name, if it is an object that has one.
    pub fn member(&self, name: &str) -> Option<Scanned<'a>>
        ensures { result ≡ member_in name.now (Some self.now) }
    {
        match member(self.text, name) {
            Some(text) => Some(Scanned { text }),
            None => None,
        }
    }

    /// The value of the member of this name, if it is an object that has it and no other.
    pub fn only_member(&self, name: &str) -> Option<Scanned<'a>>
        ensures { result ≡ only_member name.now (Some self.now) }
    {
        if !self.is_object_of(&[name]) {
            return None;
        }
        self.member(name)
    }

    /// The values of the members of these names, if it is an object that has both and no other.
    pub fn both_members(&self, first: &str, second: &str) -> Option<(Scanned<'a>, Scanned<'a>)>
        ensures { result ≡ both_members first.now second.now (Some self.now) }
    {
        if !self.is_object_of(&[first, second]) {
            return None;
        }
        let one = self.member(first)?;
        let other = self.member(second)?;
        Some((one, other))
    }

    /// Whether it is an object whose members all have one of these names.
    pub fn is_object_of(&self, names: &[&str]) -> bool
        ensures { result ≡ is_object_of (map (λ n. n.now) names.now) (Some self.now) }
    {
        is_object_of(self.text, names)
    }

    /// Whether it is an object whose members all have one of these names and are lists.
    pub fn is_object_of_lists(&self, names: &[&str]) -> bool
        ensures { result ≡ is_object_of_lists (map (λ n. n.now) names.now) (Some self.now) }
    {
        self.is_object_of(names) && are_lists(self, names)
    }

    /// The length of its canonical text.
    pub fn size(&self) -> usize
        ensures { result ≡ size_of self.now }
    {
        texts::size(self.text)
    }

    /// An upper bound of its depth, by the brackets in its text; a scalar, an empty list and an
    /// empty object have depth 1.
    pub fn depth_bound(&self) -> usize
        ensures exact { result ≡ opening_count (canonical self.now) + 1 }
        ensures depth { depth_of self.now ≤ result }
    {
        brackets::depth_bound(self.text)
    }

    /// The text, which is read as the value again.
    pub fn as_slice(&self) -> &'a [u8]
        ensures again { IsReadAgain result.now }
        ensures value { value_read (json_of result.now) ≡ self.now }
    {
        texts::as_slice(self.text)
    }
}

// Whether each of these members that the value has is a list.
fn are_lists(value: &Scanned<'_>, names: &[&str]) -> bool
    ensures { result ≡ list_all (λ name. is_list_if_there (member_in name (Some value.now))) (map (λ n. n.now) names.now) }
{
    'names: for name in names {
        if !is_list_if_there(value.member(name)) {
            return false;
        }
    }
    true
}

fn is_list_if_there(there: Option<Scanned<'_>>) -> bool
    ensures { result ≡ is_list_if_there there.entry }
{
    match there {
        Some(value) => value.is_list(),
        None => true,
    }
}
