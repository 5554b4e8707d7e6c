ghost use Rattle.std.specs.Prelude.{◌≡◌, ◌∷◌, [], IfNone, IfSome, None, Some, length};
ghost use Rattle.st_plain.specs.Plain.{no_members};
ghost use Rattle.st_plain.specs.Shapes.{entries_in, only_of};
ghost use Rattle.st_plain.specs.inside.Walk.{behind_comma};
ghost use Rattle.st_scan.specs.Standing.{IsText, entries_left, members_left, value_of};
ghost use Rattle.st_scan.specs.inside.Standing.{IsNextEntry, IsNextMember};

use crate::scanned::Scanned;
use st_plain::{behind_first, opened, split_value, starts};
use std::marker::Model;

// The first remaining entry of a list, and the rest after it.
pub(crate) fn next_entry(left: &[u8]) -> Option<(&[u8], &[u8])>
    requires { IsText (91 ∷ left.now) }
    ensures none { IfNone result (entries_left left.now ≡ []) }
    ensures some { IfSome result (λ found. IsNextEntry left.now found.0.now found.1.now) }
{
    if starts(left, b']') {
        return None;
    }
    let (entry, rest) = split_value(left);
    Some((entry, behind_comma(rest)))
}

// The name and the value of the first remaining member of an object, and the rest after it.
pub(crate) fn next_member(left: &[u8]) -> Option<(&[u8], &[u8], &[u8])>
    requires { IsText (123 ∷ left.now) }
    ensures none { IfNone result (members_left left.now ≡ no_members) }
    ensures some { IfSome result (λ found. IsNextMember left.now found.0.now found.1.now found.2.now) }
{
    if starts(left, b'}') {
        return None;
    }
    let (name, after) = split_value(left);
    let (value, rest) = split_value(behind_first(after));
    Some((name, value, behind_comma(rest)))
}

fn behind_comma(text: &[u8]) -> &[u8]
    ensures { result.now ≡ behind_comma text.now }
{
    match text.split_first() {
        Some((byte, behind)) => { if *byte == b',' { behind } else { text } }
        None => text,
    }
}

const CLOSING: &[u8] = b"]";

// The remaining text of an empty list.
pub(crate) fn no_entries() -> &'static [u8]
    ensures value { entries_left result.now ≡ [] }
    ensures text { IsText (91 ∷ result.now) }
{
    CLOSING
}

// The remaining text of a list before its first entry. Any other value has no entries.
pub(crate) fn left_of(text: &[u8]) -> &[u8]
    requires { IsText text.now }
    ensures value { entries_left result.now ≡ entries_in (Some (value_of text.now)) }
    ensures text { IsText (91 ∷ result.now) }
{
    match opened(text, b'[') {
        Some(left) => left,
        None => no_entries(),
    }
}

// How many entries remain.
pub(crate) fn count(left: &[u8]) -> usize
    requires { IsText (91 ∷ left.now) }
    ensures { result ≡ length (entries_left left.now) }
{
    let mut rest = left;
    let mut count: usize = 0;
    'entries: while let Some((_entry, others)) = next_entry(rest) {
        count += 1;
        rest = others;
    }
    count
}

// The remaining entry, if there is only one.
pub(crate) fn only(left: &[u8]) -> Option<&[u8]>
    requires { IsText (91 ∷ left.now) }
    ensures some { IfSome result (λ text. only_of (entries_left left.now) ≡ Some (value_of text.now)) }
    ensures text { IfSome result (λ text. IsText text.now) }
    ensures none { IfNone result (only_of (entries_left left.now) ≡ None) }
{
    let Some((entry, others)) = next_entry(left) else {
        return None;
    };
    if !starts(others, b']') {
        return None;
    }
    Some(entry)
}

/// A cursor over the entries of a list in its canonical text. Contracts see the remaining entries.
#[derive(Drop)]
pub struct Entries<'a> {
    // The text after the bracket of the list or after a comma: with a bracket in front it is the
    // canonical text of the list of the remaining entries.
    left: &'a [u8],
}

impl<'a> Model for Entries<'a> {
    ghost use Rattle.std.specs.Prelude.{List, ◌∷◌};
    ghost use Rattle.std.specs.Coded.{coded_list};
    ghost use Rattle.st_plain.specs.Plain.{Plain, coded_plain};
    ghost use Rattle.st_scan.specs.Standing.{IsText, entries_left};

    ghost Value = { List Plain };

    ghost coded = { coded_list coded_plain };

    ghost view = { λ entries. entries_left entries.left.now };

    ghost invariant = { λ entries. IsText (91 ∷ entries.left.now) };
}

/// The entries of a list. A missing value and any other kind have none.
pub fn entries_in<'a>(there: Option<Scanned<'a>>) -> Entries<'a>
    ensures { result ≡ entries_in there.entry }
{
    let Some(value) = there else {
        return Entries { left: no_entries() };
    };
    Entries {
        left: left_of(value.text),
    }
}

/// The entry of a list that has only one.
pub fn only_of<'a>(entries: Entries<'a>) -> Option<Scanned<'a>>
    ensures { result ≡ only_of entries.entry }
{
    match only(entries.left) {
        Some(text) => Some(Scanned { text }),
        None => None,
    }
}

impl<'a> Entries<'a> {
    /// The next entry.
    pub fn next(&mut self) -> Option<Scanned<'a>>
        ensures none { IfNone result ((self.old ≡ []) × (self.new ≡ [])) }
        ensures some { IfSome result (λ entry. self.old ≡ entry ∷ self.new) }
    {
        match next_entry(self.left) {
            Some((text, rest)) => {
                self.left = rest;
                Some(Scanned { text })
            }
            None => None,
        }
    }

    /// A second cursor over the same entries.
    pub fn again(&self) -> Entries<'a>
        ensures { result ≡ self.now }
    {
        Entries { left: self.left }
    }

    /// How many entries remain.
    pub fn count(&self) -> usize
        ensures { result ≡ length self.now }
    {
        count(self.left)
    }
}
