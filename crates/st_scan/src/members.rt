ghost use Rattle.std.specs.List.{list_any};
ghost use Rattle.std.specs.Prelude.{◌≡◌, ◌∷◌, ℕ, List, IfNone, IfSome, None, Some, map, ◌≢◌, ◌↔◌, IsTrue};
ghost use Rattle.std.specs.Str.{IsUtf8};
ghost use Rattle.st_plain.specs.Plain.{quoted, Plain, Members, no_members, member};
ghost use Rattle.st_plain.specs.Objects.{has_only, member_at};
ghost use Rattle.st_plain.specs.Names.{is_name};
ghost use Rattle.st_scan.specs.Standing.{IsText, members_left, value_of};

use crate::entries::next_member;
use crate::scanned::Scanned;
use st_plain::{is_named, starts};
use std::marker::Model;

// The value of the member of this name, if it is among the remaining ones.
pub(crate) fn find<'a>(left: &'a [u8], name: &str) -> Option<&'a [u8]>
    requires { IsText (123 ∷ left.now) }
    ensures some { IfSome result (λ text. member_at name.now (members_left left.now) ≡ Some (value_of text.now)) }
    ensures text { IfSome result (λ text. IsText text.now) }
    ensures none { IfNone result (member_at name.now (members_left left.now) ≡ None) }
{
    let mut rest = left;
    'members: while let Some((key, value, others)) = next_member(rest) {
        if is_named(key, name) {
            return Some(value);
        }
        rest = others;
    }
    None
}

// Whether each remaining member has one of these names.
pub(crate) fn have_only(left: &[u8], names: &[&str]) -> bool
    requires { IsText (123 ∷ left.now) }
    ensures { result ≡ has_only (map (λ n. n.now) names.now) (members_left left.now) }
{
    let mut rest = left;
    'members: while let Some((key, _value, others)) = next_member(rest) {
        if !is_among(key, names) {
            return false;
        }
        rest = others;
    }
    true
}

fn is_among(key: &[u8], names: &[&str]) -> bool
    ensures { (word : List ℕ) → IsUtf8 word → key.now ≡ quoted word → result ≡ list_any (is_name word) (map (λ n. n.now) names.now) }
{
    'names: for name in names {
        if is_named(key, name) {
            return true;
        }
    }
    false
}

/// A cursor over the members of an object in its canonical text, in the order of their names (RFC
/// 8785, section 3.2.3). Contracts see the remaining members.
#[derive(Drop)]
pub struct Members<'a> {
    // The text after the bracket of the object or after a comma: with a bracket in front it is the
    // canonical text of the object of the remaining members.
    pub(crate) left: &'a [u8],
}

impl<'a> Model for Members<'a> {
    ghost use Rattle.std.specs.Prelude.{◌∷◌};
    ghost use Rattle.st_plain.specs.Plain.{Members, coded_members};
    ghost use Rattle.st_scan.specs.Standing.{IsText, members_left};

    ghost Value = { Members };

    ghost coded = { coded_members };

    ghost view = { λ members. members_left members.left.now };

    ghost invariant = { λ members. IsText (123 ∷ members.left.now) };
}

impl<'a> Members<'a> {
    /// The value of the next member, if that has this name; the cursor then moves past it. If it
    /// has another name, or no member remains, nothing changes.
    pub fn next_named(&mut self, name: &str) -> Option<Scanned<'a>>
        ensures some { IfSome result (λ value. self.old ≡ member name.now value self.new) }
        ensures none { IfNone result ((value : Plain) → (others : Members) → self.old ≢ member name.now value others) }
        ensures stay { IfNone result (self.new ≡ self.old) }
    {
        let Some((key, text, others)) = next_member(self.left) else {
            return None;
        };
        if !is_named(key, name) {
            return None;
        }
        self.left = others;
        Some(Scanned { text })
    }

    /// Whether no member remains.
    pub fn is_empty(&self) -> bool
        ensures { IsTrue result ↔ (self.now ≡ no_members) }
    {
        starts(self.left, b'}')
    }
}
