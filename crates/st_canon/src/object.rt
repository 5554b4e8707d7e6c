ghost use Rattle.std.specs.List.{list_any};
ghost use Rattle.std.specs.Map.{lookup};
ghost use Rattle.std.specs.Option.{option_copied};
ghost use Rattle.std.specs.Prelude.{IfOk, IfErr, ◌≡◌, Some, None, map, option_map, IfNone, OnOk, OnErr, []};
ghost use Rattle.std.specs.Str.{IsUtf8};
ghost use Rattle.st_plain.specs.Objects.{OthersStay, has_only, member_at, put, without, is_empty};
ghost use Rattle.st_plain.specs.Names.{is_name};
ghost use Rattle.st_plain.specs.Plain.{object};
ghost use Rattle.st_plain.specs.Shapes.{text_at};
ghost use Rattle.st_plain.specs.inside.Objects.{in_order, placed, NamesDiffer, NamesAscend};
ghost use Rattle.st_canon.specs.View.{plain, plain_members};
ghost use Rattle.st_canon.specs.inside.Place.{IsPlaceOf, IsGapFor};

use crate::value::{Json, Object};
use st_base::{List, Text, WantOfMemory};
use st_plain::compare;
use std::alloc::{AllocError, Global};
use std::marker::Model;

// The place of the member of this name, or as an error the place to insert it.
pub(crate) fn place_of<T>(pairs: &[(Text, T)], name: &str) -> Result<usize, usize>
    requires { NamesAscend pairs.now }
    ensures place { IfOk result (IsPlaceOf name.now pairs.now) }
    ensures gap { IfErr result (IsGapFor name.now pairs.now) }
{
    pairs.binary_search_by(|pair| compare(pair.0.as_str(), name))
}

// Up to this many members, comparing each name byte by byte is faster than a search in the order of
// names.
const FEW: usize = 8;

impl Object {
    /// The value of the member of this name.
    pub fn get(&self, name: &str) -> Option<&Json>
        ensures value { option_map plain (option_copied result) ≡ member_at name.now (plain_members self.now) }
        ensures found { option_copied result ≡ lookup (is_name name.now) self.now }
    {
        let pairs = self.pairs();
        if pairs.len() <= FEW {
            scanned(pairs, name)
        } else {
            self.searched(name)
        }
    }

    fn searched(&self, name: &str) -> Option<&Json>
        ensures value { option_map plain (option_copied result) ≡ member_at name.now (plain_members self.now) }
        ensures found { option_copied result ≡ lookup (is_name name.now) self.now }
    {
        match place_of(self.pairs.as_slice(), name) {
            Ok(at) => Some(&self.pairs[at].1),
            Err(_) => None,
        }
    }

    /// Whether there is no member.
    pub fn is_empty(&self) -> bool
        ensures { result ≡ is_empty (plain_members self.now) }
    {
        self.pairs().is_empty()
    }

    /// The value of the member of this name, if that is a text.
    pub fn text(&self, name: &str) -> Option<&str>
        ensures { option_map (λ text. text.now) result ≡ text_at name.now (Some (object (plain_members self.now))) }
    {
        self.get(name)?.as_text()
    }

    /// Adds the member, or replaces the one of its name.
    pub fn insert(&mut self, _alloc: Global, name: Text, value: Json) -> Result<(), WantOfMemory>
        ensures ok { OnOk result (plain_members self.new ≡ put name (plain value) (plain_members self.old)) }
        ensures here { OnOk result (member_at name (plain_members self.new) ≡ Some (plain value)) }
        ensures others { OnOk result (OthersStay name (plain_members self.old) (plain_members self.new)) }
        ensures err { OnErr result (self.new ≡ self.old) }
    {
        match self.place(name, value) {
            Ok(()) => Ok(()),
            Err(want) => Err(want),
        }
    }

    /// `insert` with a copy of the name.
    pub fn set(&mut self, alloc: Global, name: &str, value: Json) -> Result<(), WantOfMemory>
        ensures ok { OnOk result (plain_members self.new ≡ put name.now (plain value) (plain_members self.old)) }
        ensures here { OnOk result (member_at name.now (plain_members self.new) ≡ Some (plain value)) }
        ensures others { OnOk result (OthersStay name.now (plain_members self.old) (plain_members self.new)) }
        ensures err { OnErr result (self.new ≡ self.old) }
    {
        let name = Text::from_text(alloc, name)?;
        self.insert(alloc, name, value)
    }

    /// Removes and returns the member of this name. If there is none, nothing changes.
    pub fn remove(&mut self, name: &str) -> Option<Json>
        ensures value { option_map plain result ≡ member_at name.now (plain_members self.old) }
        ensures rest { plain_members self.new ≡ without name.now (plain_members self.old) }
        ensures gone { member_at name.now (plain_members self.new) ≡ None }
        ensures others { OthersStay name.now (plain_members self.old) (plain_members self.new) }
        ensures same { IfNone result (self.new ≡ self.old) }
    {
        match place_of(self.pairs.as_slice(), name) {
            Ok(at) => {
                let (_name, value) = self.pairs.remove(at);
                Some(value)
            }
            Err(_) => None,
        }
    }

    /// Whether each member has one of these names.
    pub fn has_only(&self, names: &[&str]) -> bool
        ensures { result ≡ has_only (map (λ n. n.now) names.now) (plain_members self.now) }
    {
        for (name, _) in self.pairs() {
            if !is_among(name.as_str(), names) {
                return false;
            }
        }
        true
    }
}

fn scanned<'a>(pairs: &'a [(Text, Json)], name: &str) -> Option<&'a Json>
    ensures value { option_map plain (option_copied result) ≡ member_at name.now (plain_members pairs.now) }
    ensures found { option_copied result ≡ lookup (is_name name.now) pairs.now }
{
    for (other, value) in pairs {
        if name == other.as_str() {
            return Some(value);
        }
    }
    None
}

fn is_among(name: &str, names: &[&str]) -> bool
    ensures { result ≡ list_any (is_name name.now) (map (λ n. n.now) names.now) }
{
    for other in names {
        if name == *other {
            return true;
        }
    }
    false
}

/// Named values, each name once. Contracts see them as their pairs of a name and a value, whose
/// names ascend strictly as UTF-16 code units.
#[derive(Drop)]
pub struct Members<T> {
    pub(crate) pairs: Vec<(Text, T)>,
}

impl<T> Model for Members<T> {
    ghost use Rattle.std.specs.Prelude.{List, ℕ};
    ghost use Rattle.std.specs.Coded.{coded_list, coded_ℕ, coded×};
    ghost use Rattle.std.specs.Str.{IsUtf8};
    ghost use Rattle.st_plain.specs.inside.Objects.{NamesAscend};

    ghost Value = { List (List ℕ × T) };

    ghost coded = { coded_list (coded× (coded_list coded_ℕ) T.code) };

    ghost view = { λ o. o.pairs.items };

    ghost invariant = { λ o. NamesAscend o.pairs.items };
}

impl<T> Members<T> {
    /// No members. It allocates nothing.
    pub fn new(alloc: Global) -> Members<T>
        ensures { result ≡ [] }
    {
        Members {
            pairs: Vec::new(alloc),
        }
    }

    /// All members, in the order of their names.
    pub fn pairs(&self) -> &[(Text, T)]
        ensures all { result.now ≡ self.now }
        ensures ascend { NamesAscend self.now }
    {
        self.pairs.as_slice()
    }

    ghost use Rattle.std.specs.Borrow.{sem};
    ghost use Rattle.std.specs.Map.{lookup};
    ghost use Rattle.std.specs.Option.{option_copied_mut};
    ghost use Rattle.std.specs.Str.{IsUtf8};
    ghost use Rattle.st_plain.specs.Names.{is_name};
    ghost use Rattle.st_canon.specs.inside.Place.{lends_member};

    /// A mutable reference to the value of the member of this name.
    pub fn get_mut(&mut self, name: &str) -> Option<&mut T>
        ensures* writes_back { sem 𝓛 (lends_member T.row self.entry name.now result) }
        ensures value { option_copied_mut result ≡ lookup (is_name name.now) self.old }
    {
        match place_of(self.pairs.as_slice(), name) {
            Ok(at) => {
                let pair = &mut self.pairs[at];
                Some(&mut pair.1)
            }
            Err(_) => None,
        }
    }

    // Takes over pairs that are already in order.
    pub(crate) fn from_pairs(pairs: Vec<(Text, T)>) -> Members<T>
        requires { NamesAscend pairs.items }
        ensures { result ≡ pairs.items }
    {
        Members { pairs }
    }
}

impl<T: Drop> Members<T> {
    // Takes over pairs with different names, in any order.
    pub(crate) fn sorted(mut pairs: Vec<(Text, T)>) -> Result<Members<T>, AllocError>
        requires { NamesDiffer pairs.items }
        ensures { IfOk result (λ members. members ≡ in_order pairs.items) }
    {
        pairs.sort_by(|first, second| compare(first.0.as_str(), second.0.as_str()))?;
        Ok(Members { pairs })
    }

    // Adds the member, or replaces the one of its name.
    pub(crate) fn place(&mut self, name: Text, value: T) -> Result<(), WantOfMemory>
        ensures ok { OnOk result (self.new ≡ placed (name, value) self.old) }
        ensures utf8 { OnOk result (IsUtf8 name) }
        ensures err { OnErr result (self.new ≡ self.old) }
    {
        match place_of(self.pairs.as_slice(), name.as_str()) {
            Ok(at) => {
                self.pairs[at] = (name, value);
            }
            Err(at) => {
                self.pairs.insert(at, (name, value))?;
            }
        }
        Ok(())
    }
}
