ghost use Rattle.std.specs.Prelude.{◌≡◌, ◌↔◌, ◌==◌, ℕ, ◌≤◌, ◌∷◌, [], false, true, length, if◌then◌else◌, IfOk, OnOk};
ghost use Rattle.std.specs.BTreeMap.{is_at};
ghost use Rattle.std.specs.BTreeSet.{contains};
ghost use Rattle.std.specs.List.{list_any};
ghost use Rattle.std.specs.List.Sorted.{IsStrictlySortedBy};
ghost use Rattle.std.specs.Map.{keys_of};
ghost use Rattle.std.specs.Ordering.{as_partial_cmp, nat_cmp};
ghost use Rattle.st_hash.specs.Hash.{HashValue, hash_text, same_hash};
ghost use Rattle.st_observer.specs.Observed.{is_waiting, text_cmp};
ghost use Rattle.st_observer.specs.inside.Waiting.{AreRead, AreRows, IsRead, IsWaitedFor, SetsMissed, TurnsTo, WaitsBy, same_text, same_text-equivalence, same_text-ties, seen, text_cmp-partial, text_cmp-total};

use st_anchor::RoleState;
use st_base::{List, Text, WantOfMemory};
use st_hash::{Hash, hash_text};
use std::alloc::Global;
use std::cmp::Ordering;
use std::collections::{BTreeMap, BTreeSet};
use std::marker::Model;

/// The numbers of the entries that wait for a file, by its URI, in the order of the URIs' texts.
/// Only URIs for which an entry waits are stored.
#[derive(Drop)]
pub struct Waiting {
    files: Files,
}

type Files = BTreeMap<ByText, BTreeSet<u32>>;

impl Model for Waiting {
    ghost use Rattle.st_observer.specs.Observed.{Waits};
    ghost use Rattle.st_observer.specs.inside.Waiting.{AreRows, seen};

    ghost Value = { Waits };

    ghost view = { λ w. seen w.files.entries };

    ghost invariant = { λ w. AreRows w.files.entries };
}

impl Waiting {
    /// No entry waits. It allocates nothing.
    pub fn new(alloc: Global) -> Waiting
        ensures { (uri : HashValue) (n : ℕ) → is_waiting uri n result ≡ false }
    {
        Waiting {
            files: BTreeMap::new(alloc),
        }
    }

    /// Changes the states of an entry's roles from `before` to `after`: it then waits for exactly
    /// the files missing in `after`.
    pub fn turn(
        &mut self,
        alloc: Global,
        n: u32,
        before: &[RoleState; 5],
        after: &[RoleState; 5],
    ) -> Result<(), WantOfMemory>
        requires { WaitsBy n before.now self.old }
        ensures { OnOk result (TurnsTo n after.now self.old self.new) }
    {
        set_missed(alloc, &mut self.files, before.as_slice(), n, false)?;
        set_missed(alloc, &mut self.files, after.as_slice(), n, true)?;
        Ok(())
    }

    /// The numbers of the entries that wait for the file of this URI, ascending.
    pub fn entries(&self, alloc: Global, uri: &Hash) -> Result<List<u32>, WantOfMemory>
        ensures those { IfOk result (λ entries. (n : ℕ) → list_any (λ m. m == n) entries ≡ is_waiting uri.now n self.now) }
        ensures once { IfOk result (IsStrictlySortedBy nat_cmp) }
    {
        let key = ByText::new(alloc, uri)?;
        match self.files.get(&key) {
            Some(entries) => Ok(listed(alloc, entries)?),
            None => Ok(List::new(alloc)),
        }
    }

    /// Whether some entry waits for the file of this URI.
    pub fn has(&self, alloc: Global, uri: &Hash) -> Result<bool, WantOfMemory>
        ensures waited { IfOk result (λ found. (found ≡ true) ↔ IsWaitedFor uri.now self.now) }
        ensures read { OnOk result (AreRead self.now) }
    {
        let key = ByText::new(alloc, uri)?;
        Ok(self.files.contains_key(&key))
    }

    /// The URIs of the files that some entry waits for, ascending by the bytes of their texts.
    pub fn uris(&self, alloc: Global) -> Result<List<Hash>, WantOfMemory>
        ensures ordered { IfOk result (IsStrictlySortedBy text_cmp) }
        ensures waited { IfOk result (λ uris. (uri : HashValue) → list_any (same_hash uri) uris
            ≡ true → IsWaitedFor uri self.now) }
        ensures all { IfOk result (λ uris. (uri : HashValue) → IsWaitedFor uri self.now
            → list_any (same_hash uri) uris ≡ true) }
    {
        Ok(uris_of(alloc, &self.files)?)
    }
}

// Sets whether the entry waits for the files that are missing for these roles.
fn set_missed(
    alloc: Global,
    files: &mut Files,
    states: &[RoleState],
    n: u32,
    waits: bool,
) -> Result<(), WantOfMemory>
    requires { AreRows files.old.entries }
    ensures rows { AreRows files.new.entries }
    ensures sets { OnOk result (SetsMissed states.now n waits (seen files.old.entries) (seen files.new.entries)) }
{
    'states: for state in states {
        set_for(alloc, files, state, n, waits)?;
    }
    Ok(())
}

// The same for the missing file of one role, if any.
fn set_for(
    alloc: Global,
    files: &mut Files,
    state: &RoleState,
    n: u32,
    waits: bool,
) -> Result<(), WantOfMemory>
    requires { AreRows files.old.entries }
    ensures rows { AreRows files.new.entries }
    ensures sets { OnOk result (SetsMissed (state.now ∷ []) n waits (seen files.old.entries) (seen files.new.entries)) }
{
    if let RoleState::Missing(uri) = state {
        set(alloc, files, uri, n, waits)?;
    }
    Ok(())
}

// The same for the file of this URI. Its row is taken out, changed, and put back unless it is
// empty.
fn set(
    alloc: Global,
    files: &mut Files,
    uri: &Hash,
    n: u32,
    waits: bool,
) -> Result<(), WantOfMemory>
    requires { AreRows files.old.entries }
    ensures rows { AreRows files.new.entries }
    ensures sets { OnOk result (SetsMissed (RoleState.Missing uri.now ∷ []) n waits
        (seen files.old.entries) (seen files.new.entries)) }
{
    let key = ByText::new(alloc, uri)?;
    let entries = files.remove(&key).unwrap_or(BTreeSet::new(alloc));
    let entries = changed(entries, n, waits)?;
    if entries.is_empty() {
        return Ok(());
    }
    files.insert(key, entries)?;
    Ok(())
}

// The numbers with this one, or without it.
fn changed(entries: BTreeSet<u32>, n: u32, has: bool) -> Result<BTreeSet<u32>, WantOfMemory>
    ensures { IfOk result (λ changed. (m : ℕ) → contains nat_cmp changed m
        ≡ (if is_at (nat_cmp n) m then has else contains nat_cmp entries m)) }
{
    let mut entries = entries;
    if has {
        entries.insert(n)?;
        return Ok(entries);
    }
    entries.remove(&n);
    Ok(entries)
}

fn listed(alloc: Global, entries: &BTreeSet<u32>) -> Result<List<u32>, WantOfMemory>
    ensures value { IfOk result (λ numbers. numbers ≡ entries.now.keys) }
    ensures ascend { IsStrictlySortedBy nat_cmp entries.now.keys }
{
    let mut numbers = List::new(alloc);
    'entries: for n in entries {
        numbers.push(alloc, *n)?;
    }
    Ok(numbers)
}

fn uris_of(alloc: Global, files: &Files) -> Result<List<Hash>, WantOfMemory>
    ensures value { IfOk result (λ uris. uris ≡ keys_of files.now.entries) }
    ensures ascend { IsStrictlySortedBy text_cmp (keys_of files.now.entries) }
{
    let mut uris = List::new(alloc);
    'files: for key in files.keys() {
        uris.push(alloc, key.uri())?;
    }
    Ok(uris)
}

// A URI in the order of the texts of URIs, which is not the order of their digests.
#[derive(Drop)]
struct ByText {
    uri: Hash,
    text: Text,
}

impl Model for ByText {
    ghost use Rattle.std.specs.Prelude.{◌≡◌};
    ghost use Rattle.st_hash.specs.Hash.{HashValue, hash_text};

    ghost Value = { HashValue };

    ghost view = { λ key. key.uri };

    ghost invariant = { λ key. key.text ≡ hash_text key.uri };
}

impl ByText {
    fn new(alloc: Global, uri: &Hash) -> Result<ByText, WantOfMemory>
        ensures value { IfOk result (λ key. key ≡ uri.now) }
        ensures read { IfOk result IsRead }
    {
        let text = hash_text(alloc, uri)?;
        Ok(ByText { uri: *uri, text })
    }

    fn uri(&self) -> Hash
        ensures { result ≡ self.now }
    {
        self.uri
    }

    fn bytes(&self) -> &[u8]
        ensures { result.now ≡ hash_text self.now }
    {
        self.text.as_str().as_bytes()
    }
}

impl PartialEq for ByText {
    ghost use Rattle.std.specs.Cmp.{partial_equiv_from_equiv};

    ghost eq = { same_text };

    ghost laws = { partial_equiv_from_equiv same_text-equivalence };

    fn eq(&self, other: &ByText) -> bool {
        self.bytes() == other.bytes()
    }
}

impl Eq for ByText {
    ghost laws = { same_text-equivalence };
}

impl PartialOrd for ByText {
    ghost partial_cmp = { as_partial_cmp text_cmp };

    ghost laws = { text_cmp-partial };

    fn partial_cmp(&self, other: &ByText) -> Option<Ordering> {
        Some(self.cmp(other))
    }
}

impl Ord for ByText {
    ghost use Rattle.std.specs.Prelude.{refl};

    ghost cmp = { text_cmp };

    ghost total = { text_cmp-total };

    ghost matches_partial_cmp = { λ first second. refl };

    ghost matches_eq = { same_text-ties };

    fn cmp(&self, other: &ByText) -> Ordering {
        self.bytes().cmp(other.bytes())
    }
}
