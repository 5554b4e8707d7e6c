ghost use Rattle.std.specs.BTreeSet.{IsFromIterResult};
ghost use Rattle.std.specs.Option.{option_copied};
ghost use Rattle.std.specs.Prelude.{◌≡◌, ◌≤◌, ◌++◌, ℕ, Option, Some, IfOk, OnOk, map};
ghost use Rattle.st_base.specs.Lists.{each_of, has_twice, shares_one};
ghost use Rattle.st_plain.specs.Plain.{canonical, Plain};
ghost use Rattle.st_plain.specs.Shapes.{entries_in, member_in};
ghost use Rattle.st_hash.specs.Hash.{same_hash};
ghost use Rattle.st_indexfiles.specs.CoreIndex.{suffix_of, ReadsAs};

use crate::members::{append_hash, hash_in};
use crate::suffix_data::{SuffixData, suffix_of};
use st_base::{Bytes, Copied, List, WantOfMemory};
use st_hash::Hash;
use st_scan::{Entries, Scanned, entries_in};
use std::alloc::{AllocError, Global};
use std::collections::BTreeSet;

/// The content of an entry in a list of operations.
pub(crate) trait Entry: Drop {
    ghost of: { ℕ → Plain → Option Self };

    ghost json: { Self → Plain };

    /// The content of the entry, with the hash texts of the version.
    fn read(entry: &Scanned<'_>, version: u8) -> Option<Self>
        requires first { 1 ≤ version }
        requires last { version ≤ 2 }
        ensures { result ≡ of version entry.now };

    /// Appends the canonical text of the entry with this content. Every version that reads it reads
    /// this content.
    fn append(&self, alloc: Global, out: &mut Bytes) -> Result<(), WantOfMemory>
        ensures text { OnOk result (out.new ≡ out.old ++ canonical (json self.now)) }
        ensures read { OnOk result ((version : ℕ) → ReadsAs (of version (json self.now)) self.now) };
}

/// The entries of the operations of one kind.
pub(crate) fn entries_of<'a>(operations: Option<&Scanned<'a>>, kind: &str) -> Entries<'a>
    ensures { result ≡ entries_in (member_in kind.now (option_copied operations.entry)) }
{
    match operations {
        Some(operations) => entries_in(operations.member(kind)),
        None => entries_in(None),
    }
}

/// The contents of all entries, if each has one.
pub(crate) fn read_entries<T: Entry>(
    alloc: Global,
    entries: Entries<'_>,
    version: u8,
) -> Result<Option<List<T>>, WantOfMemory>
    requires first { 1 ≤ version }
    requires last { version ≤ 2 }
    ensures { IfOk result (λ said. said ≡ each_of (T.of version) entries.entry) }
{
    let mut left = entries;
    let mut said = List::new(alloc);
    'entries: while let Some(entry) = left.next() {
        let Some(one) = T::read(&entry, version) else {
            return Ok(None);
        };
        said.push(alloc, one)?;
    }
    Ok(Some(said))
}

/// The target of an update, a recover or a deactivate: the suffix of the identifier, and the reveal
/// value of its key.
#[derive(Clone, Copy, Debug, PartialEq, Eq)]
pub struct Target {
    pub suffix: Hash,
    pub reveal: Hash,
}

impl Copied for Target {
    fn copy(&self, _alloc: Global) -> Result<Target, WantOfMemory> {
        Ok(*self)
    }
}

impl Entry for Target {
    ghost use Rattle.st_indexfiles.specs.CoreIndex.{target_json, target_of};

    ghost of = { target_of };

    ghost json = { target_json };

    fn read(entry: &Scanned<'_>, version: u8) -> Option<Target> {
        let (suffix, reveal) = entry.both_members("didSuffix", "revealValue")?;
        let suffix = hash_in(Some(suffix), version)?;
        let reveal = hash_in(Some(reveal), version)?;
        Some(Target { suffix, reveal })
    }

    fn append(&self, alloc: Global, out: &mut Bytes) -> Result<(), WantOfMemory> {
        out.push_all(alloc, b"{\"didSuffix\":")?;
        append_hash(alloc, out, &self.suffix)?;
        out.push_all(alloc, b",\"revealValue\":")?;
        append_hash(alloc, out, &self.reveal)?;
        Ok(out.push_all(alloc, b"}")?)
    }
}

/// Appends the suffixes of creates.
pub(crate) fn push_creates(
    alloc: Global,
    suffixes: &mut List<Hash>,
    creates: &[SuffixData],
) -> Result<(), WantOfMemory>
    ensures { OnOk result (suffixes.new ≡ suffixes.old ++ map suffix_of creates.now) }
{
    for create in creates {
        suffixes.push(alloc, suffix_of(alloc, create)?)?;
    }
    Ok(())
}

/// Appends the suffixes of targets.
pub(crate) fn push_targets(
    alloc: Global,
    suffixes: &mut List<Hash>,
    targets: &[Target],
) -> Result<(), WantOfMemory>
    ensures { OnOk result (suffixes.new ≡ suffixes.old ++ map (λ target. target.suffix) targets.now) }
{
    for target in targets {
        suffixes.push(alloc, target.suffix)?;
    }
    Ok(())
}

/// Whether one of the hashes appears twice.
pub(crate) fn has_twice(alloc: Global, hashes: &[Hash]) -> Result<bool, WantOfMemory>
    ensures { IfOk result (λ twice. twice ≡ has_twice same_hash hashes.now) }
{
    let different = set_of(alloc, hashes)?;
    Ok(different.len() != hashes.len())
}

/// Whether one of the hashes is also among the others.
pub(crate) fn shares_one(
    alloc: Global,
    hashes: &[Hash],
    others: &[Hash],
) -> Result<bool, WantOfMemory>
    ensures { IfOk result (λ shares. shares ≡ shares_one same_hash hashes.now others.now) }
{
    let others = set_of(alloc, others)?;
    'hashes: for hash in hashes {
        if others.contains(hash) {
            return Ok(true);
        }
    }
    Ok(false)
}

fn set_of(alloc: Global, hashes: &[Hash]) -> Result<BTreeSet<Hash>, AllocError>
    ensures { IfOk result (IsFromIterResult ⟦<Hash as Ord>⟧.cmp hashes.now) }
{
    hashes.iter().copied().collect(alloc)
}
