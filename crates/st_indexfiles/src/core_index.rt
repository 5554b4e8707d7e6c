ghost use Rattle.std.specs.Prelude.{◌≡◌, IfOk, Some, None, if◌then◌else◌, ◌≤◌, nat_lt};
ghost use Rattle.st_base.specs.Rules.{Answers};
ghost use Rattle.st_base.specs.Lists.{has_twice};
ghost use Rattle.st_base.specs.Work.{one_file};
ghost use Rattle.st_plain.specs.Shapes.{json_in};
ghost use Rattle.st_hash.specs.Hash.{same_hash};
ghost use Rattle.st_indexfiles.specs.CoreIndex.{core_index_of, suffixes_of, core_rule_name, has_core_form, has_core_members, is_lock_id_if_there, core_json_rules, core_rules, one_alone};
ghost use Rattle.st_indexfiles.specs.ProvisionalIndex.{core_count};
ghost use Rattle.st_indexfiles.specs.inside.CoreParts.{core_operations_in, core_uris_in, core_said, says_stray_proof};

use crate::entries::{Target, entries_of, has_twice, push_creates, push_targets, read_entries};
use crate::members::{is_uri_if_there, uri_in};
use crate::suffix_data::SuffixData;
use st_base::{Copied, FileRefused, List, WantOfMemory, Work};
use st_hash::Hash;
use st_params::Params;
use st_scan::{CanonicalText, Entries, Scanned, is_object_of_lists_if_there};
use std::alloc::Global;

/// The content of a core index file: the URIs of its other files, and the operations of a batch
/// except its updates.
#[derive(Debug, Drop)]
pub struct CoreIndex {
    pub core_proof: Option<Hash>,
    pub provisional: Option<Hash>,
    pub creates: List<SuffixData>,
    pub recovers: List<Target>,
    pub deactivates: List<Target>,
}

impl Copied for CoreIndex {
    fn copy(&self, alloc: Global) -> Result<CoreIndex, WantOfMemory> {
        let creates = self.creates.copy(alloc)?;
        let recovers = self.recovers.copy(alloc)?;
        let deactivates = self.deactivates.copy(alloc)?;
        Ok(CoreIndex {
            core_proof: self.core_proof,
            provisional: self.provisional,
            creates,
            recovers,
            deactivates,
        })
    }
}

impl CoreIndex {
    ghost use Rattle.st_indexfiles.specs.CoreIndex.{suffixes_of};

    /// The suffixes of all operations, in the order creates, recovers, deactivates.
    pub fn suffixes(&self, alloc: Global) -> Result<List<Hash>, WantOfMemory>
        ensures { IfOk result (λ suffixes. suffixes ≡ suffixes_of self.now) }
    {
        let mut suffixes = List::new(alloc);
        push_creates(alloc, &mut suffixes, self.creates.as_slice())?;
        push_targets(alloc, &mut suffixes, self.recovers.as_slice())?;
        push_targets(alloc, &mut suffixes, self.deactivates.as_slice())?;
        Ok(suffixes)
    }
}

/// The rules of a core index file, in their order.
#[derive(Clone, Copy, Debug, PartialEq, Eq)]
pub enum CoreRule {
    /// The file has more than `max_index` bytes.
    C1,
    /// It isn't read as JSON with whole numbers.
    C2,
    /// It isn't an object, has a member of another name, or has an `operations` that isn't an
    /// object, has a member of another name, or has a member that isn't a list.
    C3,
    /// A URI member isn't a hash text, or `writerLockId` isn't a text of at most `max_lock_id`
    /// bytes. Both may be missing.
    C4,
    /// An entry isn't an object with exactly its members, or has a hash text that isn't one.
    C5,
    /// There are more operations than the declared count.
    C6,
    /// Two operations have the same suffix; that of a create is computed.
    C7,
    /// `coreProofFileUri` is there without a recover or deactivate, or the reverse.
    C8,
}

impl CoreRule {
    /// The name of the rule: a letter for the kind of file, and its number, as `C8`.
    pub fn name(&self) -> &'static str
        ensures { result.now ≡ core_rule_name self.now }
    {
        match self {
            CoreRule::C1 => "C1",
            CoreRule::C2 => "C2",
            CoreRule::C3 => "C3",
            CoreRule::C4 => "C4",
            CoreRule::C5 => "C5",
            CoreRule::C6 => "C6",
            CoreRule::C7 => "C7",
            CoreRule::C8 => "C8",
        }
    }
}

/// Why a core index file is not accepted.
pub type CoreRefused = FileRefused<CoreRule>;

/// The operations of a core index file by kind.
#[derive(Drop)]
pub(crate) struct CoreOperations<'a> {
    pub(crate) creates: Entries<'a>,
    pub(crate) recovers: Entries<'a>,
    pub(crate) deactivates: Entries<'a>,
}

/// The URIs in a core index file.
#[derive(Clone, Copy)]
pub(crate) struct CoreUris {
    pub(crate) core_proof: Option<Hash>,
    pub(crate) provisional: Option<Hash>,
}

/// The operations, if the file has its form. Each kind is looked up once.
#[tactic(auto, unfolding(crate::specs::CoreIndex::has_core_form, crate::specs::inside::CoreParts::core_operations_in))]
pub(crate) fn find_operations<'a>(index: &Scanned<'a>) -> Option<CoreOperations<'a>>
    ensures { result ≡ (if has_core_form (Some index.now) then Some (core_operations_in (Some index.now)) else None) }
{
    if !index.is_object_of(&[
        "coreProofFileUri",
        "provisionalIndexFileUri",
        "writerLockId",
        "operations",
    ]) {
        return None;
    }
    let operations = index.member("operations");
    let found = CoreOperations {
        creates: entries_of(operations.as_ref(), "create"),
        recovers: entries_of(operations.as_ref(), "recover"),
        deactivates: entries_of(operations.as_ref(), "deactivate"),
    };
    if !is_object_of_lists_if_there(operations, &["create", "recover", "deactivate"]) {
        return None;
    }
    Some(found)
}

/// The URIs, if they and the lock id have their form.
#[tactic(auto, unfolding(crate::specs::CoreIndex::has_core_members, crate::specs::inside::CoreParts::core_uris_in))]
pub(crate) fn read_uris(
    alloc: Global,
    index: &Scanned<'_>,
    max_lock_id: usize,
) -> Result<Option<CoreUris>, WantOfMemory>
    ensures { IfOk result (λ found. found ≡ (if has_core_members max_lock_id (Some index.now) then Some (core_uris_in (Some index.now)) else None)) }
{
    let core_proof = index.member("coreProofFileUri");
    if !is_uri_if_there(core_proof.as_ref()) {
        return Ok(None);
    }
    let provisional = index.member("provisionalIndexFileUri");
    if !is_uri_if_there(provisional.as_ref()) {
        return Ok(None);
    }
    if !is_lock_id_if_there(alloc, index.member("writerLockId"), max_lock_id)? {
        return Ok(None);
    }
    Ok(Some(CoreUris {
        core_proof: uri_in(core_proof.as_ref()),
        provisional: uri_in(provisional.as_ref()),
    }))
}

fn is_lock_id_if_there(
    alloc: Global,
    there: Option<Scanned<'_>>,
    most: usize,
) -> Result<bool, WantOfMemory>
    ensures { IfOk result (λ is. is ≡ is_lock_id_if_there most there.entry) }
{
    match there {
        Some(value) => Ok(is_lock_id(alloc, &value, most)?),
        None => Ok(true),
    }
}

// A lock id with escaped bytes is decoded, since it is shorter than its text in the file.
fn is_lock_id(alloc: Global, value: &Scanned<'_>, most: usize) -> Result<bool, WantOfMemory>
    ensures { IfOk result (λ is. is ≡ is_lock_id_if_there most (Some value.now)) }
{
    if let Some(lock_id) = value.bare_text() {
        return Ok(lock_id.len() <= most);
    }
    match value.text(alloc)? {
        Some(lock_id) => Ok(lock_id.as_str().len() <= most),
        None => Ok(false),
    }
}

/// Reads a core index file, under the count that its anchor string declares. It counts as one file,
/// whatever the answer is.
///
/// The result is `Rejected` if and only if the file fails a rule; it has the first one.
pub fn read_core(
    alloc: Global,
    bytes: &[u8],
    count: u32,
    params: &Params,
    work: &mut Work,
) -> Result<CoreIndex, CoreRefused>
    ensures answers { Answers (core_rules params.now count bytes.now) (Some (core_index_of params.now.version (json_in bytes.now))) result }
    ensures counted { work.new ≡ one_file work.old }
{
    work.tick_files();
    if bytes.len() > params.max_index() {
        return Err(FileRefused::Rejected(CoreRule::C1));
    }
    match CanonicalText::read_json(alloc, bytes)? {
        Some(text) => read_index(alloc, &text.root(), count, params),
        None => Err(FileRefused::Rejected(CoreRule::C2)),
    }
}

#[tactic(auto, using(crate::proofs::WrittenLemmas::said_core, crate::proofs::WrittenLemmas::counted_core, crate::proofs::WrittenLemmas::stray_core))]
fn read_index(
    alloc: Global,
    index: &Scanned<'_>,
    count: u32,
    params: &Params,
) -> Result<CoreIndex, CoreRefused>
    ensures { Answers (core_json_rules params.now count (Some index.now)) (Some (core_index_of params.now.version (Some index.now))) result }
{
    let Some(operations) = find_operations(index) else {
        return Err(FileRefused::Rejected(CoreRule::C3));
    };
    let Some(uris) = read_uris(alloc, index, params.max_lock_id())? else {
        return Err(FileRefused::Rejected(CoreRule::C4));
    };
    let Some(found) = read_operations(alloc, uris, operations, params.version())? else {
        return Err(FileRefused::Rejected(CoreRule::C5));
    };
    if has_more_than(&found, count) {
        return Err(FileRefused::Rejected(CoreRule::C6));
    }
    if has_suffix_twice(alloc, &found)? {
        return Err(FileRefused::Rejected(CoreRule::C7));
    }
    if has_stray_proof(&found) {
        return Err(FileRefused::Rejected(CoreRule::C8));
    }
    Ok(found)
}

// The index, if each entry has its form.
#[tactic(auto, unfolding(crate::specs::inside::CoreParts::core_said))]
fn read_operations(
    alloc: Global,
    uris: CoreUris,
    operations: CoreOperations<'_>,
    version: u8,
) -> Result<Option<CoreIndex>, WantOfMemory>
    requires first { 1 ≤ version }
    requires last { version ≤ 2 }
    ensures { IfOk result (λ found. found ≡ core_said version uris operations.entry) }
{
    let Some(creates) = read_entries(alloc, operations.creates, version)? else {
        return Ok(None);
    };
    let Some(recovers) = read_entries(alloc, operations.recovers, version)? else {
        return Ok(None);
    };
    let Some(deactivates) = read_entries(alloc, operations.deactivates, version)? else {
        return Ok(None);
    };
    Ok(Some(CoreIndex {
        core_proof: uris.core_proof,
        provisional: uris.provisional,
        creates,
        recovers,
        deactivates,
    }))
}

fn has_more_than(index: &CoreIndex, count: u32) -> bool
    ensures { result ≡ nat_lt count (core_count index.now) }
{
    let creates = index.creates.len();
    let recovers = index.recovers.len();
    let deactivates = index.deactivates.len();
    // The sum of three lengths may overflow; the saturated sum is above every count.
    creates.saturating_add(recovers).saturating_add(deactivates) > count as usize
}

fn has_suffix_twice(alloc: Global, index: &CoreIndex) -> Result<bool, WantOfMemory>
    ensures { IfOk result (λ twice. twice ≡ has_twice same_hash (suffixes_of index.now)) }
{
    let suffixes = index.suffixes(alloc)?;
    has_twice(alloc, suffixes.as_slice())
}

#[tactic(auto, unfolding(crate::specs::inside::CoreParts::says_stray_proof))]
fn has_stray_proof(index: &CoreIndex) -> bool
    ensures { result ≡ says_stray_proof index.now }
{
    let is_signed = !index.recovers.as_slice().is_empty()
        || !index.deactivates.as_slice().is_empty();
    is_one_alone(index.core_proof.is_some(), is_signed)
}

/// Whether exactly one of the two holds.
pub(crate) fn is_one_alone(first: bool, second: bool) -> bool
    ensures { result ≡ one_alone first second }
{
    first != second
}
