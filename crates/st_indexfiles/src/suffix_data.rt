ghost use Rattle.std.specs.Prelude.{◌≡◌, ◌++◌, ◌≤◌, codes, IfOk, OnOk, Some};
ghost use Rattle.st_plain.specs.Plain.{canonical};
ghost use Rattle.st_canon.specs.View.{plain};
ghost use Rattle.st_hash.specs.Hash.{IsHash};
ghost use Rattle.st_indexfiles.specs.CoreIndex.{suffix_data_json, suffix_data_of, suffix_of, IsHashReadAgain};

use crate::entries::Entry;
use crate::members::{append_hash, hash_in, hash_json};
use st_base::{Bytes, Copied, WantOfMemory};
use st_canon::{Json, Object};
use st_hash::{Hash, hash_text, hash_with};
use st_scan::Scanned;
use std::alloc::Global;

// The fixed parts around the two hash texts in the canonical text of suffix data.
const DELTA_HASH: &[u8] = b"{\"deltaHash\":\"";

const RECOVERY_COMMITMENT: &[u8] = b"\",\"recoveryCommitment\":\"";

const END: &[u8] = b"\"}";

/// The commitments of a create: the hash of its delta, and the commitment to its recovery key.
#[derive(Clone, Copy, Debug, PartialEq, Eq)]
pub struct SuffixData {
    pub delta_hash: Hash,
    pub recovery_commitment: Hash,
}

impl SuffixData {
    ghost use Rattle.st_indexfiles.specs.CoreIndex.{suffix_data_json, suffix_data_of};

    /// The suffix data of a value: an object with exactly the two hash texts of the version. It
    /// allocates nothing.
    pub fn read(value: &Scanned<'_>, version: u8) -> Option<SuffixData>
        requires first { 1 ≤ version }
        requires last { version ≤ 2 }
        ensures { result ≡ suffix_data_of version (Some value.now) }
    {
        let (delta_hash, commitment) = value.both_members("deltaHash", "recoveryCommitment")?;
        let delta_hash = hash_in(Some(delta_hash), version)?;
        let recovery_commitment = hash_in(Some(commitment), version)?;
        Some(SuffixData {
            delta_hash,
            recovery_commitment,
        })
    }

    /// The suffix data as a JSON object. Every version that reads its hash texts reads these
    /// hashes.
    #[tactic(auto, unfolding(st_plain::proofs::NameLemmas::names_on_literals))]
    pub fn json(&self, alloc: Global) -> Result<Json, WantOfMemory>
        ensures value { IfOk result (λ json. plain json ≡ suffix_data_json self.now) }
        ensures delta_hash { OnOk result (IsHashReadAgain self.now.delta_hash) }
        ensures recovery_commitment { OnOk result (IsHashReadAgain self.now.recovery_commitment) }
    {
        let mut members = Object::new(alloc);
        let delta_hash = hash_json(alloc, &self.delta_hash)?;
        members.set(alloc, "deltaHash", delta_hash)?;
        let recovery_commitment = hash_json(alloc, &self.recovery_commitment)?;
        members.set(alloc, "recoveryCommitment", recovery_commitment)?;
        Ok(Json::Object(members))
    }
}

impl Copied for SuffixData {
    fn copy(&self, _alloc: Global) -> Result<SuffixData, WantOfMemory> {
        Ok(*self)
    }
}

/// The suffix of an identifier with this suffix data: the hash of its canonical text, by the
/// algorithm of its delta hash.
pub fn suffix_of(alloc: Global, suffix_data: &SuffixData) -> Result<Hash, WantOfMemory>
    ensures { IfOk result (λ suffix. suffix ≡ suffix_of suffix_data.now) }
{
    let text = suffix_text(alloc, suffix_data)?;
    Ok(hash_with(text.as_slice(), suffix_data.delta_hash.code()))
}

// The canonical text of suffix data. It needs no tree, since no byte of a hash text is escaped.
#[tactic(auto, using(crate::proofs::BareLemmas::suffix_data_text))]
fn suffix_text(alloc: Global, suffix_data: &SuffixData) -> Result<Bytes, WantOfMemory>
    ensures { IfOk result (λ text. text ≡ canonical (suffix_data_json suffix_data.now)) }
{
    know_hash(&suffix_data.delta_hash);
    know_hash(&suffix_data.recovery_commitment);
    let delta_hash = hash_text(alloc, &suffix_data.delta_hash)?;
    let recovery_commitment = hash_text(alloc, &suffix_data.recovery_commitment)?;
    Ok(between_parts(alloc, delta_hash.as_str(), recovery_commitment.as_str())?)
}

// The two hash texts with the fixed parts around them, allocated once.
fn between_parts(
    alloc: Global,
    delta_hash: &str,
    recovery_commitment: &str,
) -> Result<Bytes, WantOfMemory>
    ensures { IfOk result (λ text. text ≡ (((codes "{\"deltaHash\":\"" ++ delta_hash.now)
        ++ codes "\",\"recoveryCommitment\":\"") ++ recovery_commitment.now) ++ codes "\"}") }
{
    let parts = DELTA_HASH.len() + RECOVERY_COMMITMENT.len() + END.len();
    let hashes = delta_hash.len().saturating_add(recovery_commitment.len());
    let mut text = Vec::with_capacity(alloc, hashes.saturating_add(parts))?;
    text.extend_from_slice(DELTA_HASH)?;
    text.extend_from_slice(delta_hash.as_bytes())?;
    text.extend_from_slice(RECOVERY_COMMITMENT)?;
    text.extend_from_slice(recovery_commitment.as_bytes())?;
    text.extend_from_slice(END)?;
    Ok(Bytes::from_vec(text))
}

// For the proof: the value is that of a hash, by a clause of `code`. Nothing is done.
fn know_hash(hash: &Hash)
    ensures { IsHash hash.now }
{
    let _code = hash.code();
}

impl Entry for SuffixData {
    ghost use Rattle.st_indexfiles.specs.CoreIndex.{create_json, create_of};

    ghost of = { create_of };

    ghost json = { create_json };

    fn read(entry: &Scanned<'_>, version: u8) -> Option<SuffixData> {
        let suffix_data = entry.only_member("suffixData")?;
        SuffixData::read(&suffix_data, version)
    }

    fn append(&self, alloc: Global, out: &mut Bytes) -> Result<(), WantOfMemory> {
        out.push_all(alloc, b"{\"suffixData\":{\"deltaHash\":")?;
        append_hash(alloc, out, &self.delta_hash)?;
        out.push_all(alloc, b",\"recoveryCommitment\":")?;
        append_hash(alloc, out, &self.recovery_commitment)?;
        Ok(out.push_all(alloc, b"}}")?)
    }
}
