ghost use Rattle.std.specs.Prelude.{◌≡◌, ◌<◌, ◌/◌, IfOk};
ghost use Rattle.st_lms.specs.OneTime.{IsOneTimeType};
ghost use Rattle.st_vault.specs.Image.{child_of};
ghost use Rattle.st_hss.specs.Public.{IsHssSignature};
ghost use Rattle.st_hss.specs.Trees.{IsTreesOf, IfKept, IsLowerOf};
ghost use Rattle.st_hss.specs.Uses.{hss_public_of, hss_signature_of, head_of, lower_text};

use crate::public::u32str;
use st_base::{Bytes, WantOfMemory};
use st_lms::Signer;
use st_vault::{Counter, Vault};
use std::alloc::Global;

/// The number of messages that a lower key signs, and of lower keys that the top key signs.
pub(crate) const LEAVES: u32 = 32;

/// The signature of a message with this counter, with the trees that it needs. If it runs out of
/// memory, the counter is lost.
pub(crate) fn signature_with(
    alloc: Global,
    counter: Counter,
    trees: &Trees,
    message: &[u8],
) -> Result<Bytes, WantOfMemory>
    requires known { IsOneTimeType counter.key.ots }
    requires trees { IsTreesOf counter.key trees.now }
    requires leaf { trees.now.lower.leaf ≡ counter.number / 32 }
    requires small { counter.number < 1024 }
    ensures value { IfOk result (λ signature.
        signature ≡ hss_signature_of counter.key counter.number message.now) }
    ensures verifies { IfOk result (IsHssSignature (hss_public_of counter.key) message.now) }
{
    let leaf = counter.number() % LEAVES;
    let signature = trees.lower.signer.sign(alloc, leaf, message)?;
    let mut whole = Bytes::from_slice(alloc, trees.lower.head.as_slice())?;
    whole.push_all(alloc, signature.as_slice())?;
    Ok(whole)
}

/// The top key and one lower key, each with all nodes of its tree, so that a signature computes no
/// leaf.
#[derive(Drop)]
pub(crate) struct Trees {
    pub(crate) top: Signer,
    pub(crate) lower: Lower,
}

/// A lower key, for 32 signatures.
#[derive(Drop)]
pub(crate) struct Lower {
    /// The leaf of the top key that signs the public key of this one.
    pub(crate) leaf: u32,
    /// The common prefix of its signatures: the number of signed public keys, the signature of its
    /// public key, and that key.
    pub(crate) head: Bytes,
    pub(crate) signer: Signer,
}

/// The trees with the lower key for this leaf of the top key: the stored ones, if they are for it,
/// or new ones.
pub(crate) fn trees_for(
    alloc: Global,
    vault: &Vault,
    kept: Option<Trees>,
    leaf: u32,
) -> Result<Trees, WantOfMemory>
    requires kept { IfKept vault.now.key kept }
    requires leaf { leaf < 32 }
    ensures leaf { IfOk result (λ trees. trees.lower.leaf ≡ leaf) }
    ensures trees { IfOk result (IsTreesOf vault.now.key) }
{
    match kept {
        Some(trees) => with_lower(alloc, vault, trees, leaf),
        None => {
            let top = Signer::new(alloc, &vault.child(0))?;
            let lower = new_lower(alloc, vault, &top, leaf)?;
            Ok(Trees { top, lower })
        }
    }
}

/// The trees with the lower key for this leaf.
fn with_lower(alloc: Global, vault: &Vault, trees: Trees, leaf: u32) -> Result<Trees, WantOfMemory>
    requires trees { IsTreesOf vault.now.key trees }
    requires leaf { leaf < 32 }
    ensures leaf { IfOk result (λ trees. trees.lower.leaf ≡ leaf) }
    ensures trees { IfOk result (IsTreesOf vault.now.key) }
{
    if trees.lower.leaf == leaf {
        return Ok(trees);
    }
    let Trees { top, .. } = trees;
    let lower = new_lower(alloc, vault, &top, leaf)?;
    Ok(Trees { top, lower })
}

fn new_lower(alloc: Global, vault: &Vault, top: &Signer, leaf: u32) -> Result<Lower, WantOfMemory>
    requires top { top.now ≡ child_of vault.now.key 0 }
    requires leaf { leaf < 32 }
    ensures leaf { IfOk result (λ lower. lower.leaf ≡ leaf) }
    ensures lower { IfOk result (IsLowerOf vault.now.key) }
{
    let signer = Signer::new(alloc, &vault.child(1 + leaf))?;
    let head = new_head(alloc, vault, top, leaf, &signer.public().write())?;
    Ok(Lower { leaf, head, signer })
}

/// The prefix of the signatures of the lower key with these 56 bytes.
fn new_head(
    alloc: Global,
    vault: &Vault,
    top: &Signer,
    leaf: u32,
    key_text: &[u8],
) -> Result<Bytes, WantOfMemory>
    requires top { top.now ≡ child_of vault.now.key 0 }
    requires leaf { leaf < 32 }
    requires text { key_text.now ≡ lower_text vault.now.key leaf }
    ensures { IfOk result (λ head. head ≡ head_of vault.now.key leaf) }
{
    let signature = top.sign(alloc, leaf, key_text)?;
    let mut head = Bytes::new(alloc);
    head.push_all(alloc, &u32str(1))?;
    head.push_all(alloc, signature.as_slice())?;
    head.push_all(alloc, key_text)?;
    Ok(head)
}
