ghost use Rattle.std.specs.Prelude.{◌≡◌, ◌+◌, ◌^◌, ◌<◌, ◌++◌, IfOk, OnOk, ◌-◌, ◌*◌, ◌≤◌, ℕ, length};
ghost use Rattle.st_lms.specs.Tree.{HoldsFrom, past_last, place_of, path_from, sibling, IsNode, node};
ghost use Rattle.st_lms.specs.OneTime.{signed_values, height, IsTreeType};
ghost use Rattle.st_lms.specs.Signature.{IsSignature, public_of, signature_of};
ghost use Rattle.st_lms.specs.Strings.{value_at};
ghost use Rattle.st_lms.specs.inside.Parts.{front_of};

use crate::digits::{Digits, checked};
use crate::one_time::{message_hash, signed_values};
use crate::public::Public;
use crate::secret::{Secret, leaf_of, node, randomizer_of};
use crate::strings::{u32str, value_at};
use crate::tree::inner;
use st_base::{Bytes, WantOfMemory};
use std::alloc::Global;
use std::marker::Model;

/// Appends the signed value of each digit.
pub(crate) fn push_values(
    alloc: Global,
    out: &mut Bytes,
    secret: &Secret,
    q: u32,
    digits: &Digits,
) -> Result<(), WantOfMemory>
    ensures { OnOk result (out.new ≡ out.old
        ++ signed_values secret.now.ots secret.now.id q secret.now.seed digits.now) }
{
    let values = signed_values(secret.ots, &secret.id, q, &secret.seed, digits);
    out.push_all(
        alloc,
        &values[..32 * secret.ots.parameters().chains as usize],
    )?;
    Ok(())
}

/// The part before the path of the signature of a message by the one-time key with number `q`.
pub(crate) fn begin_signature(
    alloc: Global,
    secret: &Secret,
    q: u32,
    message: &[u8],
) -> Result<Bytes, WantOfMemory>
    ensures { IfOk result (λ front. front ≡ front_of secret.now q message.now) }
{
    let randomizer = randomizer_of(secret, q);
    let hash = message_hash(&secret.id, q, &randomizer, message);
    let digits = checked(&hash, secret.ots);
    let mut signature = Bytes::new(alloc);
    signature.push_all(alloc, &u32str(q))?;
    signature.push_all(alloc, &u32str(secret.ots()))?;
    signature.push_all(alloc, &randomizer)?;
    push_values(alloc, &mut signature, secret, q, &digits)?;
    signature.push_all(alloc, &u32str(secret.tree()))?;
    Ok(signature)
}

#[tactic(auto, unfolding(crate::specs::Tree::sibling))]
pub(crate) fn sibling(r: u32) -> u32
    requires { r < 2 ^ 11 }
    ensures { result ≡ sibling r }
{
    if r % 2 == 0 { r + 1 } else { r - 1 }
}

/// Appends the other nodes on the way from leaf `q` to the root.
fn push_path(alloc: Global, out: &mut Bytes, secret: &Secret, q: u32) -> Result<(), WantOfMemory>
    requires { q < 2 ^ height secret.now.tree }
    ensures { OnOk result (out.new ≡ out.old
        ++ path_from secret.now 0 (2 ^ height secret.now.tree + q) (height secret.now.tree)) }
{
    let mut r = secret.tree.leaf_count() + q;
    'levels: for level in 0..secret.height() {
        let other = node(secret, level, sibling(r));
        out.push_all(alloc, &other)?;
        r /= 2;
    }
    Ok(())
}

/// The signature of a message by the one-time key with number `q` (RFC 8554, section 5.4.1).
///
/// A one-time key must sign at most one message, so the caller records the numbers that are spent.
/// Outside tests only the vault's counters and the keys made under a vault call this or
/// `Signer::sign`. It computes all the leaves of the tree but one; a `Signer` stores them for many
/// messages.
pub fn sign_at(
    alloc: Global,
    secret: &Secret,
    q: u32,
    message: &[u8],
) -> Result<Bytes, WantOfMemory>
    requires { q < 2 ^ height secret.now.tree }
    ensures value { IfOk result (λ signature. signature ≡ signature_of secret.now q message.now) }
    ensures verifies { IfOk result (λ signature.
        IsSignature (public_of secret.now) message.now signature) }
{
    let mut signature = begin_signature(alloc, secret, q, message)?;
    push_path(alloc, &mut signature, secret, q)?;
    Ok(signature)
}

/// A secret key with all the nodes of its tree, which take 2,016 or 65,504 bytes, so that a
/// signature takes the time of one one-time key and not of all of them.
///
/// A one-time key signs one message. The caller records which of them are spent.
#[derive(Drop)]
pub struct Signer {
    secret: Secret,
    nodes: Bytes,
}

impl Model for Signer {
    ghost use Rattle.st_lms.specs.Tree.{SecretKey, HoldsFrom};

    ghost Value = { SecretKey };

    ghost view = { λ s. s.secret };

    ghost invariant = { λ s. HoldsFrom s.secret 1 s.nodes };
}

/// Node `r`, from these bytes.
fn kept_node(secret: &Secret, nodes: &[u8], r: u32) -> [u8; 32]
    requires small { r < past_last secret.now.tree }
    requires there { 32 * (past_last secret.now.tree - r) ≤ length nodes.now }
    ensures value { result ≡ value_at nodes.now (place_of secret.now.tree r) }
    ensures known { IsTreeType secret.now.tree }
{
    let last = 2 * secret.leaf_count() - 1;
    value_at(nodes, (last - r) as usize)
}

/// Node `r`, if these bytes have all nodes with greater numbers.
fn next_node(secret: &Secret, nodes: &[u8], r: u32) -> [u8; 32]
    requires some { 1 ≤ r }
    requires small { r < past_last secret.now.tree }
    requires holds { HoldsFrom secret.now (r + 1) nodes.now }
    ensures value { (n : ℕ) → IsNode secret.now.tree n r → result ≡ node secret.now n r }
    ensures long { length result ≡ 32 }
{
    if r >= secret.leaf_count() {
        return leaf_of(secret, r);
    }
    let left = kept_node(secret, nodes, 2 * r);
    let right = kept_node(secret, nodes, 2 * r + 1);
    inner(&secret.id, r, &left, &right)
}

/// All nodes, from the last leaf down to the root.
fn all_nodes(alloc: Global, secret: &Secret) -> Result<Bytes, WantOfMemory>
    ensures { IfOk result (HoldsFrom secret.now 1) }
{
    let last = 2 * secret.leaf_count() - 1;
    let mut nodes = Bytes::new(alloc);
    'nodes: for k in 0..last {
        let node = next_node(secret, nodes.as_slice(), last - k);
        nodes.push_all(alloc, &node)?;
    }
    Ok(nodes)
}

/// Appends the other nodes on the way from leaf `q` to the root.
fn push_kept_path(
    alloc: Global,
    out: &mut Bytes,
    secret: &Secret,
    nodes: &[u8],
    q: u32,
) -> Result<(), WantOfMemory>
    requires leaf { q < 2 ^ height secret.now.tree }
    requires holds { HoldsFrom secret.now 1 nodes.now }
    ensures { OnOk result (out.new ≡ out.old
        ++ path_from secret.now 0 (2 ^ height secret.now.tree + q) (height secret.now.tree)) }
{
    let mut r = secret.leaf_count() + q;
    'levels: for level in 0..secret.height() {
        let other = kept_node(secret, nodes, sibling(r));
        out.push_all(alloc, &other)?;
        r /= 2;
    }
    Ok(())
}

/// The public key of a secret whose tree has this root.
fn public_with_root(secret: &Secret, root: [u8; 32]) -> Public
    ensures { result ≡ record { ots = secret.now.ots; tree = secret.now.tree; id = secret.now.id; root = root } }
{
    Public {
        ots: secret.ots,
        tree: secret.tree,
        id: secret.id,
        root,
    }
}

impl Signer {
    /// The key with its nodes. It takes as long as `Secret::public` does, and fails if there is no
    /// memory for the nodes.
    pub fn new(alloc: Global, secret: &Secret) -> Result<Signer, WantOfMemory>
        ensures { IfOk result (λ signer. signer ≡ secret.now) }
    {
        let nodes = all_nodes(alloc, secret)?;
        Ok(Signer {
            secret: *secret,
            nodes,
        })
    }

    /// The public key, without computing a node.
    pub fn public(&self) -> Public
        ensures { result ≡ public_of self.now }
    {
        let root = kept_node(&self.secret, self.nodes.as_slice(), 1);
        public_with_root(&self.secret, root)
    }

    /// The signature of a message by the one-time key with number `q` (RFC 8554, section 5.4.1),
    /// the same as that of `sign_at`. It computes this key's chains and no leaf of the tree.
    ///
    /// A one-time key must sign at most one message; see `sign_at` for who may call it.
    pub fn sign(&self, alloc: Global, q: u32, message: &[u8]) -> Result<Bytes, WantOfMemory>
        requires { q < 2 ^ height self.now.tree }
        ensures value { IfOk result (λ signature. signature ≡ signature_of self.now q message.now) }
        ensures verifies { IfOk result (λ signature.
            IsSignature (public_of self.now) message.now signature) }
    {
        let mut signature = begin_signature(alloc, &self.secret, q, message)?;
        push_kept_path(
            alloc,
            &mut signature,
            &self.secret,
            self.nodes.as_slice(),
            q,
        )?;
        Ok(signature)
    }
}
