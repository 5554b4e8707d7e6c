#![tactic(auto, using(crate::proofs::KeyLemmas::known_secret))]

ghost use Rattle.std.specs.Prelude.{◌≡◌, ◌↔◌, ◌≤◌, ◌^◌, IsOk, IfOk};
ghost use Rattle.st_lms.specs.Tree.{IsSecretKey, secret_key, IsNode, node};
ghost use Rattle.st_lms.specs.OneTime.{IsOneTimeType, IsTreeType, height};
ghost use Rattle.st_lms.specs.Signature.{public_of, randomizer_of};

use crate::one_time::{one_time_public, secret_element};
use crate::parameters::{OneTimeType, TreeType};
use crate::public::Public;
use crate::tree::{inner, leaf};
use std::marker::Model;
use thiserror::Error;

/// A type is not in the tables.
#[derive(Clone, Copy, Debug, PartialEq, Eq, Error)]
#[error("the type of a key is not known")]
pub struct BadType;

/// An LMS secret key, all of whose one-time keys are derived from one seed (RFC 8554, appendix A).
///
/// A one-time key signs one message. The caller records which of them are spent.
#[derive(Clone, Copy)]
pub struct Secret {
    pub(crate) ots: OneTimeType,
    pub(crate) tree: TreeType,
    pub(crate) id: [u8; 16],
    pub(crate) seed: [u8; 32],
}

impl Model for Secret {
    ghost use Rattle.st_lms.specs.Tree.{SecretKey};
    ghost use Rattle.st_lms.specs.OneTime.{one_time_number, tree_number, one_time_of, tree_of};

    ghost Value = { SecretKey };

    ghost use Rattle.st_lms.specs.Signature.{secret_inverse};

    ghost view = { λ s. record {
      ots = one_time_number s.ots;
      tree = tree_number s.tree;
      id = s.id;
      seed = s.seed;
    } };

    ghost inverse = { λ v. record {
      ots = one_time_of v.ots;
      tree = tree_of v.tree;
      id = v.id;
      seed = v.seed;
    } };

    ghost inverse_ok = { λ a h. secret_inverse a };
}

/// The place of a one-time key's randomizer among its secret elements.
const RANDOMIZER: u16 = 0xfffd;

impl Secret {
    /// The secret key of these types, with this identifier and this seed.
    pub fn new(ots: u32, tree: u32, id: [u8; 16], seed: [u8; 32]) -> Result<Secret, BadType>
        ensures known { IsOk result ↔ (IsOneTimeType ots × IsTreeType tree) }
        ensures value { IfOk result (λ secret. secret ≡ secret_key ots tree id seed) }
    {
        let Some(ots) = OneTimeType::read(ots) else {
            return Err(BadType);
        };
        let Some(tree) = TreeType::read(tree) else {
            return Err(BadType);
        };
        Ok(Secret {
            ots,
            tree,
            id,
            seed,
        })
    }

    /// The number of the LM-OTS type: 1 to 4.
    pub fn ots(&self) -> u32
        ensures value { result ≡ self.now.ots }
        ensures known { IsSecretKey self.now }
    {
        self.ots.parameters().number
    }

    /// The number of the LMS type: 5 or 6.
    pub fn tree(&self) -> u32
        ensures value { result ≡ self.now.tree }
        ensures known { IsSecretKey self.now }
    {
        self.tree.number()
    }

    /// The identifier of the key pair.
    pub fn id(&self) -> [u8; 16]
        ensures value { result ≡ self.now.id }
        ensures known { IsSecretKey self.now }
    {
        self.id
    }

    /// The seed of the one-time keys.
    pub fn seed(&self) -> [u8; 32]
        ensures value { result ≡ self.now.seed }
        ensures known { IsSecretKey self.now }
    {
        self.seed
    }

    /// The height of the tree: 5 or 10.
    pub fn height(&self) -> u32
        ensures height { result ≡ height self.now.tree }
        ensures small { result ≤ 10 }
        ensures known { IsSecretKey self.now }
    {
        self.tree.height()
    }

    /// The number of one-time keys: 32 or 1,024. They are numbered from 0.
    pub fn leaf_count(&self) -> u32
        ensures count { result ≡ 2 ^ height self.now.tree }
        ensures small { result ≤ 1024 }
        ensures known { IsSecretKey self.now }
    {
        self.tree.leaf_count()
    }

    /// The public key, which takes about as long as all the one-time keys together.
    pub fn public(&self) -> Public
        ensures value { result ≡ public_of self.now }
        ensures known { IsSecretKey self.now }
    {
        let root = node(self, self.height(), 1);
        Public {
            ots: self.ots,
            tree: self.tree,
            id: self.id,
            root,
        }
    }
}

/// The randomizer of the one-time key with number `q`.
pub(crate) fn randomizer_of(secret: &Secret, q: u32) -> [u8; 32]
    ensures { result ≡ randomizer_of secret.now q }
{
    secret_element(&secret.id, q, RANDOMIZER, &secret.seed)
}

/// The leaf with number `r` of the tree.
pub(crate) fn leaf_of(secret: &Secret, r: u32) -> [u8; 32]
    requires { IsNode secret.now.tree 0 r }
    ensures { result ≡ node secret.now 0 r }
{
    let q = r - secret.tree.leaf_count();
    let key = one_time_public(secret.ots, &secret.id, q, &secret.seed);
    leaf(&secret.id, r, &key)
}

/// The node with number `r` of the tree, at this height above the leaves.
pub(crate) fn node(secret: &Secret, height: u32, r: u32) -> [u8; 32]
    requires { IsNode secret.now.tree height r }
    ensures { result ≡ node secret.now height r }
{
    if height == 0 {
        return leaf_of(secret, r);
    }
    let left = node(secret, height - 1, 2 * r);
    let right = node(secret, height - 1, 2 * r + 1);
    inner(&secret.id, r, &left, &right)
}
