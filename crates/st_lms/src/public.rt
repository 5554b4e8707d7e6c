#![tactic(auto, using(crate::proofs::KeyLemmas::known_public))]

ghost use Rattle.std.specs.Prelude.{◌≡◌, ◌≢◌, ◌↔◌, ◌+◌, ◌*◌, ◌≤◌, length, IfOk};
ghost use Rattle.std.specs.Result.{result_ok};
ghost use Rattle.st_lms.specs.Signature.{public_in};
ghost use Rattle.st_lms.specs.Tree.{PublicKey, IsPublicKey, public_text, tree_type_in, one_time_type_in};
ghost use Rattle.st_lms.specs.OneTime.{IsOneTimeType, IsTreeType, chains, height};

use crate::parameters::{OneTimeType, TreeType};
use crate::strings::{copied, put, str_to_u32, u32str};
use std::marker::Model;
use thiserror::Error;

/// Why bytes are not a public key.
#[derive(Clone, Copy, Debug, PartialEq, Eq, Error)]
pub enum PublicRefused {
    /// There aren't 56 bytes.
    #[error("a public key has 56 bytes")]
    BadLength,
    /// There are 56 bytes, and one of the types is not in the tables.
    #[error("a type of the public key is not known")]
    BadType,
}

/// An LMS public key (RFC 8554, section 5.3).
#[derive(Clone, Copy, Debug, PartialEq, Eq)]
pub struct Public {
    pub(crate) ots: OneTimeType,
    pub(crate) tree: TreeType,
    pub(crate) id: [u8; 16],
    pub(crate) root: [u8; 32],
}

impl Model for Public {
    ghost use Rattle.st_lms.specs.Tree.{PublicKey};
    ghost use Rattle.st_lms.specs.OneTime.{one_time_number, tree_number, one_time_of, tree_of};

    ghost Value = { PublicKey };

    ghost use Rattle.st_lms.specs.Signature.{public_inverse};

    ghost view = { λ p. record {
      ots = one_time_number p.ots;
      tree = tree_number p.tree;
      id = p.id;
      root = p.root;
    } };

    ghost inverse = { λ v. record {
      ots = one_time_of v.ots;
      tree = tree_of v.tree;
      id = v.id;
      root = v.root;
    } };

    ghost inverse_ok = { λ a h. public_inverse a };
}

fn blank() -> [u8; 56]
    ensures { length result ≡ 56 }
{
    [0; 56]
}

impl Public {
    /// The public key in 56 bytes.
    pub fn read(bytes: &[u8]) -> Result<Public, PublicRefused>
        ensures ok { IfOk result (λ key. bytes.now ≡ public_text key) }
        ensures known { IfOk result IsPublicKey }
        ensures bad_length { (result ≡ Err PublicRefused.BadLength) ↔ (length bytes.now ≢ 56) }
        ensures bad_type { (result ≡ Err PublicRefused.BadType) ↔ ((length bytes.now ≡ 56)
            × (¬ (IsOneTimeType (one_time_type_in bytes.now) × IsTreeType (tree_type_in bytes.now)))) }
        ensures written { (key : PublicKey) → IsPublicKey key → bytes.now ≡ public_text key
            → result ≡ Ok key }
        ensures value { result_ok result ≡ public_in bytes.now }
    {
        if bytes.len() != 56 {
            return Err(PublicRefused::BadLength);
        }
        let (tree, rest) = bytes.split_at(4);
        let (ots, rest) = rest.split_at(4);
        let (id, root) = rest.split_at(16);
        let Some(ots) = OneTimeType::read(str_to_u32(ots)) else {
            return Err(PublicRefused::BadType);
        };
        let Some(tree) = TreeType::read(str_to_u32(tree)) else {
            return Err(PublicRefused::BadType);
        };
        Ok(Public {
            ots,
            tree,
            id: copied(id),
            root: copied(root),
        })
    }

    /// The 56 bytes of this key.
    pub fn write(&self) -> [u8; 56]
        ensures text { result ≡ public_text self.now }
        ensures known { IsPublicKey self.now }
    {
        let mut text = blank();
        put(&mut text, 0, &u32str(self.tree.number()));
        put(&mut text, 4, &u32str(self.ots.parameters().number));
        put(&mut text, 8, &self.id);
        put(&mut text, 24, &self.root);
        text
    }

    /// The number of the LM-OTS type: 1 to 4.
    pub fn ots(&self) -> u32
        ensures value { result ≡ self.now.ots }
        ensures known { IsPublicKey self.now }
    {
        self.ots.parameters().number
    }

    /// The number of the LMS type: 5 or 6.
    pub fn tree(&self) -> u32
        ensures value { result ≡ self.now.tree }
        ensures known { IsPublicKey self.now }
    {
        self.tree.number()
    }

    /// The identifier of the key pair.
    pub fn id(&self) -> [u8; 16]
        ensures value { result ≡ self.now.id }
        ensures known { IsPublicKey self.now }
    {
        self.id
    }

    /// The root of the tree.
    pub fn root(&self) -> [u8; 32]
        ensures value { result ≡ self.now.root }
        ensures known { IsPublicKey self.now }
    {
        self.root
    }
    /// The number of bytes of the values in a signature under this key.
    pub(crate) fn values_len(&self) -> usize
        ensures len { result ≡ 32 * chains self.now.ots }
        ensures small { result ≤ 8480 }
    {
        32 * self.ots.parameters().chains as usize
    }

    fn path_len(&self) -> usize
        ensures len { result ≡ 32 * height self.now.tree }
        ensures small { result ≤ 320 }
    {
        32 * self.tree.height() as usize
    }

    /// The number of bytes of a signature under this key: 1,292 to 8,844.
    pub fn signature_len(&self) -> usize
        ensures value { result ≡ 44 + 32 * chains self.now.ots + 32 * height self.now.tree }
        ensures small { result ≤ 8844 }
    {
        44 + self.values_len() + self.path_len()
    }
}
