ghost use Rattle.std.specs.Prelude.{◌≡◌, ◌↔◌, ◌+◌, ◌*◌, ◌^◌, ◌≤◌, ◌<◌, ◌++◌, IsTrue, length};
ghost use Rattle.st_lms.specs.Signature.{is_signature, IsSignature, root_of};
ghost use Rattle.st_lms.specs.OneTime.{chains, height};
ghost use Rattle.st_lms.specs.inside.Parts.{PartsHold, parts_seen};
ghost use Rattle.st_lms.specs.Strings.{u32str};

use crate::digits::checked;
use crate::one_time::{candidate_key, message_hash};
use crate::public::Public;
use crate::strings::{str_to_u32, u32str};
use crate::tree::{leaf, node_above};

/// The parts of a signature.
#[derive(Clone, Copy)]
struct Parts<'a> {
    q: &'a [u8],
    ots: &'a [u8],
    randomizer: &'a [u8],
    values: &'a [u8],
    tree: &'a [u8],
    path: &'a [u8],
}

fn parts_of(signature: &[u8], values_len: usize) -> Parts<'_>
    requires { 44 + values_len ≤ length signature.now }
    ensures whole { signature.now ≡ result.q.now ++ result.ots.now ++ result.randomizer.now
        ++ result.values.now ++ result.tree.now ++ result.path.now }
    ensures q { length result.q.now ≡ 4 }
    ensures ots { length result.ots.now ≡ 4 }
    ensures randomizer { length result.randomizer.now ≡ 32 }
    ensures values { length result.values.now ≡ values_len }
    ensures tree { length result.tree.now ≡ 4 }
{
    let (q, rest) = signature.split_at(4);
    let (ots, rest) = rest.split_at(4);
    let (randomizer, rest) = rest.split_at(32);
    let (values, rest) = rest.split_at(values_len);
    let (tree, path) = rest.split_at(4);
    Parts {
        q,
        ots,
        randomizer,
        values,
        tree,
        path,
    }
}

/// The root that is computed from the parts of a signature.
fn root_of(
    public: &Public,
    q: u32,
    randomizer: &[u8],
    values: &[u8],
    path: &[u8],
    message: &[u8],
) -> [u8; 32]
    requires q { q < 2 ^ height public.now.tree }
    requires values { length values.now ≡ 32 * chains public.now.ots }
    requires path { length path.now ≡ 32 * height public.now.tree }
    ensures { result ≡ root_of public.now q randomizer.now values.now path.now message.now }
{
    let hash = message_hash(&public.id, q, randomizer, message);
    let digits = checked(&hash, public.ots);
    let key = candidate_key(public.ots, &public.id, q, &digits, values);
    let r = public.tree.leaf_count() + q;
    let leaf = leaf(&public.id, r, &key);
    node_above(&public.id, r, leaf, path, public.tree.height())
}

fn leaf_count(public: &Public) -> u32
    ensures count { result ≡ 2 ^ height public.now.tree }
    ensures small { result ≤ 1024 }
{
    public.tree.leaf_count()
}

fn has_types(public: &Public, ots: &[u8], tree: &[u8]) -> bool
    ensures { IsTrue result
        ↔ ((ots.now ≡ u32str public.now.ots) × (tree.now ≡ u32str public.now.tree)) }
{
    ots == u32str(public.ots()).as_slice() && tree == u32str(public.tree()).as_slice()
}

fn is_same(left: &[u8; 32], right: &[u8; 32]) -> bool
    ensures { IsTrue result ↔ (left.now ≡ right.now) }
{
    left.as_slice() == right.as_slice()
}

/// Whether the parts have the types of the public key and the number of one of its leaves, and give
/// its root.
fn parts_hold(public: &Public, message: &[u8], parts: &Parts<'_>) -> bool
    requires q { length parts.now.q.now ≡ 4 }
    requires values { length parts.now.values.now ≡ 32 * chains public.now.ots }
    requires path { length parts.now.path.now ≡ 32 * height public.now.tree }
    ensures { IsTrue result ↔ PartsHold public.now message.now (parts_seen parts.now) }
{
    if !has_types(public, parts.ots, parts.tree) {
        return false;
    }
    let q = str_to_u32(parts.q);
    if q >= leaf_count(public) {
        return false;
    }
    let root = root_of(
        public,
        q,
        parts.randomizer,
        parts.values,
        parts.path,
        message,
    );
    is_same(&root, &public.root())
}

/// Whether these bytes are a signature of the message under the public key (RFC 8554, section
/// 5.4.2). All inputs are allowed. It allocates nothing.
pub fn verify(public: &Public, message: &[u8], signature: &[u8]) -> bool
    ensures holds { IsTrue result ↔ IsSignature public.now message.now signature.now }
    ensures value { result ≡ is_signature public.now message.now signature.now }
{
    if signature.len() != public.signature_len() {
        return false;
    }
    let parts = parts_of(signature, public.values_len());
    parts_hold(public, message, &parts)
}
