ghost use Rattle.std.specs.Prelude.{◌≡◌, ◌*◌, length};
ghost use Rattle.st_lms.specs.Tree.{leaf, inner, parent, node_above};

use crate::strings::{D_INTR, D_LEAF, hasher};
use sha2::Digest;

/// Leaf `r`, over a one-time public key.
pub(crate) fn leaf(id: &[u8; 16], r: u32, key: &[u8; 32]) -> [u8; 32]
    ensures { result ≡ leaf id.now r key.now }
{
    let mut hasher = hasher(id, r, D_LEAF);
    hasher.update(key.as_slice());
    hasher.finalize()
}

/// Node `r`, over the two nodes below it.
pub(crate) fn inner(id: &[u8; 16], r: u32, left: &[u8], right: &[u8]) -> [u8; 32]
    ensures { result ≡ inner id.now r left.now right.now }
{
    let mut hasher = hasher(id, r, D_INTR);
    hasher.update(left);
    hasher.update(right);
    hasher.finalize()
}

#[tactic(auto, unfolding(crate::specs::Tree::parent))]
fn parent(id: &[u8; 16], r: u32, node: &[u8], other: &[u8]) -> [u8; 32]
    ensures { result ≡ parent id.now r node.now other.now }
{
    if r % 2 == 0 {
        inner(id, r / 2, node, other)
    } else {
        inner(id, r / 2, other, node)
    }
}

/// The node `levels` above leaf `r`, from that leaf and the siblings on the way.
pub(crate) fn node_above(
    id: &[u8; 16],
    r: u32,
    leaf: [u8; 32],
    path: &[u8],
    levels: u32,
) -> [u8; 32]
    requires { length path.now ≡ 32 * levels }
    ensures { result ≡ node_above id.now r leaf path.now levels }
{
    let mut node = leaf;
    let mut number = r;
    'levels: for level in 0..levels {
        let at = 32 * level as usize;
        node = parent(id, number, &node, &path[at..at + 32]);
        number /= 2;
    }
    node
}
