// The nodes of a tree (RFC 8554, section 5.3), and the root that a path leads to (section 5.4.2, algorithm 6a).

ghost use Rattle.std.specs.Prelude.{◌≡◌, ◌*◌, ◌<◌, length};
ghost use Rattle.lms_core.specs.Tree.{leaf_node, inner_node, sibling_of};
ghost use Rattle.lms_core.specs.Verify.{parent_node, root_along};

use sha2::{Digest, Sha256};

// What tells the hash of a leaf from that of an inner node (RFC 8554, section 5.1).
const D_LEAF: u16 = 0x8282;

const D_INTR: u16 = 0x8383;

// The node `r` of a leaf with this one-time key.
pub(crate) fn leaf_node(id: &[u8; 16], r: u32, key: &[u8; 32]) -> [u8; 32]
    ensures { result ≡ leaf_node id.now r key.now }
{
    let mut hasher = Sha256::new();
    hasher.update(id);
    hasher.update(r.to_be_bytes());
    hasher.update(D_LEAF.to_be_bytes());
    hasher.update(key);
    hasher.finalize()
}

// The inner node `r` above two nodes.
pub(crate) fn inner_node(id: &[u8; 16], r: u32, left: &[u8], right: &[u8]) -> [u8; 32]
    ensures { result ≡ inner_node id.now r left.now right.now }
{
    let mut hasher = Sha256::new();
    hasher.update(id);
    hasher.update(r.to_be_bytes());
    hasher.update(D_INTR.to_be_bytes());
    hasher.update(left);
    hasher.update(right);
    hasher.finalize()
}

// The number of the node beside node `r`.
pub(crate) fn sibling_of(r: u32) -> u32
    requires { 0 < r }
    ensures { result ≡ sibling_of r }
{
    if r % 2 == 0 { r + 1 } else { r - 1 }
}

// The node above node `r`.
fn parent_node(id: &[u8; 16], r: u32, node: &[u8; 32], sibling: &[u8]) -> [u8; 32]
    ensures { result ≡ parent_node id.now r node.now sibling.now }
{
    if r % 2 == 0 {
        inner_node(id, r / 2, node, sibling)
    } else {
        inner_node(id, r / 2, sibling, node)
    }
}

// The node that stands `levels` above the node `r`, along the path.
pub(crate) fn root_along(
    id: &[u8; 16],
    r: u32,
    leaf: &[u8; 32],
    levels: usize,
    path: &[u8],
) -> [u8; 32]
    requires { length path.now ≡ 32 * levels }
    ensures { result ≡ root_along id.now r leaf.now levels path.now }
{
    let mut number = r;
    let mut node = *leaf;
    'levels: for level in 0..levels {
        let sibling = &path[32 * level..32 * level + 32];
        node = parent_node(id, number, &node, sibling);
        number /= 2;
    }
    node
}
