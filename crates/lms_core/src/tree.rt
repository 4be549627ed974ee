// The tree of a private key (RFC 8554, section 5). Its nodes are kept in a table, so that to sign is to look up a path.

ghost use Rattle.std.specs.Prelude.{◌≡◌, ◌+◌, ◌*◌, ◌<◌, ◌≤◌, ◌++◌, length, take, IfOk};
ghost use Rattle.lms_core.specs.Parameters.{leaves_of, levels_of, signature_len_of};
ghost use Rattle.lms_core.specs.Tree.{identifier_of, key_from, path_of, public_key_of, signature_of, IsNode};
ghost use Rattle.lms_core.specs.Table.{HasNodesFrom};
ghost use Rattle.lms_core.specs.Verify.{IsValidSignature};

use crate::height::Height;
use crate::nodes::{inner_node, leaf_node, sibling_of};
use crate::public_key::{PublicKey, key_id};
use lmots_core::Width;
use std::alloc::{AllocError, Global};
use std::marker::Model;

/// A private key with the nodes of its tree. Contracts see it as its seed, width and height.
#[derive(Drop)]
pub struct Tree {
    seed: [u8; 32],
    width: Width,
    height: Height,
    id: [u8; 16],
    nodes: Vec<[u8; 32]>,
}

impl Model for Tree {
    ghost use Rattle.lms_core.specs.Tree.{Key, key_from};
    ghost use Rattle.lms_core.specs.Table.{IsTree};

    ghost Value = { Key };

    ghost view = { λ tree. key_from tree.seed tree.width tree.height };

    ghost invariant = { λ tree. IsTree (key_from tree.seed tree.width tree.height) tree.id tree.nodes.items };
}

impl Tree {
    /// The tree of the key that is made from a seed: computes every one-time key, and keeps 2^(h+1) nodes of 32 bytes.
    pub fn build(
        alloc: Global,
        seed: &[u8; 32],
        width: Width,
        height: Height,
    ) -> Result<Tree, AllocError>
        ensures { IfOk result (λ tree. tree ≡ key_from seed.now width height) }
    {
        let id = key_id(seed);
        let mut nodes = vec![in alloc; [0; 32]; 2 * height.leaves() as usize]?;
        fill(&mut nodes, seed, width, height, &id);
        Ok(Tree {
            seed: *seed,
            width,
            height,
            id,
            nodes,
        })
    }

    /// A second tree of the same key, without computing a node again. The only error is want of memory.
    pub fn try_clone(&self, alloc: Global) -> Result<Tree, AllocError>
        ensures { IfOk result (λ tree. tree ≡ self.now) }
    {
        Ok(Tree {
            seed: self.seed,
            width: self.width,
            height: self.height,
            id: self.id,
            nodes: Vec::from_slice(alloc, &self.nodes)?,
        })
    }

    /// The public key, under which the signatures of this tree are valid.
    pub fn public(&self) -> PublicKey
        ensures { result ≡ public_key_of self.now }
    {
        PublicKey::from_parts(self.width, self.height, &self.id, &self.node(1))
    }

    /// The width of the one-time signatures.
    pub fn width(&self) -> Width
        ensures { result ≡ self.now.width }
    {
        self.width
    }

    /// The height of the tree.
    pub fn height(&self) -> Height
        ensures { result ≡ self.now.height }
    {
        self.height
    }

    /// The identifier I of the key.
    pub fn id(&self) -> [u8; 16]
        ensures { result ≡ identifier_of self.now.seed }
    {
        self.id
    }

    /// The secret seed that the tree was built from.
    pub fn seed(&self) -> [u8; 32]
        ensures { result ≡ self.now.seed }
    {
        self.seed
    }

    /// Writes the signature of `message` under the leaf `q` to `out` (RFC 8554, section 5.4). A leaf may sign one message
    /// alone: who signs two with it gives away a part of the secret.
    #[tactic(auto, unfolding(crate::specs::Tree::signature_of))]
    pub fn sign(&self, q: u32, message: &[u8], out: &mut [u8])
        requires leaf { q < leaves_of self.now.height }
        requires room { length out.old ≡ signature_len_of self.now.width self.now.height }
        ensures exact { out.new ≡ signature_of self.now q message.now }
        ensures valid { IsValidSignature (public_key_of self.now) message.now out.new }
    {
        let (leaf, rest) = out.split_at_mut(4);
        leaf.copy_from_slice(&q.to_be_bytes());
        let (one_time, rest) = rest.split_at_mut(self.width.signature_len());
        lmots_core::sign(self.width, &self.seed, &self.id, q, message, one_time);
        let (code, path) = rest.split_at_mut(4);
        code.copy_from_slice(&self.height.code().to_be_bytes());
        self.copy_path(q, path);
    }

    // Writes the path of the leaf `q` to `path`.
    fn copy_path(&self, q: u32, path: &mut [u8])
        requires leaf { q < leaves_of self.now.height }
        requires room { length path.old ≡ 32 * levels_of self.now.height }
        ensures { path.new ≡ path_of self.now q }
    {
        let mut r = self.height.leaves() + q;
        'levels: for level in 0..self.height.levels() {
            put(path, 32 * level, &self.node(sibling_of(r)));
            r /= 2;
        }
    }

    // T[r], from the table.
    fn node(&self, r: u32) -> [u8; 32]
        requires node { 0 < r }
        requires inside { r < 2 * leaves_of self.now.height }
        ensures { IsNode self.now r result }
    {
        self.nodes[r as usize]
    }
}

// Writes 32 bytes to `out` from `place` on.
fn put(out: &mut [u8], place: usize, bytes: &[u8; 32])
    requires { place + 32 ≤ length out.old }
    ensures { take (place + 32) out.new ≡ take place out.old ++ bytes.now }
{
    let (_, back) = out.split_at_mut(place);
    let (part, _) = back.split_at_mut(32);
    part.copy_from_slice(bytes);
}

// Computes the nodes of a key's tree, from the leaves up to the root.
fn fill(nodes: &mut [[u8; 32]], seed: &[u8; 32], width: Width, height: Height, id: &[u8; 16])
    requires room { length nodes.old ≡ 2 * leaves_of height }
    requires identifier { id.now ≡ identifier_of seed.now }
    ensures { HasNodesFrom (key_from seed.now width height) 1 nodes.new }
{
    let mut r = 2 * height.leaves();
    'nodes: while r > 1 {
        r -= 1;
        nodes[r as usize] = computed(nodes, seed, width, height, id, r);
    }
}

// T[r], from the nodes below it.
fn computed(
    nodes: &[[u8; 32]],
    seed: &[u8; 32],
    width: Width,
    height: Height,
    id: &[u8; 16],
    r: u32,
) -> [u8; 32]
    requires node { 0 < r }
    requires inside { r < 2 * leaves_of height }
    requires identifier { id.now ≡ identifier_of seed.now }
    requires below { HasNodesFrom (key_from seed.now width height) (r + 1) nodes.now }
    ensures { IsNode (key_from seed.now width height) r result }
{
    let leaves = height.leaves();
    if r < leaves {
        let left = 2 * r as usize;
        inner_node(id, r, &nodes[left], &nodes[left + 1])
    } else {
        let key = lmots_core::public(width, seed, id, r - leaves);
        leaf_node(id, r, &key)
    }
}
