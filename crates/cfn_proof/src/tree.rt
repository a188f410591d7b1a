//! A search tree, kept as a list of nodes in which every node stands behind its parent.
//!
//! So a tree is walked without recursion and without memory, and no drop is deep. Nodes are only added, and an
//! open leaf may become a split or a closed leaf, or give its place to the root of another tree.

ghost use Rattle.std.specs.Prelude.{◌≡◌, ◌+◌, ◌<◌, ◌≤◌, ◌^◌, [], ◌∷◌, ◌++◌, length, map, drop, slice_set, vec_len, vec_capacity, Some, None, IfSome, IfOk, IfErr, OnOk, OnErr};
ghost use Rattle.std.specs.List.{AllByRecursion};
ghost use Rattle.cfn_model.specs.Text.{IsSpelledDecision};
ghost use Rattle.cfn_proof.specs.Nodes.{all_steps, FitsBehind, FitsEnd, FitsParent, IsFree, IsTree, node_at, open_node, split_at, split_behind_at, close_at, leave_at, graft_at, moved, moved_end, moved_node, moved_parent};
ghost use Rattle.cfn_proof.specs.Packing.{unpacked};
ghost use Rattle.cfn_proof.specs.declared.tree.End.TheVariants.{Split};

use crate::block::Block;
use cfn_model::Decision;
use std::alloc::{AllocError, Global};
use std::marker::Model;
use std::sync::Arc;

/// The number of a node in its tree. The root has number 0.
#[derive(Clone, Copy, PartialEq, Eq)]
pub struct NodeId {
    pub number: u32,
}

/// How a node ends.
#[derive(Clone, Copy)]
pub enum End {
    /// An open leaf.
    Free,
    /// A closed leaf.
    Shut,
    /// A split: in the first child the decision holds, in the second it fails.
    Split {
        decision: Decision,
        first: NodeId,
        second: NodeId,
    },
}

impl End {
    /// A split by a decision, whose numbers have a spelling, since none is above 4,294,967,295.
    fn split(decision: Decision, children: (NodeId, NodeId)) -> End
        ensures is { result ≡ Split decision children.0 children.1 }
        ensures spelled { IsSpelledDecision decision }
    {
        match decision {
            Decision::Is { .. } | Decision::Most { .. } => {}
        }
        let (first, second) = children;
        End::Split {
            decision,
            first,
            second,
        }
    }
}

/// A node: its parent, the block of steps before its end, and its end.
#[derive(Drop)]
pub struct Node {
    pub parent: Option<NodeId>,
    pub block: Block,
    pub end: End,
}

impl Node {
    /// An open leaf with an empty block. It takes no memory.
    fn open(alloc: Global, parent: Option<NodeId>) -> Node
        ensures { result ≡ open_node parent }
    {
        Node {
            parent,
            block: Block::new(alloc),
            end: End::Free,
        }
    }
}

/// Takes room for the two children of a leaf, and answers their numbers. An `Err`, want of memory or of numbers, leaves
/// the nodes as they were.
fn room_for_children(nodes: &mut Vec<Node>) -> Result<(NodeId, NodeId), AllocError>
    ensures nodes { nodes.new.items ≡ nodes.old.items }
    ensures first { IfOk result (λ c. c.0.number ≡ length nodes.old.items) }
    ensures second { IfOk result (λ c. c.1.number ≡ length nodes.old.items + 1) }
    ensures few { OnOk result (length nodes.old.items + 2 ≤ 2 ^ 32) }
    ensures room { OnOk result (vec_len nodes.new + 2 ≤ vec_capacity nodes.new) }
{
    let next = nodes.len();
    if next > Tree::MOST - 2 {
        return Err(AllocError);
    }
    nodes.reserve(2)?;
    let first = NodeId {
        number: next as u32,
    };
    let second = NodeId {
        number: (next + 1) as u32,
    };
    Ok((first, second))
}

/// Puts the two children of a leaf, open leaves with empty blocks, behind all nodes. It takes no memory.
fn push_children(nodes: &mut Vec<Node>, leaf: NodeId)
    requires { vec_len nodes.old + 2 ≤ vec_capacity nodes.old }
    ensures { nodes.new.items ≡ nodes.old.items ++ open_node (Some leaf) ∷ open_node (Some leaf) ∷ [] }
{
    let alloc = *nodes.allocator();
    let first = Node::open(alloc, Some(leaf));
    let second = Node::open(alloc, Some(leaf));
    nodes.push_reserved(first);
    nodes.push_reserved(second);
}

/// Where the nodes of a piece go: the root to a leaf of a tree of so many nodes, and the others behind those.
#[derive(Clone, Copy)]
struct Place {
    leaf: NodeId,
    nodes: usize,
}

impl Place {
    /// Where a node goes.
    fn id(self, id: NodeId) -> NodeId
        requires { self.nodes + id.number ≤ 2 ^ 32 }
        ensures { result.number ≡ moved self.leaf.number self.nodes id.number }
    {
        if id.number == 0 {
            return self.leaf;
        }
        NodeId {
            number: (self.nodes + id.number as usize - 1) as u32,
        }
    }

    /// A parent by its new number.
    fn parent(self, parent: Option<NodeId>) -> Option<NodeId>
        requires { FitsParent self.nodes parent }
        ensures { result ≡ moved_parent self.leaf.number self.nodes parent }
    {
        match parent {
            None => None,
            Some(parent) => Some(self.id(parent)),
        }
    }

    /// An end with the new numbers of its children.
    fn end(self, end: End) -> End
        requires { FitsEnd self.nodes end }
        ensures { result ≡ moved_end self.leaf.number self.nodes end }
    {
        match end {
            End::Free => End::Free,
            End::Shut => End::Shut,
            End::Split {
                decision,
                first,
                second,
            } => End::Split {
                decision,
                first: self.id(first),
                second: self.id(second),
            },
        }
    }

    /// A node with the new numbers of its parent and its children. It takes no memory.
    fn node(self, node: Node) -> Node
        requires { FitsBehind self.nodes node }
        ensures { result ≡ moved_node self.leaf.number self.nodes node }
    {
        Node {
            parent: self.parent(node.parent),
            block: node.block,
            end: self.end(node.end),
        }
    }

    /// Puts the root of a piece in the leaf's place, and its other nodes behind all nodes. It takes no memory.
    fn put(self, nodes: &mut Vec<Node>, piece: Vec<Node>)
        requires there { self.leaf.number < length nodes.old.items }
        requires some { 0 < length piece.items }
        requires fit { AllByRecursion (FitsBehind self.nodes) piece.items }
        requires room { vec_len nodes.old + vec_len piece ≤ vec_capacity nodes.old + 1 }
        ensures { nodes.new.items ≡ slice_set nodes.old.items self.leaf.number (record (node_at nodes.old.items self.leaf.number) {
          block = (node_at piece.items 0).block;
          end = moved_end self.leaf.number self.nodes (node_at piece.items 0).end;
        }) ++ map (moved_node self.leaf.number self.nodes) (drop 1 piece.items) }
    {
        let mut rest = piece.into_iter();
        if let Some(root) = rest.next() {
            let node = &mut nodes[self.leaf.number as usize];
            node.block = root.block;
            node.end = self.end(root.end);
        }
        for node in rest {
            nodes.push_reserved(self.node(node));
        }
    }
}

/// How many bytes a buffer of blocks has, unless a single block has more.
const BUFFER_SIZE: usize = 2147483648;

/// How many of the first nodes have blocks that fit into one buffer: one at least.
fn fitting(nodes: &[Node]) -> usize
    requires { 0 < length nodes.now }
    ensures some { 0 < result }
    ensures few { result ≤ length nodes.now }
{
    let mut len: usize = 0;
    for i in 0..nodes.len() {
        len = len.saturating_add(nodes[i].block.bytes().len());
        if len > BUFFER_SIZE && i > 0 {
            return i;
        }
    }
    nodes.len()
}

/// The bytes of the blocks of some nodes, one behind the other.
fn joined(alloc: Global, nodes: &[Node]) -> Result<Vec<u8>, AllocError>
    ensures { IfOk result (λ bytes. unpacked bytes.items ≡ all_steps nodes.now) }
{
    let mut len: usize = 0;
    for node in nodes {
        len = len.saturating_add(node.block.bytes().len());
    }
    let mut bytes = Vec::with_capacity(alloc, len)?;
    for node in nodes {
        bytes.extend_from_slice(node.block.bytes())?;
    }
    Ok(bytes)
}

/// Makes the blocks of the nodes from a number on stretches of the buffer in which they stand one behind the other. An
/// `Err`, want of memory, leaves some as they were.
fn share_each(
    nodes: &mut Vec<Node>,
    from: usize,
    until: usize,
    buffer: &Arc<Vec<u8>>,
) -> Result<(), AllocError>
    requires { until ≤ length nodes.old.items }
    ensures { nodes.new.items ≡ nodes.old.items }
{
    let mut start: usize = 0;
    for i in from..until {
        let block = &mut nodes[i].block;
        let len = block.bytes().len();
        if len > 0 {
            block.share(buffer, start)?;
        }
        start = start.saturating_add(len);
    }
    Ok(())
}

/// Moves the blocks of the nodes from a number on into one buffer, as many as it takes, and answers the number of the
/// first node behind those. An `Err` is want of memory.
fn share_from(alloc: Global, nodes: &mut Vec<Node>, from: usize) -> Result<usize, AllocError>
    requires { from < length nodes.old.items }
    ensures same { nodes.new.items ≡ nodes.old.items }
    ensures more { IfOk result (λ until. from < until) }
{
    let until = from + fitting(&nodes[from..]);
    let bytes = joined(alloc, &nodes[from..until])?;
    let buffer = Arc::new(alloc, bytes)?;
    share_each(nodes, from, until, &buffer)?;
    Ok(until)
}

/// A search tree of at most 4,294,967,296 nodes. Contracts see the list of its nodes.
#[derive(Drop)]
pub struct Tree {
    nodes: Vec<Node>,
}

impl Model for Tree {
    ghost use Rattle.std.specs.Prelude.{List};
    ghost use Rattle.cfn_proof.specs.declared.tree.Node.{Node};

    ghost Value = { List Node };

    ghost use Rattle.cfn_proof.specs.Nodes.{IsTree};

    ghost view = { λ t. t.nodes.items };

    ghost invariant = { λ t. IsTree t.nodes.items };
}

impl Tree {
    /// The root's number.
    pub const ROOT: NodeId = NodeId { number: 0 };

    /// How many nodes a tree may have.
    const MOST: usize = 4294967296;

    /// One open leaf with an empty block. An `Err` is want of memory.
    pub fn new(alloc: Global) -> Result<Tree, AllocError>
        ensures { IfOk result (λ tree. tree ≡ open_node None ∷ []) }
    {
        let mut nodes = Vec::new(alloc);
        nodes.push(Node::open(alloc, None))?;
        Ok(Tree { nodes })
    }

    /// Parents and children of a tree know each other, a parent has a smaller number than its children, and all
    /// numbers have a spelling.
    pub fn law_linked(&self)
        ensures { IsTree self.now }
    {
        let _ = &self.nodes;
    }

    /// How many nodes there are. It takes no memory.
    pub fn len(&self) -> usize
        ensures { result ≡ length self.now }
    {
        self.nodes.len()
    }

    /// A node that is there. It takes no memory.
    pub fn node(&self, id: NodeId) -> &Node
        requires { id.number < length self.now }
        ensures { result.now ≡ node_at self.now id.number }
    {
        &self.nodes[id.number as usize]
    }

    /// Splits an open leaf, behind its block, and answers its children: in the first the decision holds, in the
    /// second it fails. They are open leaves with empty blocks. An `Err`, want of memory, leaves the tree as it was;
    /// a tree that has no number left for a child counts as that.
    pub fn split(
        &mut self,
        leaf: NodeId,
        decision: Decision,
    ) -> Result<(NodeId, NodeId), AllocError>
        requires there { leaf.number < length self.old }
        requires free { IsFree self.old leaf.number }
        ensures ok { OnOk result (self.new ≡ split_at self.old leaf.number decision) }
        ensures children { IfOk result (λ c. (c.0.number ≡ length self.old) × (c.1.number ≡ length self.old + 1)) }
        ensures err { OnErr result (self.new ≡ self.old) }
    {
        let children = room_for_children(&mut self.nodes)?;
        let node = &mut self.nodes[leaf.number as usize];
        node.end = End::split(decision, children);
        push_children(&mut self.nodes, leaf);
        Ok(children)
    }

    /// Splits an open leaf behind a block, which takes the place of the leaf's own, and answers its children as `split`
    /// does. An `Err`, want of memory or of a number for a child, drops the block and leaves the tree as it was.
    pub fn split_behind(
        &mut self,
        leaf: NodeId,
        block: Block,
        decision: Decision,
    ) -> Result<(NodeId, NodeId), AllocError>
        requires there { leaf.number < length self.old }
        requires free { IsFree self.old leaf.number }
        ensures ok { OnOk result (self.new ≡ split_behind_at self.old leaf.number block decision) }
        ensures children { IfOk result (λ c. (c.0.number ≡ length self.old) × (c.1.number ≡ length self.old + 1)) }
        ensures err { OnErr result (self.new ≡ self.old) }
    {
        let children = room_for_children(&mut self.nodes)?;
        let fitted = block.fitted();
        let parent = &mut self.nodes[leaf.number as usize];
        parent.block = fitted;
        parent.end = End::split(decision, children);
        push_children(&mut self.nodes, leaf);
        Ok(children)
    }

    /// Closes an open leaf behind a block, which takes the place of the leaf's own. It takes no memory.
    pub fn close(&mut self, leaf: NodeId, block: Block)
        requires there { leaf.number < length self.old }
        requires free { IsFree self.old leaf.number }
        ensures { self.new ≡ close_at self.old leaf.number block }
    {
        let fitted = block.fitted();
        let node = &mut self.nodes[leaf.number as usize];
        node.block = fitted;
        node.end = End::Shut;
    }

    /// Leaves an open leaf open, behind a block, which takes the place of the leaf's own. It takes no memory.
    pub fn leave(&mut self, leaf: NodeId, block: Block)
        requires there { leaf.number < length self.old }
        requires free { IsFree self.old leaf.number }
        ensures { self.new ≡ leave_at self.old leaf.number block }
    {
        let fitted = block.fitted();
        let node = &mut self.nodes[leaf.number as usize];
        node.block = fitted;
    }

    /// Closes an open leaf behind its own block. It takes no memory.
    pub fn shut(&mut self, leaf: NodeId)
        requires there { leaf.number < length self.old }
        requires free { IsFree self.old leaf.number }
        ensures { self.new ≡ close_at self.old leaf.number (node_at self.old leaf.number).block }
    {
        let node = &mut self.nodes[leaf.number as usize];
        node.end = End::Shut;
    }

    /// Puts a piece into an open leaf: its root takes the leaf's place, behind the leaf's block, and its other nodes stand
    /// behind all nodes of the tree, in their order. No block is copied where the leaf's is empty. An `Err`, want of
    /// memory or of numbers (more than 4,294,967,296 nodes), leaves the tree as it was and gives back the piece.
    pub fn graft(&mut self, leaf: NodeId, piece: Tree) -> Result<(), Tree>
        requires there { leaf.number < length self.old }
        requires free { IsFree self.old leaf.number }
        ensures ok { OnOk result (self.new ≡ graft_at self.old leaf.number piece) }
        ensures err { OnErr result (self.new ≡ self.old) }
        ensures back { IfErr result (λ given. given ≡ piece) }
    {
        let mut piece = piece;
        let nodes = self.nodes.len();
        let others = piece.nodes.len() - 1;
        if others > Tree::MOST - nodes || self.nodes.reserve(others).is_err() {
            return Err(piece);
        }
        let own = &self.nodes[leaf.number as usize].block;
        if piece.nodes[0].block.put_behind(own).is_err() {
            return Err(piece);
        }
        Place { leaf, nodes }.put(&mut self.nodes, piece.nodes);
        Ok(())
    }

    /// Moves all blocks into buffers of 2^31 bytes at most, of which each is a stretch from then on, so that copies of them
    /// copy no step. A tree of one node stays as it was, and a block of 2^32 bytes or more. An `Err`, want of memory, may
    /// leave some blocks where they were.
    pub fn share(&mut self, alloc: Global) -> Result<(), AllocError>
        ensures { self.new ≡ self.old }
    {
        if self.nodes.len() < 2 {
            return Ok(());
        }
        let mut next: usize = 0;
        while next < self.nodes.len() {
            next = share_from(alloc, &mut self.nodes, next)?;
        }
        Ok(())
    }

    /// The same tree, or want of memory. No step is copied where the blocks are shared.
    pub fn copy(&self, alloc: Global) -> Result<Tree, AllocError>
        ensures { IfOk result (λ tree. tree ≡ self.now) }
    {
        let mut nodes = Vec::new(alloc);
        for node in &self.nodes {
            nodes.push(Node {
                parent: node.parent,
                block: node.block.copy(alloc)?,
                end: node.end,
            })?;
        }
        Ok(Tree { nodes })
    }
}
