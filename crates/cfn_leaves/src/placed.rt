//! What comes of a tree that is put into a leaf.

use cfn_proof::Tree;

/// The answer to a tree that is put in the place of a leaf.
#[derive(Drop)]
pub enum Placed {
    /// It has taken the leaf's place.
    Done,
    /// The leaf is not out to the worker with the grant.
    Gone { tree: Tree },
    /// There is no memory for it, or no number for a node, a leaf or a floor.
    Memory { tree: Tree },
}
