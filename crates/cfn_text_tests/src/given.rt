//! A network and an assignment of it, a tree, and a desk that is writing a file.

ghost use Rattle.std.specs.Prelude.{◌≡◌, ◌<◌, ◌≤◌, [], ◌∷◌, IfOk, IsTrue, is_some};
ghost use Rattle.cfn_desk.specs.Outside.{IsWriting};

use cfn_desk::{Desk, Failed, MemoryDesk};
use cfn_net::{Builder, Network, Scored};
use cfn_proof::{Decision, Tree};
use std::alloc::{AllocError, Global};
use std::test::Fail;

/// Two variables of 2 values, and one function that costs 5 everywhere.
pub(crate) fn network(rt: &HostRuntime) -> Result<Network, AllocError>
    ensures { IfOk result (λ network. network.sizes ≡ 2 ∷ 2 ∷ []) }
{
    let mut builder = Builder::make(rt.alloc(), b"two", &[2, 2], 10)?;
    builder.begin(&[0, 1], 5)?;
    builder.finish()
}

/// An assignment of that network, which costs 5.
pub(crate) fn best(rt: &HostRuntime, network: &Network) -> Result<Scored, AllocError>
    requires { network.now.sizes ≡ 2 ∷ 2 ∷ [] }
    ensures { IfOk result (λ scored. IsTrue (is_some scored.held)) }
{
    let mut scored = Scored::empty(rt.alloc(), network)?;
    scored.fill(network, &[1, 0]);
    Ok(scored)
}

/// The split by the value 0 of a network of one variable, with two open leaves.
pub(crate) fn split_tree(alloc: Global) -> Result<Tree, AllocError> {
    let decision = Decision::Is {
        variable: 0,
        value: 0,
    };
    let mut tree = Tree::new(alloc)?;
    tree.split(Tree::ROOT, decision)?;
    Ok(tree)
}

/// A desk that is writing a file, where these calls fail. The opening is call 1.
pub(crate) fn writing_desk(rt: &HostRuntime, failing: &[u64]) -> Result<MemoryDesk, Fail>
    ensures { IfOk result (λ desk. IsWriting desk.calls) }
{
    let mut desk = MemoryDesk::make(rt.alloc(), &[], 8192, 8192, failing)?;
    match desk.open_out("file") {
        Ok(()) => Ok(desk),
        Err(Failed) => Err(Fail::new("the file did not open")),
    }
}
