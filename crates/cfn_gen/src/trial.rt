//! The network of a seed and a number of variables.

ghost use Rattle.std.specs.Prelude.{◌≡◌, ◌≤◌, IfOk};
ghost use Rattle.cfn_gen.specs.Generator.{EachIsAllowed, instance};

use crate::draws::Draws;
use crate::group::{add_pairs, add_singles};
use cfn_net::{Builder, Network};
use std::alloc::{AllocError, Global};

/// The network of a seed, 0 to 65,536, and a number of variables, 1 to 200.
pub fn instance(alloc: Global, seed: u32, size: u32) -> Result<Network, AllocError>
    requires seed { seed ≤ 65536 }
    requires some { 1 ≤ size }
    requires few { size ≤ 200 }
    ensures { IfOk result (λ network. network ≡ instance seed size) }
{
    let sizes = vec![in alloc; 3; size as usize]?;
    let functions = size + size.saturating_sub(1) + size.saturating_sub(2);
    let upper = 9 * u64::from(functions) + 1;
    let mut builder = Builder::make(alloc, b"trial", &sizes, upper)?;
    let mut draws = Draws::new(seed);
    add_singles(&mut builder, size, &mut draws)?;
    add_pairs(&mut builder, size, 1, &mut draws)?;
    add_pairs(&mut builder, size, 2, &mut draws)?;
    builder.finish()
}

/// Nothing: its contract is the law that no assignment of such a network reaches its upper bound, so each is allowed.
pub fn law_allowing()
    ensures { EachIsAllowed }
{}
